//! Whether a reboot may begin.

ghost use Rattle.std.specs.Prelude.{◌≡◌, ◌≢◌, ◌<◌, IfSome};
ghost use Rattle.boot_core.specs.Refusals.{busy, busy_at, reboot_refusal};

use crate::refusals::RebootRefusal;
use commit_journal::Journal;
use crash_base::{GroupNo, MAX_GROUPS, Scope};

/// Why a group keeps a scope from its reboot, if it does.
fn busy_at(journal: &Journal, scope: Scope, group: GroupNo) -> Option<RebootRefusal>
    requires { group.0 < MAX_GROUPS }
    ensures value { result ≡ busy_at journal.now.entries scope group.0 }
    ensures memory { IfSome result (λ e. e ≢ RebootRefusal.OutOfMemory) }
{
    if !scope.holds(group) {
        return None;
    }
    match journal.down_of(group) {
        Some(down) => Some(RebootRefusal::Busy { group, down }),
        None => None,
    }
}

/// The least group that keeps a scope from its reboot. It asks each of `MAX_GROUPS` groups.
fn busy(journal: &Journal, scope: Scope) -> Option<RebootRefusal>
    ensures value { result ≡ busy journal.now.entries scope }
    ensures memory { IfSome result (λ e. e ≢ RebootRefusal.OutOfMemory) }
{
    for number in 0..MAX_GROUPS {
        if let Some(refusal) = busy_at(journal, scope, GroupNo(number)) {
            return Some(refusal);
        }
    }
    None
}

/// Why a reboot may not begin. It asks each of `MAX_GROUPS` groups.
pub(crate) fn reboot_refusal(journal: &Journal, scope: Scope) -> Option<RebootRefusal>
    ensures value { result
        ≡ reboot_refusal journal.now.limits journal.now.entries scope }
    ensures memory { IfSome result (λ e. e ≢ RebootRefusal.OutOfMemory) }
{
    if let Some(refusal) = busy(journal, scope) {
        return Some(refusal);
    }
    match journal.full_for(2, 0) {
        Some(full) => Some(RebootRefusal::JournalFull(full)),
        None => None,
    }
}
