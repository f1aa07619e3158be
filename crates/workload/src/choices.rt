//! What is drawn for each turn.

ghost use Rattle.std.specs.Prelude.{◌≡◌, ◌≤◌, ◌<◌};
ghost use Rattle.workload.specs.Choices.{next_number, deed_of, chosen};

/// The factor of the linear congruence that draws numbers.
pub const MULTIPLIER: u64 = 6_364_136_223_846_793_005;

/// What the linear congruence adds.
pub const INCREMENT: u64 = 1_442_695_040_888_963_407;

/// The number of the last caller, who are numbered from 1.
pub const LAST_CALLER: u64 = 4;

/// The most turns of a workload.
pub const MAX_TURNS: u64 = 100_000;

/// What a live caller does.
#[derive(Clone, Copy)]
pub enum Deed {
    /// It puts a row of its table.
    Put,
    /// It reads a row of its table.
    Read,
    /// It lists its table.
    List,
    /// It commits.
    Commit,
    /// It reboots the group of A or that of C, or drops its call, by the key.
    Reboot,
}

/// What is chosen for a turn.
#[derive(Clone, Copy)]
pub struct Choice {
    /// What the caller does where it is live.
    pub deed: Deed,
    /// Who does it, from 1 to 4.
    pub caller: u64,
    /// Which row of a table, from 0 to 15.
    pub key: u64,
}

/// The number that is drawn after this one.
pub(crate) fn next_number(x: u64) -> u64
    ensures { result ≡ next_number x }
{
    x.wrapping_mul(MULTIPLIER).wrapping_add(INCREMENT)
}

/// What a number below 8 says that a live caller does.
fn deed_of(op: u64) -> Deed
    ensures { result ≡ deed_of op }
{
    if op < 3 {
        Deed::Put
    } else if op < 4 {
        Deed::Read
    } else if op < 5 {
        Deed::List
    } else if op < 7 {
        Deed::Commit
    } else {
        Deed::Reboot
    }
}

/// What a number chooses.
#[tactic(auto, unfolding(crate::specs::Choices::chosen))]
pub(crate) fn chosen(x: u64) -> Choice
    ensures value { result ≡ chosen x }
    ensures caller { result.caller ≤ LAST_CALLER }
{
    let r = x / (1 << 32);
    Choice {
        deed: deed_of(r % 8),
        caller: (r / 8) % 4 + 1,
        key: (r / 32) % 16,
    }
}
