//! Whether a call may go on.

ghost use Rattle.std.specs.Prelude.{◌≡◌, All};
ghost use Rattle.journal_model.specs.Stale.{IsTouch, is_stale, stale_by, stale_in};

use commit_journal::{Journal, Stale, Touch};

/// Whether the group of a touch was rebooted since: it has another generation by now. It visits that group alone.
fn is_stale(journal: &Journal, touch: &Touch) -> bool
    requires { IsTouch journal.now.entries touch.now }
    ensures { result ≡ is_stale journal.now.entries touch.now }
{
    touch.generation != journal.generation(touch.group)
}

/// What a touch shows that is stale.
fn stale_by(journal: &Journal, touch: &Touch) -> Stale
    requires { IsTouch journal.now.entries touch.now }
    ensures { result ≡ stale_by journal.now.entries touch.now }
{
    Stale {
        group: touch.group,
        had: touch.generation,
        now: journal.generation(touch.group),
    }
}

/// The first touch whose group was rebooted since. It visits each touch.
pub(crate) fn stale_in(journal: &Journal, touched: &[Touch]) -> Option<Stale>
    requires { All (IsTouch journal.now.entries) touched.now }
    ensures { result ≡ stale_in journal.now.entries touched.now }
{
    for touch in touched {
        if is_stale(journal, touch) {
            return Some(stale_by(journal, touch));
        }
    }
    None
}
