//! How often something is done.

use crash_base::Moment;

/// Whether something is due that was done last at this moment, if ever, and is done once in so many milliseconds.
pub(crate) fn is_due(last: Option<Moment>, milliseconds: u64, now: Moment) -> bool {
    match last {
        None => true,
        Some(last) => now.0.saturating_sub(last.0) >= milliseconds,
    }
}
