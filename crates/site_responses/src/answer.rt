//! What is answered.

use action_fields::FormField;
use crash_base::{CookieText, PageText};

/// What a request is answered.
#[derive(Drop)]
pub enum SiteAnswer {
    /// What its action says: a status and a page, and the cookie of its session where that was written.
    Page {
        status: u16,
        page: PageText,
        cookie: Option<CookieText>,
    },
    /// Nothing is at its path.
    NotThere,
    /// Something is at its path, and not by its method. `allow` says by which, as `ExtraFields` counts them.
    NotAllowed {
        allow: u8,
    },
    /// Its form is in parts, which are not understood.
    Multipart,
    /// This is the first field that is bad.
    BadForm {
        field: FormField,
    },
    /// Its form was written in another boot.
    StaleForm,
    /// The lease of its session has ended.
    Expired,
    /// No brick has its session any more.
    Lost,
    /// What it needs is full, down or out of reach: a group, the journal, the keeper, the bricks, or the numbers. Or
    /// others came before it three times.
    TryAgain,
    /// Its action failed, and will again.
    Failed,
}

/// Why no further request is taken off the bytes of a connection.
#[derive(Clone, Copy)]
pub enum Untaken {
    /// They are no head, or say a length that is none.
    Bad,
    /// The head is over its limits.
    TooLong,
    /// The body is over its limit.
    BodyTooLong,
    /// The body has a transfer coding.
    NoCoding,
}
