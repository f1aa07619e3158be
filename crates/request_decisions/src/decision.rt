//! What is decided of a request.

use action_fields::FormField;
use auction_calls::Action;
use crash_base::RequestNo;
use session_cookie::Cookie;

/// Why a request is refused at once.
#[derive(Clone, Copy)]
pub enum Refusal {
    /// Nothing is at its path.
    NotThere,
    /// Something is at its path, and not by its method. `allow` says by which, as `ExtraFields` counts them.
    NotAllowed { allow: u8 },
    /// Its form is in parts, which are not understood.
    Multipart,
    /// This is the first field that is bad.
    BadForm { field: FormField },
    /// Its token was written in another boot than this one.
    StaleForm { token_boot: u32, boot: u32 },
}

/// What a request orders that is not refused at once.
#[derive(Drop)]
pub struct Order {
    /// What it asks for.
    pub action: Action,
    /// The number of its token. A GET has none, and draws its number.
    pub number: Option<RequestNo>,
    /// The cookie that it bears, where that is one of this service. Its session is read before the action.
    pub cookie: Option<Cookie>,
}

/// What is decided of a request.
#[derive(Drop)]
pub enum Decision {
    /// It is answered so, and draws nothing.
    Refused(Refusal),
    /// It is to be served.
    Ordered(Order),
}
