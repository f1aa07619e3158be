//! Laws of items: each goes back to its own request.
//!
//! `shepherd` says how one connection is served, a step at a time, and what its items stand for. Here it is said that
//! each item is that of the request which it is taken for, over all steps, whatever others do between two of them:
//!
//! ```text
//! its place      the heads of a connection are those of the requests of its items, in order, and of the open one
//! its outcome    refused, or a serial number spent, exactly where its request arrived so; else that was admitted
//! its number     that of the token of its own form, or the one that was drawn for it; none where it is refused; it is
//!                of the boot that takes requests in
//! its moment     what the clock told when it was taken in; no item's moment is less than that of the item before, or
//!                than the moment that the connection began with, which who drives reads off the clock
//! its session    what was read by the cookie of its own head, and with the nonce that was drawn for that read; it is
//!                read exactly where its head bears a cookie that is accepted
//! its user       nobody where no session was read, and else the one that the value of the session names
//! its entry      under its number, with the text of its own call, made by the program of that call over the rows just
//!                before it; or that of an earlier call under the same number
//! its counts     those of the item before, or more: by a silence for each brick whose silence it tells, and by 64
//!                frames for each that strayed, up to the last value of a count
//! its cookie     under its own key, with the nonce that was drawn for the write, for half an hour from its moment on
//! ```
//!
//! `specs/Attributing.antt` has the relation, as `Attributing`: over the heads of the requests that were taken off the
//! bytes, the numbers that were drawn for them, the earliest and the latest moment that the clock told, and the items
//! that were taken. The requests are served by one `Service`: a key, a boot, and what makes programs of calls.
//! `items_go_back_to_their_requests` says that each step of a connection keeps it, and `taken_requests_are_attributed`
//! how a request joins it: with just the numbers that the sources gave for it then. They were drawn one after another;
//! but others may draw between two requests, so that the numbers of all requests of a connection differ is for who
//! drives to show, over all draws of the source (`outside::serials_differ`).
//!
//! `items_tell_what_was_served` says what follows, by `specs/Served.antt`: `AreServed` of all items, and of each, as
//! `IsServedFor`, what the table above tells. So a server that serves a request by the program of another one, or as
//! the user of another session, or that tells of an item another number or moment, has no such proof.
//! `moments_of_items_never_fall` says in plain words how the moments rise.
//!
//! `items_have_numbers_of_their_boot` says that the numbers are of the boot of the service (`home`). No call asks that
//! this is the container's: **who drives has to keep `service.home.boot ≡ start.boot`**, of the start of the container
//! that it lets connections step in. Then each entry that an item names is under a number of the container's own boot,
//! and no form of an older boot is taken.
//!
//! `items_follow_one_another` says that the journal is no shorter when the container is first held for a request than
//! when it was last held for a request before, as their items tell; and that both places of an item are the front of
//! the item before, and 0 for the first, where the container was not held for it. `places_of_items_are_in_order` says
//! so in plain words, and `pages_show_their_entries` that a client is shown the status and the page of the entry.
//!
//! `specs/Holding.antt` has how many events the history had when the container was last held for each item, as
//! `Holding`, and `items_are_held_in_order` says that each step keeps it: no item is older than what its connection has
//! seen.
//!
//! `specs/Counting.antt` has what a link counted from item to item, as `Counting`, and
//! `items_account_for_their_causes` says that each step keeps it, where others only raise what the link counted.
//!
//! Where memory was wanted, the connection has ended, and `drop_passes` may be called at any turn: where the response
//! of the open request has not left, no item comes of it any more
//! (`shepherd::stopped_connections_account_for_what_they_left`).
//!
//! There is no code here but functions that do nothing, so there are no wrong bodies to refuse.
#![tactic(auto)]

mod counting;
mod holding;
mod laws;
mod numbering;
mod ordering;
mod showing;
mod telling;

pub use counting::items_account_for_their_causes;
pub use holding::items_are_held_in_order;
pub use laws::{
    items_follow_one_another, items_go_back_to_their_requests, taken_requests_are_attributed,
};
pub use numbering::{items_have_numbers_of_their_boot, moments_of_items_never_fall};
pub use ordering::places_of_items_are_in_order;
pub use showing::pages_show_their_entries;
pub use telling::items_tell_what_was_served;
