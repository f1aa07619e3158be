//! What the auction means by each of its sixteen actions, and the plan by which each is done.
//!
//! The meaning of a call is said over all rows of the site: the first refusal that holds, or else the rows that
//! are written and the answer. The plan of a call reads one row or table after the other. That plan and meaning
//! come to the same, over any rows, is proved here. The code that follows the plans stands in `auction_actions`.
//!
//! ```text
//! the call      user 3 bids 500 on item 7, at the moment 1,000
//! the rows      item 7: running until 2,000, of seller 2, from 100 on, with 2 bids, the best of them 400
//! is written    bid 3 on item 7: of user 3, of 500, at 1,000
//!               item 7: with 3 bids, the best of them 500, of user 3
//! is answered   200, a page with the heading "Bid 3 on item 7"; the session stays as it is
//!
//! a bid of 400  is answered 409 "Bid too low", and nothing is written
//! ```
//!
//! | File of `specs/` | What it says |
//! |---|---|
//! | `Answers` | the answer of each refusal |
//! | `Outcomes` | what each action writes and answers where nothing refuses it |
//! | `Found`, `Rules` | the meaning of each action over all rows: its refusals in their order, and its outcome |
//! | `Numbers` | the numbers of the rows that a page lists |
//! | `Pieces`, `Planned` | the plan of each action |
//! | `Actions` | `meaning` of an action and `site` of a call; `plan_of`, its plan; `steps_of`, its steps |
//! | `Meant` | which commits an action made, and which commits and journals are what the site means |
//! | `Coherent` | `IsCoherent`: the items, the bids and the counter of items fit together |
//! | `Accepted` | when signing in and each action that writes are accepted, in the words of its users |
//! | `Done` | `IsOver`: what an item is after its auction |
//! | `Sessions` | whose the session is after an answer |
//! | `Offered` | what an offer leaves in the rows |
//! | `Reached` | which components an action may enter, and which tables it may read, list and put |
//! | `Written` | what writes spell |
//!
//! | Law | What it says |
//! |---|---|
//! | `plans_come_to_the_site` | the plan of a call comes to what the site means by it, over any rows |
//! | `calls_run_as_the_site` | the run of a call keeps the rules and limits of calls, and writes and answers just that |
//! | `followed_calls_are_made` | a call that follows the steps of an action to their end has made its entry |
//! | `commits_are_meant` | a current commit that an action made over the rows at its begin is what the site means by its call over the rows just before it |
//! | `journals_stay_meant` | a journal in which each commit with an action is meant stays so by each entry |
//! | `actions_keep_rows_coherent` | the empty list of rows is coherent, and each call leaves coherent rows coherent |
//! | `low_bids_are_exact` | over coherent rows, a bid on another's running item is answered as too low exactly where it is below the start or some bid is of no less |
//! | `closing_sells_to_the_greatest_bid` | over coherent rows, the close of an item sells it to the bidder of the greatest bid, where that is of at least a cent |
//! | `actions_are_accepted` | signing in and each action that writes are accepted exactly where they may be |
//! | `actions_leave_their_rows` | what comes of an action is read back from the rows that it leaves |
//! | `actions_go_through_their_components` | which component a bid, a purchase, a close and feedback enter right after Web |
//! | `actions_stay_within_their_reach` | no step of a call enters, reads, lists or puts what its action may not |
//! | `what_was_done_is_refused` | a second feedback of one side is refused, what is tried on an item whose auction is over, and a bid of no more than the last |
//! | `who_registers_signs_in` | over the rows that registering leaves the password signs in; the rows have no more of it than its digest |
//! | `sessions_are_of_users` | whose the session is after each action, and that a refusal leaves it |
//! | `only_buying_is_not_repeated` | a purchase alone enters a component by a method that may not be called again |
//! | `writes_are_rows` | each write spells a row of its table |
//! | `limits_are` | the last numbers, the length of a page and of an hour, and who adds categories |
//!
//! Where the bytes of a row that is needed spell no row of its table, the answer is 500: a call has a meaning over
//! any rows, also over such as no action writes.
#![tactic(auto)]

mod coherence_laws;
mod laws;
mod limits;
mod row_laws;
mod shop_laws;

pub use coherence_laws::{
    actions_keep_rows_coherent, closing_sells_to_the_greatest_bid, low_bids_are_exact,
};
pub use laws::{
    calls_run_as_the_site, commits_are_meant, followed_calls_are_made, journals_stay_meant,
    plans_come_to_the_site,
};
pub use limits::{CATEGORY_EDITOR, HOUR, LAST_BID, LAST_FEEDBACK, LAST_NUMBER, PAGE_ITEMS};
pub use row_laws::actions_leave_their_rows;
pub use shop_laws::{
    actions_are_accepted, actions_go_through_their_components, actions_stay_within_their_reach,
    limits_are, only_buying_is_not_repeated, sessions_are_of_users, what_was_done_is_refused,
    who_registers_signs_in, writes_are_rows,
};
