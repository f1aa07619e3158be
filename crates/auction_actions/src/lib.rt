//! The sixteen actions of the auction, as programs: each sees the call and the answers to its steps, and nothing
//! else.
//!
//! ```text
//! let program = ActionProgram::new(call);          // a CheckedCall: user 3 buys item 7
//! program.next(alloc, &answers)?                   // after no answer: Next::Enter of Web
//! ..                                               // then of Purchases and of Items, by method 1 and 0
//! program.next(alloc, &answers)?                   // Next::Read of the row of item 7
//! ..                                               // out of Items and in again: Next::Put of the sold item
//! program.next(alloc, &answers)?                   // at last Next::Done: 200, "Bought item 7"
//! ```
//!
//! An action is a function over the answers to its reads, as `bid` in `bids`: it takes an answer for each row
//! that it reads, and stops where none is left. Its contract says that it comes just as far as its plan
//! (`HasCome`). `ActionProgram` makes steps of it: by the clause `asks` they are `steps_of` of its call, and by a
//! clause of `ActionProgram::new` the run of these steps, over any rows in the site's deployment, is what the site
//! means by the call. A contract leaves open only whether memory runs out.
//!
//! | Action | Goes through | Reads | Writes |
//! |---|---|---|---|
//! | Home | | none | none |
//! | Register | | 2: the name, the counter of users | 3: the counter, the user, the name |
//! | SignIn | | 2: the name, the user | none |
//! | SignOut | | none | none |
//! | Categories | | the table of categories | none |
//! | AddCategory | | 1: the counter of categories | 2: the counter, the category |
//! | Browse | | 2: the category, its counter; 2 for each of 16 entries or fewer: the entry, the item | none |
//! | Item | | 2: the item, its seller | none |
//! | User | | 1: the user | none |
//! | About | | 1: the user; 2 for each of 16 own items or fewer: the own item, the item | none |
//! | Sell | | 4: the category, the counter of items, the counter of the category, the user | 6: both counters, the item, the entry, the user, the own item |
//! | Bid | Bids | 1: the item | 2: the bid, the item |
//! | Buy | Purchases | 1: the item | 1: the item |
//! | Close | Purchases | 1: the item | 1: the item |
//! | Feedback | Feedback | 2: the item, the user whom it is about | 3: the feedback, that user, the item |
//! | Form | | none | none |
//!
//! Each read and each write takes at most three steps, with the enter and the exit of the table's owner. At most
//! four more lead into Web and what the action goes through, and out again; the last step is `Next::Done`. Each
//! step calls `next` once. Where the plan decides the step, `next` decodes again the rows that were read so far, and
//! after the last read makes the outcome again: at the enter of a table's owner, at the access, and at the steps that
//! leave the home, of which there are three at most. An enter of the home and an exit of another owner decode none. So
//! a run of n reads of rows and m writes decodes at most n (n + 2 m + 2) rows. That of Categories, which lists a table,
//! decodes each of its rows at its last two steps.
#![tactic(auto)]

mod bids;
mod browsing;
mod buying;
mod call;
mod feedback;
mod items;
mod listing;
mod new_categories;
mod offer;
mod own_items;
mod pages;
mod selling;
mod users;

pub use call::ActionProgram;
