//! Laws of forms: what the site shows is what it reads.
//!
//! A form is shown by an action of the auction, sent to a path of the site, and read by the fields of another action.
//! Each of these is a table in a crate of its own. `forms_show_what_they_are_read_by` says that a form has just the
//! fields that its action reads, in their order; `forms_are_sent_to_their_actions` that it is sent where its action is;
//! and `fields_have_one_name` that a field has one name in what a form says and in what a call has.
#![tactic(auto)]

mod laws;

pub use laws::{
    fields_have_one_name, forms_are_sent_to_their_actions, forms_show_what_they_are_read_by,
};
