//! What the clauses of a turn lock come to, in the words of events and of the places where they stand.
//!
//! `holds_add_at_new_places` says that the places which a `give` tells have just the events that were added, in order.
//! By `places_rise` the places of a seat rise from hold to hold and lie within what it has seen: so each event that it
//! added stands in the history once, in the order in which it added it.
#![tactic(auto)]

mod laws;

pub use laws::{holds_add_at_new_places, places_rise};
