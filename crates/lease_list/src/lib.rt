//! A doubly linked list whose nodes are named, so that any of them is taken out without a search.
//!
//! ```text
//! let mut list = LeaseList::new(alloc);
//! let first = list.push_back(1)?;      // the name of a node at the end; Err(1) where there is no memory
//! let second = list.push_back(2)?;
//! list.value(&second);                 // 2
//! list.unlink(second);                 // 2: its node is out, and the others stand as before
//! list.pop_front();                    // Some(1)
//! ```
//!
//! Contracts see a list as its nodes, from the first to the last, each with a number, the pointer to it and its value
//! (`LeaseListValue` of `specs/Leases`). A list numbers its nodes in the order of their pushes and has no number twice,
//! so a name is of one node alone. Numbers are seen by contracts only, so there is no last one. Who asks for a node by
//! name shows that it stands in the list.
//!
//! A node has raw pointers to the two beside it. `src/links` has the five functions that touch them, each proved by
//! hand; the list is safe code over these: a pop unlinks the first node, and a drop pops until none is left, so it goes
//! no deeper for a longer list.
//!
//! A push takes memory for one node, and nothing else takes any. Each call visits at most three nodes, and a drop each
//! node once. A list, and a name, may be sent to another thread where its values may.
#![tactic(auto)]

mod laws;
mod links;
mod list;
#[cfg(test)]
mod tests;

pub use laws::names_stand_until_they_leave;
pub use links::Node;
pub use list::LeaseList;
