//! A brick, which keeps values of sessions in memory and answers frames.
//!
//! A brick keeps each value under a key and a version, until it is swept long after the value's
//! expiry, or until it crashes:
//!
//! ```text
//! let mut brick = Brick::new(alloc, BrickNo(1), 7);
//! brick.answer(alloc, &put)?;       // Stored, or BrickFull
//! brick.answer(alloc, &get)?;       // Found
//! brick.sweep(moment);              // values that expired more than 60,000 ms before go
//! brick.crash();                    // all values go, and it is of incarnation 8
//! brick.answer(alloc, &get)?;       // Absent
//! ```
//!
//! The values stand in one ordered map, beside the sum of their bytes, and their leases on a wheel, which gives out
//! what a sweep takes. A Put and a Get visit about log n of n values, and a sweep those that it removes. A Put takes
//! its memory first, so that where there is none the brick is as it was.
//!
//! A brick keeps no history of what happened to it, but it stands for one: `bricks_stand_for_their_history` says that
//! it goes on doing so, `bricks_keep_all_held` that what it keeps is a function of that history, and
//! `replies_are_held` that so is what it answers.
#![tactic(auto)]

mod brick;
mod event;
mod kept;
mod kept_map;
mod laws;

pub use brick::Brick;
pub use event::BrickEvent;
pub use kept::{Kept, MAX_BRICK_BYTES, MAX_BRICK_VALUES};
pub use laws::{
    bricks_keep_all_held, bricks_stand_for_their_history, held_values_are_found,
    held_values_are_under_their_pair, histories_say_what_came, late_values_go, limits_fill_bricks,
    replies_are_held,
};
