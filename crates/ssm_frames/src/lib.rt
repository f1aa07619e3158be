//! Frames, which calls and bricks send to each other, and the bytes that spell them.
//!
//! A brick keeps values of sessions in memory. A crash throws all of them away, and then its
//! incarnation, a number, is one greater. A call sends a request to some bricks and takes their replies,
//! and its nonce, which all of these carry, tells them from those of other calls.
//!
//! ```text
//! let bytes = encode(alloc, &frame)?;
//! decode(alloc, bytes.as_slice())?    // that frame again
//! decode(alloc, &[2, 0])?             // None: no frame is spelled so
//! ```
//!
//! A frame is spelled by a first byte, which says what it is, and then its fields in the order in which
//! `Frame` has them: big-endian numbers, the 16 bytes of a key as they are, and a value as its length in
//! 2 bytes and its bytes. Nothing follows the last field. A Put, a Get and a Sweep, which are requests,
//! begin with 01, 02 and 03; Stored, Found, Absent, BrickFull and Swept, in hexadecimal, with 81 to 85.
//!
//! `encode_of` says what spells a frame, and `decode_of` what bytes are decoded to; the two calls answer
//! them, unless memory runs out. The laws tie them: bytes are decoded to exactly the frame that they
//! spell (`frames_are_exact`, `frames_decode_back`), no spelling is a proper prefix of another
//! (`no_frame_begins_another`), and none has more than 4,161 bytes (`frames_are_short`).
//!
//! Both calls go over the bytes once, from the first to the last, and copy a value once.
#![tactic(auto)]

mod fields;
mod frame;
mod laws;
mod ranges;
mod reading;
mod writing;

pub use frame::{Frame, SWEEP_GRACE, is_request};
pub use laws::{frames_are_exact, frames_are_short, frames_decode_back, no_frame_begins_another};
pub use ranges::frame_is_in_range;
pub use reading::decode;
pub use writing::encode;
