//! The draws of an order.

ghost use Rattle.std.specs.Prelude.{◌≡◌, [], ◌+◌, ◌≤◌, true, length, vec_capacity, vec_len, IfErr, IfOk, MatchOption};
ghost use Rattle.outside.specs.declared.serials.TheConstants.{SERIALS_END};
ghost use Rattle.request_decisions.specs.Drawing.{Draws, DrawsOne, HasDrawn, IsSpent};
ghost use Rattle.request_decisions.specs.Draws.{is_serial, kinds_of};
ghost use Rattle.request_decisions.specs.declared.drawing.DrawRefusal.TheVariants as refusal;

use crate::decision::Order;
use crate::draws::{Draw, DrawKind, DrawnList, draws_for};
use crash_base::OutOfMemory;
use outside::{Random, Serials, Spent};
use std::alloc::Global;

/// Why not all was drawn that an order draws.
#[derive(Drop)]
pub enum DrawRefusal {
    /// A serial number is spent: this one was looked at. What was drawn before stays drawn.
    Spent { seen: u64, drawn: DrawnList },
    /// There was no memory, and nothing was drawn.
    OutOfMemory,
}

/// Draws a serial number, or a random word.
fn draw_one<S: Serials, R: Random>(
    kind: DrawKind,
    serials: &mut S,
    random: &mut R,
) -> Result<u64, Spent>
    ensures drawn { IfOk result (λ number.
        DrawsOne S.looks R.gives (is_serial kind) serials.old random.old number serials.new random.new) }
    ensures serial { IfErr result (λ spent. is_serial kind ≡ true) }
    ensures spent { IfErr result (λ spent. (SERIALS_END ≤ spent.seen)
        × S.looks serials.old spent.seen None serials.new × (random.new ≡ random.old)) }
{
    if kind.is_serial() {
        serials.draw()
    } else {
        Ok(random.word())
    }
}

/// Draws these, in order, into room that is there. Where a serial number is spent, it answers the one that was looked
/// at.
fn draw_into<S: Serials, R: Random>(
    kinds: &[DrawKind],
    drawn: &mut Vec<Draw>,
    serials: &mut S,
    random: &mut R,
) -> Option<u64>
    requires empty { drawn.old.items ≡ [] }
    requires room { vec_len drawn.old + length kinds.now ≤ vec_capacity drawn.old }
    ensures { MatchOption result
        ((kinds_of drawn.new.items ≡ kinds.now)
        × HasDrawn S.looks R.gives serials.old random.old drawn.new.items serials.new random.new)
        (λ seen. IsSpent S.looks R.gives kinds.now serials.old random.old drawn.new.items seen serials.new random.new) }
{
    let mut rest = kinds;
    while let [first, after @ ..] = rest {
        let kind = *first;
        match draw_one(kind, serials, random) {
            Ok(number) => drawn.push_reserved(Draw { kind, number }),
            Err(spent) => return Some(spent.seen),
        }
        rest = after;
    }
    None
}

/// Room for so many draws.
fn room_for(alloc: Global, draws: usize) -> Result<Vec<Draw>, OutOfMemory>
    ensures empty { IfOk result (λ room. room.items ≡ []) }
    ensures room { IfOk result (λ room. vec_len room + draws ≤ vec_capacity room) }
{
    let room = Vec::with_capacity(alloc, draws)?;
    Ok(room)
}

/// Draws what an order draws, in its order. Room is taken first: so want of memory comes before anything was drawn.
///
/// # Errors
/// `Spent` where a serial number was looked at that is 2^62 or more: nothing is drawn behind it, and what was drawn by
/// then is handed out. `OutOfMemory` where there was no room.
pub fn draw_for<S: Serials, R: Random>(
    alloc: Global,
    order: &Order,
    serials: &mut S,
    random: &mut R,
) -> Result<DrawnList, DrawRefusal>
    ensures { Draws S.looks R.gives order.now serials.old random.old result serials.new random.new }
{
    let Ok(kinds) = draws_for(alloc, order) else {
        return Err(DrawRefusal::OutOfMemory);
    };
    let kinds = kinds.as_slice();
    let Ok(mut drawn) = room_for(alloc, kinds.len()) else {
        return Err(DrawRefusal::OutOfMemory);
    };
    match draw_into(kinds, &mut drawn, serials, random) {
        None => Ok(DrawnList::from_vec(drawn)),
        Some(seen) => Err(DrawRefusal::Spent {
            seen,
            drawn: DrawnList::from_vec(drawn),
        }),
    }
}
