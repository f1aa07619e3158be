//! Bricks that are asked, and whose turn it is.

ghost use Rattle.std.specs.Prelude.{◌≡◌, position, IfOk};
ghost use Rattle.std.specs.Option.{option_or};
ghost use Rattle.ssm_stub.specs.Turns.{none_asked, is_unasked, is_asked, is_open, turn_at, turn_after_asks, turn_in_order, with_ear, wanted_of};

use crate::ear::{Ear, Stage};
use crate::event::StubNext;
use crash_base::{BrickNo, OutOfMemory};
use std::alloc::{AllocFailed, Global};

/// One that is asked, a brick or a holder, and what was heard of it.
#[derive(Drop)]
pub struct Ask<W, A> {
    pub who: W,
    pub ear: Ear<A>,
}

/// Whose turn it is: the place in asked order, who stands there, and how far it was heard.
#[derive(Clone, Copy)]
pub struct Turn<W> {
    pub at: usize,
    pub who: W,
    pub stage: Stage,
}

/// These, in order, of which none was asked.
pub(crate) fn none_asked<W: Copy, A: Drop>(
    alloc: Global,
    whos: &[W],
) -> Result<Vec<Ask<W, A>>, OutOfMemory>
    ensures { IfOk result (λ asks. asks.items ≡ none_asked whos.now) }
{
    let mut asks = Vec::with_capacity(alloc, whos.len())?;
    for who in whos {
        asks.push(Ask {
            who: *who,
            ear: Ear::Open(Stage::Unasked),
        })?;
    }
    Ok(asks)
}

fn is_unasked<W, A>(ask: &Ask<W, A>) -> bool
    ensures { result ≡ is_unasked ask.now }
{
    match ask.ear {
        Ear::Open(Stage::Unasked) => true,
        _ => false,
    }
}

fn is_asked<W, A>(ask: &Ask<W, A>) -> bool
    ensures { result ≡ is_asked ask.now }
{
    match ask.ear {
        Ear::Open(Stage::Asked(_)) => true,
        _ => false,
    }
}

fn is_open<W, A>(ask: &Ask<W, A>) -> bool
    ensures { result ≡ is_open ask.now }
{
    match ask.ear {
        Ear::Open(_) => true,
        Ear::Heard(_) => false,
    }
}

/// The place of the first that was not asked.
fn first_unasked<W, A>(asks: &[Ask<W, A>]) -> Option<usize>
    ensures { result ≡ position is_unasked asks.now }
{
    asks.iter().position(|ask| is_unasked(ask))
}

/// The place of the first that was asked and has no outcome.
fn first_asked<W, A>(asks: &[Ask<W, A>]) -> Option<usize>
    ensures { result ≡ position is_asked asks.now }
{
    asks.iter().position(|ask| is_asked(ask))
}

/// The place of the first without an outcome.
fn first_open<W, A>(asks: &[Ask<W, A>]) -> Option<usize>
    ensures { result ≡ position is_open asks.now }
{
    asks.iter().position(|ask| is_open(ask))
}

/// The turn of the one at a place, where it has no outcome.
fn turn_at<W: Copy, A>(asks: &[Ask<W, A>], at: usize) -> Option<Turn<W>>
    ensures { result ≡ turn_at asks.now at }
{
    let ask = asks.get(at)?;
    match ask.ear {
        Ear::Open(stage) => Some(Turn {
            at,
            who: ask.who,
            stage,
        }),
        Ear::Heard(_) => None,
    }
}

/// The place of the first that was not asked, else of the first that was asked and has no outcome.
fn place_after_asks<W, A>(asks: &[Ask<W, A>]) -> Option<usize>
    ensures { result ≡ option_or (position is_unasked asks.now) (position is_asked asks.now) }
{
    first_unasked(asks).or(first_asked(asks))
}

/// The turn where all are asked first: of the first that was not asked, and then of the first without
/// an outcome.
pub(crate) fn turn_after_asks<W: Copy, A>(asks: &[Ask<W, A>]) -> Option<Turn<W>>
    ensures { result ≡ turn_after_asks asks.now }
{
    match place_after_asks(asks) {
        Some(at) => turn_at(asks, at),
        None => None,
    }
}

/// The turn where one is asked after another: of the first without an outcome.
pub(crate) fn turn_in_order<W: Copy, A>(asks: &[Ask<W, A>]) -> Option<Turn<W>>
    ensures { result ≡ turn_in_order asks.now }
{
    match first_open(asks) {
        Some(at) => turn_at(asks, at),
        None => None,
    }
}

/// Puts what is heard of the one at a place.
pub(crate) fn put_ear<W, A: Drop>(asks: &mut Vec<Ask<W, A>>, at: usize, ear: Ear<A>)
    ensures { asks.new.items ≡ with_ear asks.old.items at ear }
{
    if at < asks.len() {
        asks[at].ear = ear;
    }
}

/// What is wanted of a brick.
pub(crate) fn wanted_of(brick: BrickNo, stage: Stage) -> StubNext
    ensures { result ≡ wanted_of brick stage }
{
    match stage {
        Stage::Unasked => StubNext::Send { brick },
        Stage::Asked(_) => StubNext::Receive { brick },
    }
}
