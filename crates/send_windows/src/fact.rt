//! A brick with its window.

ghost use Rattle.std.specs.Prelude.{◌≡◌, ◌==◌, ◌≤◌};
ghost use Rattle.std.specs.List.{list_any};
ghost use Rattle.send_windows.specs.declared.fact.TheConstants.{LARGEST_WINDOW};
ghost use Rattle.send_windows.specs.Passes.{unheard};
ghost use Rattle.send_windows.specs.Facts.{window_after, is_open, given, spent};

use crate::pass::{Pass, PassMark};
use crash_base::{BrickNo, Items};

/// The window that a brick starts with.
pub const FIRST_WINDOW: u64 = 4;

/// The least window that silence leaves a brick.
pub const LEAST_WINDOW: u64 = 1;

/// The largest window that answers give a brick.
pub const LARGEST_WINDOW: u64 = 64;

/// The most bricks that windows are kept of.
pub const MAX_BRICKS: u16 = 16;

/// A brick, its window, and how many passes to it are in flight: given and not yet spent.
#[derive(Clone, Copy)]
pub struct WindowFact {
    pub brick: BrickNo,
    pub window: u64,
    pub in_flight: u64,
}

/// Bricks with their windows.
pub type WindowList = Items<WindowFact>;

/// The window after a pass with this mark was spent.
fn window_after(window: u64, mark: PassMark) -> u64
    ensures { result ≡ window_after window mark }
{
    match mark {
        PassMark::Unheard => window,
        PassMark::Answered => {
            if window < LARGEST_WINDOW {
                window + 1
            } else {
                LARGEST_WINDOW
            }
        }
        PassMark::Silent => {
            if window / 2 < LEAST_WINDOW {
                LEAST_WINDOW
            } else {
                window / 2
            }
        }
    }
}

/// Whether the window is open: fewer passes are in flight than it.
pub(crate) fn is_open(fact: &WindowFact) -> bool
    ensures { result ≡ is_open fact.now }
{
    fact.in_flight < fact.window
}

/// A pass to the brick, of which nothing is known yet.
pub(crate) fn unheard(brick: BrickNo) -> Pass
    ensures { result ≡ unheard brick }
{
    Pass {
        brick,
        mark: PassMark::Unheard,
    }
}

/// Whether one of these passes is to the brick.
fn is_given(passes: &[Pass], brick: BrickNo) -> bool
    ensures { result ≡ list_any (λ pass. pass.brick.0 == brick.0) passes.now }
{
    passes.iter().any(|pass| pass.brick.0 == brick.0)
}

/// The fact after these passes were given.
pub(crate) fn given(passes: &[Pass], fact: WindowFact) -> WindowFact
    requires { fact.in_flight ≤ LARGEST_WINDOW }
    ensures { result ≡ given passes.now fact }
{
    if is_given(passes, fact.brick) {
        WindowFact {
            brick: fact.brick,
            window: fact.window,
            in_flight: fact.in_flight + 1,
        }
    } else {
        fact
    }
}

/// The fact after the pass was spent.
pub(crate) fn spent(pass: Pass, fact: WindowFact) -> WindowFact
    ensures { result ≡ spent pass fact }
{
    if pass.brick.0 == fact.brick.0 {
        WindowFact {
            brick: fact.brick,
            window: window_after(fact.window, pass.mark),
            in_flight: fact.in_flight.saturating_sub(1),
        }
    } else {
        fact
    }
}
