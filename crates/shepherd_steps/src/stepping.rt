//! The law of a whole step.

ghost use Rattle.std.specs.Prelude.{◌≡◌, ℕ, List};
ghost use Rattle.outcome_items.specs.declared.item.Item.{Item};
ghost use Rattle.shepherd_steps.specs.Stepping.{AreFunctions, Calling, Givens, Leaves, MakesStep, step, world_of};
ghost use Rattle.shepherd_steps.specs.Taking.{Counts};

use outside::{Clock, Link, Random, Serials};
use request_decisions::decisions_are_one;
use shepherd::ProgramMaker;

/// What the calls of a connection leave that are one step of it is what the function `step` gives: the connection, the
/// boot and its events, the windows, the link, how many numbers were drawn, the bytes that were put out, and the items
/// that were taken.
pub fn steps_are_fixed<P, L: Link, M: ProgramMaker<P>, C: Clock, R: Random, S: Serials>()
    ensures { (g : Givens P L) (maker : M) (words : ℕ → R) (serials : ℕ → S) (drawn : Counts)
        (old new : Calling P L C R S) (bytes : List ℕ) (items : List Item)
        → AreFunctions {C = C} L.makes M.makes C.told R.gives S.looks g maker words serials
        → old.random ≡ words drawn.words → old.serials ≡ serials drawn.serials
        → MakesStep L.makes M.makes C.told R.gives S.looks g maker old new bytes items
        → Leaves words serials new bytes items (step g (world_of old drawn)) }
{
    decisions_are_one();
}
