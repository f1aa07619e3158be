//! Laws of how a request is taken off the bytes of a connection.

ghost use Rattle.std.specs.Prelude.{◌≡◌, ℕ, ◌+◌, ◌%◌, ◌^◌, List};
ghost use Rattle.crash_base.specs.declared.numbers.Moment.{Moment};
ghost use Rattle.http_wire.specs.Taking.{taken_of};
ghost use Rattle.http_wire.specs.declared.taken.Head.{Head};
ghost use Rattle.http_wire.specs.declared.taken.Taken.TheVariants.{Request};
ghost use Rattle.outside.specs.declared.link.LinkCounts.{LinkCounts};
ghost use Rattle.outside.specs.Random.{PlainGives};
ghost use Rattle.outside.specs.Serials.{PlainLooks};
ghost use Rattle.request_decisions.specs.Decisions.{IsDecided};
ghost use Rattle.shepherd.specs.Steps.{TakesRequest};
ghost use Rattle.shepherd.specs.declared.shepherd.Shepherd.{Shepherd};
ghost use Rattle.shepherd_steps.specs.Deciding.{ReadRightly, Readings, decided_by};
ghost use Rattle.shepherd_steps.specs.Taking.{AreInTurn, Counts, Service, take_request};

use outside::{Clock, Random, Serials};
use request_decisions::decisions_are_one;

/// What becomes of a connection that takes what its bytes begin with, and how many random words and serial numbers are
/// drawn, is a function of the connection, of what the clock tells where one begins, and of the numbers that are to
/// come.
pub fn taken_requests_are_fixed<P, C: Clock, R: Random, S: Serials>()
    ensures { (service : Service) (words : ℕ → R) (serials : ℕ → S) (seen : LinkCounts) (now : Moment)
        (counts : Counts) (s new : Shepherd P) (clock clock_after : C) (word_after : R) (serial_after : S)
        → ((head : Head) → IsDecided service.key service.home.boot head (service.decides head))
        → AreInTurn R.gives S.looks words serials service.numbers
        → ((head : Head) → taken_of s.received ≡ Request head → C.told clock_after ≡ now.0)
        → TakesRequest C.told R.gives S.looks service.key service.home seen s clock (words counts.words)
        (serials counts.serials) new clock_after word_after serial_after
        → (let after = take_request service seen now s counts in
        (new ≡ after.0) × (word_after ≡ words after.1.words) × (serial_after ≡ serials after.1.serials)) }
{
    decisions_are_one();
}

/// What is decided of a request is what the function `decided_by` gives, where each text of a cookie and of a token is
/// read as what it is the text of.
pub fn requests_are_decided_as_read()
    ensures { (key : List ℕ) (readings : Readings) (boot : ℕ) (head : Head) → ReadRightly key readings
        → IsDecided key boot head (decided_by readings boot head) }
{}

/// Random words and serial numbers that are counted, from two numbers on, come in turn.
pub fn counted_numbers_come_in_turn()
    ensures { (word serial : ℕ) → AreInTurn PlainGives PlainLooks (λ n. (word + n) % (2 ^ 64)) (λ n. serial + n)
        (record { words = λ n. (word + n) % (2 ^ 64); serials = λ n. serial + n }) }
{}
