//! Laws of writes and reads without a link: what their answers say of the events that each brick was told.

ghost use Rattle.std.specs.Prelude.{◌≡◌, ℕ, List, map, Some, Ok, Err};
ghost use Rattle.crash_base.specs.declared.numbers.BrickNo.{BrickNo};
ghost use Rattle.session_cookie.specs.declared.cookie.Holder.{Holder};
ghost use Rattle.ssm_stub.specs.declared.cause.BrickCause.{BrickCause};
ghost use Rattle.ssm_stub.specs.declared.event.Told.{Told};
ghost use Rattle.ssm_stub.specs.declared.read_call.ReadRefusal.TheVariants.{Lost};
ghost use Rattle.ssm_stub.specs.declared.write_call.WriteRefusal.TheVariants.{Missed};
ghost use Rattle.ssm_stub.specs.Hearing.{AllDiffer, told_to};
ghost use Rattle.ssm_stub.specs.Outcomes.{HaveCausesBy, IsMissedBy, IsReadBy};
ghost use Rattle.ssm_stub.specs.Reads.{ReadState, get_lawful, read_answer, read_machine};
ghost use Rattle.ssm_stub.specs.Runs.{Fits, after};
ghost use Rattle.ssm_stub.specs.Turns.{none_asked};
ghost use Rattle.ssm_stub.specs.Writes.{WriteState, write_answer, write_machine};

/// Where a write was missed, fewer than `least` of its bricks gave a lawful Stored, and each other one has
/// its cause by its own events, in asked order. This refuses a cause that no event told.
pub fn a_missed_write_has_causes()
    ensures { (events : List Told) (bricks : List BrickNo) (s : WriteState) (causes : List BrickCause)
        → s.asks ≡ none_asked bricks → AllDiffer (map (λ brick. brick.0) bricks) → Fits write_machine s events
        → write_answer (after write_machine s events) ≡ Some (Err (Missed causes))
        → IsMissedBy bricks s.least s.nonce s.key (told_to write_machine s events) causes }
{}

/// Where a read was lost, each of its holders has its cause by its own events, in order. It refuses a holder with no
/// cause, and a cause that its events do not tell.
pub fn a_lost_read_has_causes()
    ensures { (events : List Told) (holders : List Holder) (s : ReadState) (causes : List BrickCause)
        → s.asks ≡ none_asked holders → AllDiffer (map (λ holder. holder.brick.0) holders) → Fits read_machine s events
        → read_answer (after read_machine s events) ≡ Some (Err (Lost causes))
        → HaveCausesBy (get_lawful s.nonce s.key s.version s.expiry) (told_to read_machine s events) holders causes }
{}

/// A value that a read gave came in a lawful Found of a holder; each holder before it has its cause by its
/// own events, and those behind it were told nothing. It refuses a value that no holder gave, and a read that asks on
/// after a value.
pub fn a_read_value_was_found()
    ensures { (events : List Told) (holders : List Holder) (s : ReadState) (value : List ℕ)
        → s.asks ≡ none_asked holders → AllDiffer (map (λ holder. holder.brick.0) holders) → Fits read_machine s events
        → read_answer (after read_machine s events) ≡ Some (Ok value)
        → IsReadBy (get_lawful s.nonce s.key s.version s.expiry) (told_to read_machine s events) holders value }
{}
