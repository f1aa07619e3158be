//! Laws of wheels. Each is the contract of a function that does nothing: a caller that needs the law calls the
//! function.

ghost use Rattle.std.specs.Prelude.{◌≡◌, ◌↔◌, ◌+◌, ◌<◌, ◌≤◌, true, false};
ghost use Rattle.crash_base.specs.declared.numbers.Moment.{Moment};
ghost use Rattle.lease_wheel.specs.Leased.{Leased};
ghost use Rattle.lease_wheel.specs.Wheels.{is_due};

/// An item is due at a moment exactly where its lease has been over for more than 60,000 ms then: at 60,000 ms it is
/// not due yet. What is due at a moment is due at each later one. It refuses another grace, and a sweep that takes an
/// item one millisecond early or late.
pub fn items_are_due_when_the_grace_is_over()
    ensures due { (moment : Moment) (d : Leased) → (is_due moment d ≡ true) ↔ (d.expiry.0 + 60000 < moment.0) }
    ensures rests { (moment : Moment) (d : Leased) → (is_due moment d ≡ false) ↔ (moment.0 ≤ d.expiry.0 + 60000) }
    ensures stays { (moment later : Moment) (d : Leased) → is_due moment d ≡ true → moment.0 ≤ later.0 → is_due later d ≡ true }
{}
