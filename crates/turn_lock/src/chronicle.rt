//! Values with a history.

ghost use Rattle.std.specs.Prelude.{List};

/// A value that has a history, which contracts see as a list of events.
pub trait Chronicle {
    type Event;

    /// The events of a value, in order.
    ghost events: { Self → List Self.Event };
}
