//! The list type with a bound.

ghost use Rattle.std.specs.Prelude.{◌≡◌, ◌≤◌, length};

use std::marker::Model;

/// A list of at most `MAX` items, which contracts see as the list of its items.
#[derive(Drop)]
pub struct BoundedItems<T, const MAX: usize> {
    items: Vec<T>,
}

impl<T, const MAX: usize> Model for BoundedItems<T, MAX> {
    ghost use Rattle.std.specs.Prelude.{◌≤◌, List, length};

    ghost Value = { List T };

    ghost view = { λ a. a.items.items };

    ghost invariant = { λ a. length a.items.items ≤ MAX };
}

/// The most bytes of a session's value.
pub const MAX_SESSION_BYTES: usize = 4096;

/// The value of a session.
pub type SessionBytes = BoundedItems<u8, MAX_SESSION_BYTES>;

impl<T, const MAX: usize> BoundedItems<T, MAX> {
    /// The list of a vector's items, which are not moved.
    pub fn from_vec(items: Vec<T>) -> BoundedItems<T, MAX>
        requires { length items.items ≤ MAX }
        ensures { result ≡ items.items }
    {
        BoundedItems { items }
    }

    /// The vector of the items, which are not moved.
    pub fn into_vec(self) -> Vec<T>
        ensures value { result.items ≡ self }
        ensures few { length self ≤ MAX }
    {
        self.items
    }

    /// The items, in order.
    pub fn as_slice(&self) -> &[T]
        ensures value { result.now ≡ self.now }
        ensures few { length self.now ≤ MAX }
    {
        self.items.as_slice()
    }
}
