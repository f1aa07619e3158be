//! What the rule of the words' table knows of each seat. No value of a view is made.

ghost use Rattle.std.specs.Prelude.{ℕ, [], false};
ghost use Rattle.shared_words.specs.Rule.{Kept};

use atomic_table::TableRule;
use std::collections::LinkedList;

/// A generation that a group had when it was seen, or was raised to.
#[derive(Clone, Copy)]
pub struct Sight {
    pub group: u16,
    pub generation: u64,
}

/// What a seat knows.
pub struct View {
    /// How many of the words' parts it has.
    pub parts: u64,
    /// Whether it is between its look at the serial word and its draw.
    pub flying: bool,
    /// The numbers that it drew.
    pub drawn: LinkedList<u64>,
    /// The greatest serial word that it saw.
    pub seen: u64,
    /// The generations that it saw or raised.
    pub sights: LinkedList<Sight>,
}

/// What words are made with.
#[derive(Drop)]
pub struct About {
    pub groups: u16,
    pub parts: u32,
}

/// The rule.
pub struct WordRule;

impl TableRule<(), View, About> for WordRule {
    ghost holds = { λ about s. Kept about.groups about.parts s };

    ghost first = { λ about. record { parts = about.parts; flying = false; drawn = []; seen = 0; sights = [] } };
}
