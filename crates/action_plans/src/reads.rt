//! The answers to an action's reads.

ghost use Rattle.std.specs.Prelude.{◌≡◌, [], ◌∷◌, MatchOption};
ghost use Rattle.action_plans.specs.Steps.{reads_in, is_read};

use call_ticket::Answer;
use std::marker::Model;

/// The answers to reads and lists that an action has not taken yet.
#[derive(Drop)]
pub struct Reads<'a> {
    answers: &'a [Answer],
}

impl<'a> Model for Reads<'a> {
    ghost use Rattle.std.specs.Prelude.{List};
    ghost use Rattle.action_plans.specs.Steps.{reads_in};
    ghost use Rattle.call_ticket.specs.declared.next.Answer.{Answer};

    ghost Value = { List Answer };

    ghost view = { λ r. reads_in r.answers.now };
}

/// Whether an answer is one to a read or a list.
fn is_read(answer: &Answer) -> bool
    ensures { result ≡ is_read answer.now }
{
    match answer {
        Answer::Row(_) | Answer::Rows(_) => true,
        Answer::Entered | Answer::Kept | Answer::Left => false,
    }
}

/// The first answer to a read or a list, and all behind it.
#[tactic(auto, unfolding(crate::specs::Steps::reads_in))]
fn first_read(answers: &[Answer]) -> Option<(&Answer, &[Answer])>
    ensures { MatchOption result (reads_in answers.now ≡ [])
        (λ found. reads_in answers.now ≡ found.0.now ∷ reads_in found.1.now) }
{
    let mut rest = answers;
    while let [first, after @ ..] = rest {
        if is_read(first) {
            return Some((first, after));
        }
        rest = after;
    }
    None
}

impl<'a> Reads<'a> {
    /// The answers to reads and lists among these.
    pub fn new(answers: &'a [Answer]) -> Reads<'a>
        ensures { result ≡ reads_in answers.now }
    {
        Reads { answers }
    }

    /// Takes the next answer. None exactly where none is left. It visits each other answer before it.
    pub fn take(&mut self) -> Option<&'a Answer>
        ensures { MatchOption result ((self.old ≡ []) × (self.new ≡ []))
            (λ answer. self.old ≡ answer.now ∷ self.new) }
    {
        match first_read(self.answers) {
            None => None,
            Some((first, after)) => {
                self.answers = after;
                Some(first)
            }
        }
    }
}
