//! What came of the turns.

ghost use Rattle.std.specs.Prelude.{◌≡◌, ◌<◌, ◌^◌};
ghost use Rattle.workload.specs.Tally.{answers, counted, counted_if, nothing_counted};

/// How a call ended that was answered so.
#[derive(Clone, Copy)]
pub enum Outcome {
    /// It committed.
    Committed,
    /// It was revoked: a group that it entered was rebooted since.
    Revoked,
    /// Its commit met a conflict.
    Conflict,
    /// It was refused for another cause.
    Refused,
}

/// How many calls ended in each way.
#[derive(Clone, Copy)]
pub struct Tally {
    /// Those that committed.
    pub commits: u64,
    /// Those that were revoked.
    pub revoked: u64,
    /// Those whose commit met a conflict.
    pub conflicts: u64,
    /// Those that were refused for another cause.
    pub refused: u64,
}

impl Tally {
    /// No call has ended.
    pub(crate) fn new() -> Tally
        ensures { result ≡ nothing_counted }
    {
        Tally {
            commits: 0,
            revoked: 0,
            conflicts: 0,
            refused: 0,
        }
    }

    /// Counts a call that ended so.
    pub(crate) fn count(&mut self, outcome: Outcome)
        requires { answers self.old < 2 ^ 63 }
        ensures { self.new ≡ counted outcome self.old }
    {
        match outcome {
            Outcome::Committed => self.commits += 1,
            Outcome::Revoked => self.revoked += 1,
            Outcome::Conflict => self.conflicts += 1,
            Outcome::Refused => self.refused += 1,
        }
    }
    /// Counts a call that ended so, if one did.
    pub(crate) fn count_if(&mut self, outcome: Option<Outcome>)
        requires { answers self.old < 2 ^ 63 }
        ensures { self.new ≡ counted_if outcome self.old }
    {
        if let Some(outcome) = outcome {
            self.count(outcome);
        }
    }
}
