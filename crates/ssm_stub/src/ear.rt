//! What is heard of one brick.

ghost use Rattle.std.specs.Prelude.{◌≡◌};
ghost use Rattle.ssm_stub.specs.Ears.{after_sent, after_frame};

/// So many frames that are no lawful reply end the hearing of a brick.
pub const MAX_STRAYS: u8 = 64;

/// How far a brick was heard that has no outcome yet.
#[derive(Clone, Copy)]
pub enum Stage {
    /// It was not asked.
    Unasked,
    /// It was asked, and so many strays came since: frames that are no lawful reply.
    Asked(u8),
}

/// What came of asking a brick.
#[derive(Drop)]
pub enum Outcome<A> {
    /// This lawful reply.
    Answered(A),
    /// The brick was silent.
    Silent,
    /// `MAX_STRAYS` strays.
    Strayed,
}

/// What was heard of a brick.
#[derive(Drop)]
pub enum Ear<A> {
    /// No outcome yet.
    Open(Stage),
    /// Its outcome.
    Heard(Outcome<A>),
}

/// What is heard of a brick after the ask was sent.
pub(crate) fn after_sent<A: Drop>(stage: Stage) -> Ear<A>
    ensures { result ≡ after_sent stage }
{
    match stage {
        Stage::Unasked => Ear::Open(Stage::Asked(0)),
        Stage::Asked(strays) => Ear::Open(Stage::Asked(strays)),
    }
}

/// What is heard of a brick after a frame came, which is this lawful reply or none.
pub(crate) fn after_frame<A: Drop>(stage: Stage, reply: Option<A>) -> Ear<A>
    ensures { result ≡ after_frame stage reply }
{
    match (stage, reply) {
        (Stage::Unasked, _) => Ear::Open(Stage::Unasked),
        (Stage::Asked(_), Some(reply)) => Ear::Heard(Outcome::Answered(reply)),
        (Stage::Asked(strays), None) => {
            if strays < MAX_STRAYS - 1 {
                Ear::Open(Stage::Asked(strays + 1))
            } else {
                Ear::Heard(Outcome::Strayed)
            }
        }
    }
}
