//! What stops an attempt.

ghost use Rattle.std.specs.Prelude.{◌≡◌, MatchResult};
ghost use Rattle.boot_core.specs.declared.refusals.CallRefusal.TheVariants as refusals;
ghost use Rattle.call_attempts.specs.Stops.{StopsStep, refusal_by};

use boot_core::{CallRefusal, Stale};
use crash_base::{ComponentNo, GroupNo, OutOfMemory, Place};

/// Why an attempt cannot go on: a reboot, or a component that fails.
#[derive(Clone, Copy)]
pub enum Stop {
    /// A group that the call entered was rebooted since: the one that it entered first among these.
    Revoked(Stale),
    /// The group of the component that it enters is down, by the Down at this place of the journal.
    Sentinel { group: GroupNo, down: Place },
    /// The component that it enters does not come back, by its fault plan of this number.
    Hung { component: ComponentNo, fault: u16 },
    /// The component that it enters fails, by its fault plan of this number.
    Raised { component: ComponentNo, fault: u16 },
}

/// What stopped a step, where memory did not run out.
pub(crate) fn stop_by(refusal: CallRefusal) -> Result<Stop, OutOfMemory>
    requires { StopsStep refusal }
    ensures { MatchResult result (λ stop. refusal ≡ refusal_by stop) (λ _. refusal ≡ refusals.OutOfMemory) }
{
    match refusal {
        CallRefusal::Revoked(stale) => Ok(Stop::Revoked(stale)),
        CallRefusal::Sentinel { group, down } => Ok(Stop::Sentinel { group, down }),
        CallRefusal::Hung { component, fault } => Ok(Stop::Hung { component, fault }),
        CallRefusal::Raised { component, fault } => Ok(Stop::Raised { component, fault }),
        CallRefusal::OutOfMemory => Err(OutOfMemory),
        CallRefusal::Depth | CallRefusal::Steps | CallRefusal::Reads | CallRefusal::Writes => {
            unreachable!()
        }
    }
}
