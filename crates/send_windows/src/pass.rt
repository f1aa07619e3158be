//! Leave to send one thing to a brick.

ghost use Rattle.std.specs.Prelude.{◌≡◌};
ghost use Rattle.send_windows.specs.Passes.{hushed};

use crash_base::BrickNo;

/// What became of what was sent by a pass.
#[derive(Clone, Copy)]
pub enum PassMark {
    /// Nothing is known yet.
    Unheard,
    /// The brick answered.
    Answered,
    /// The brick was silent.
    Silent,
}

/// Leave to send one thing to a brick, and what became of it.
#[derive(Clone, Copy)]
pub struct Pass {
    pub brick: BrickNo,
    pub mark: PassMark,
}

/// The pass, marked Silent where it was unheard.
pub(crate) fn hushed(pass: Pass) -> Pass
    ensures { result ≡ hushed pass }
{
    match pass.mark {
        PassMark::Unheard => Pass {
            brick: pass.brick,
            mark: PassMark::Silent,
        },
        PassMark::Answered | PassMark::Silent => pass,
    }
}
