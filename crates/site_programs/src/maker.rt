//! What makes the programs of the site.

use auction_actions::ActionProgram;
use auction_calls::{CheckedCall, action_text};
use crash_base::{ActionText, OutOfMemory};
use shepherd::ProgramMaker;
use std::alloc::Global;

/// Makes of a call the text that spells it, and the program of its steps.
#[derive(Clone, Copy)]
pub struct SiteMaker;

impl ProgramMaker<ActionProgram> for SiteMaker {
    ghost use Rattle.site_programs.specs.Errands.{IsMadeOf};

    /// The text spells the call, and the program is that of the call.
    ghost makes = { λ maker. IsMadeOf };

    /// The text of a call and its program. It visits each byte of the texts of the call's action once.
    fn make(
        &self,
        alloc: Global,
        call: CheckedCall,
    ) -> Result<(ActionText, ActionProgram), OutOfMemory> {
        let text = action_text(alloc, &call)?;
        Ok((text, ActionProgram::new(call)))
    }
}
