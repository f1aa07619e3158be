//! Why no action was read.

ghost use Rattle.std.specs.Prelude.{◌≡◌};
ghost use Rattle.action_fields.specs.declared.error.FieldError.TheVariants.{OutOfMemory};

use crate::form_field::FormField;

/// Why no action was read.
#[derive(Clone, Copy)]
pub enum FieldError {
    /// This field is the first that the form does not say as it must.
    Bad(FormField),
    /// The allocator had no memory.
    OutOfMemory,
}

impl From<crash_base::OutOfMemory> for FieldError {
    ghost from_gives = { λ _ error. error ≡ OutOfMemory };

    fn from(_error: crash_base::OutOfMemory) -> FieldError {
        FieldError::OutOfMemory
    }
}
