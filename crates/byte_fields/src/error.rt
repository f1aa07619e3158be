//! Why nothing was read.

ghost use Rattle.std.specs.Prelude.{◌≡◌, Option, IfOk};
ghost use Rattle.byte_fields.specs.Answers.{Answers};
ghost use Rattle.byte_fields.specs.declared.error.ReadError.TheVariants.{Bad, OutOfMemory};

/// The bytes do not begin with the field.
#[derive(Clone, Copy)]
pub struct NoField;

/// Why no value was read of all its fields.
#[derive(Clone, Copy)]
pub enum ReadError {
    /// No value has these bytes.
    Bad,
    /// There was no memory for the value.
    OutOfMemory,
}

impl From<NoField> for ReadError {
    ghost from_gives = { λ _ error. error ≡ Bad };

    fn from(_error: NoField) -> ReadError {
        ReadError::Bad
    }
}

impl From<crash_base::OutOfMemory> for ReadError {
    ghost from_gives = { λ _ error. error ≡ OutOfMemory };

    fn from(_error: crash_base::OutOfMemory) -> ReadError {
        ReadError::OutOfMemory
    }
}

/// The value that was read, or None where no value has these bytes.
///
/// # Errors
/// `OutOfMemory` where memory ran out while it was read.
pub fn found<T: Drop>(answer: Result<T, ReadError>) -> Result<Option<T>, crash_base::OutOfMemory>
    ensures { (read : Option T) → Answers (λ value. value) answer read
        → IfOk result (λ found. found ≡ read) }
{
    match answer {
        Ok(value) => Ok(Some(value)),
        Err(ReadError::Bad) => Ok(None),
        Err(ReadError::OutOfMemory) => Err(crash_base::OutOfMemory),
    }
}
