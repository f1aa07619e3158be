//! The words that the program was started with.

ghost use Rattle.std.specs.Prelude.{◌≡◌};
ghost use Rattle.crash_program.specs.Words.{invocation_of};

use crash_base::{Items, OutOfMemory, WordText};
use std::env;
use std::io::ErrorKind;

/// What the words ask for.
#[derive(Clone, Copy)]
pub enum Invocation {
    Help,
    Version,
    /// A command, or words that spell none.
    Command,
}

/// What the words ask for.
pub fn invocation_of(words: &[WordText]) -> Invocation
    ensures { result ≡ invocation_of words.now }
{
    match words {
        [word] if word.as_slice() == b"--help".as_slice() => Invocation::Help,
        [word] if word.as_slice() == b"--version".as_slice() => Invocation::Version,
        _ => Invocation::Command,
    }
}

/// The words after the program's name. Where one of them is not UTF-8 there are none, which is no command.
pub fn read(rt: &HostRuntime) -> Result<Items<WordText>, OutOfMemory> {
    let mut words = Items::new(rt.alloc());
    match env::args(rt) {
        Ok(all) => {
            for word in all.skip(1) {
                words.push(WordText::copied(rt.alloc(), word.as_bytes())?)?;
            }
        }
        Err(error) if error.kind() == ErrorKind::OutOfMemory => return Err(OutOfMemory),
        Err(_) => {}
    }
    Ok(words)
}
