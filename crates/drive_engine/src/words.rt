//! The words of a command.

ghost use Rattle.std.specs.Prelude.{◌≡◌, ◌≤◌, IfSome};
ghost use Rattle.drive_engine.specs.Words.{command_named, turn_count, workload_of, longer_command, command_of, HasFewTurns};

use crash_base::WordText;
use scenario_text::decimal_number;
use workload::MAX_TURNS;

/// How the program is called. `serve` is the command of `serve_command`, and spells none of these.
pub const USAGE: &str =
    "usage: crash drive | groups | workload NUMBER COUNT | serve PORT FILE KEYFILE WORKERS\n";

/// What words ask for.
#[derive(Clone, Copy)]
pub enum Command {
    /// A scenario is run, and its transcript is written.
    Drive,
    /// A descriptor text is read, and the group of each component is written.
    Groups,
    /// The workload of this number is run for so many turns, and its summary is written.
    Workload { number: u64, count: u64 },
}

/// The command of one word.
fn command_named(word: &[u8]) -> Option<Command>
    ensures value { result ≡ command_named word.now }
    ensures turns { IfSome result HasFewTurns }
{
    if word == b"drive".as_slice() {
        Some(Command::Drive)
    } else if word == b"groups".as_slice() {
        Some(Command::Groups)
    } else {
        None
    }
}

/// How many turns a word says.
fn turn_count(word: &[u8]) -> Option<u64>
    ensures value { result ≡ turn_count word.now }
    ensures few { IfSome result (λ count. count ≤ MAX_TURNS) }
{
    let count = decimal_number(word)?;
    if count <= MAX_TURNS {
        Some(count)
    } else {
        None
    }
}

/// The workload of a number and so many turns.
fn workload_of(number: &[u8], count: &[u8]) -> Option<Command>
    ensures value { result ≡ workload_of number.now count.now }
    ensures turns { IfSome result HasFewTurns }
{
    let number = decimal_number(number)?;
    let count = turn_count(count)?;
    Some(Command::Workload { number, count })
}

/// The command of a word with these behind it.
fn longer_command(word: &[u8], words: &[WordText]) -> Option<Command>
    ensures value { result ≡ longer_command word.now words.now }
    ensures turns { IfSome result HasFewTurns }
{
    if word != b"workload".as_slice() {
        return None;
    }
    match words {
        [number, count] => workload_of(number.as_slice(), count.as_slice()),
        _ => None,
    }
}

/// The command that words spell. None exactly where they spell none.
pub(crate) fn command_of(words: &[WordText]) -> Option<Command>
    ensures value { result ≡ command_of words.now }
    ensures turns { IfSome result HasFewTurns }
{
    match words {
        [] => None,
        [word] => command_named(word.as_slice()),
        [word, words @ ..] => longer_command(word.as_slice(), words),
    }
}
