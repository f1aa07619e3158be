//! The words of the command.

ghost use Rattle.std.specs.Prelude.{◌≡◌, ◌≤◌, IfSome};
ghost use Rattle.serve_command.specs.Words.{number_to, serve_behind, serve_of, serve_with, serve_words};

use crash_base::WordText;
use decimal_digits::plain_number;
use std::marker::Model;

/// The greatest number of a port.
pub const MAX_PORT: u64 = 65_535;

/// The most workers.
pub const MAX_WORKERS: u64 = 64;

/// What the words of `serve` say.
#[derive(Drop)]
pub struct ServeWords<'a> {
    /// The port, from 1 on.
    pub port: u16,
    /// The path of the database.
    pub file: &'a [u8],
    /// The path of the file that has the key of the service.
    pub key_file: &'a [u8],
    /// How many workers serve connections, at least one.
    pub workers: u16,
}

impl<'a> Model for ServeWords<'a> {
    ghost use Rattle.serve_command.specs.Words.{ServeValue};

    ghost Value = { ServeValue };

    ghost view = { λ w. record {
      port = w.port;
      file = w.file.now;
      key_file = w.key_file.now;
      workers = w.workers;
    } };
}

/// The number from 1 to a greatest one that a word writes in decimal, without leading zeros.
fn number_to(most: u64, word: &[u8]) -> Option<u64>
    ensures value { result ≡ number_to most word.now }
    ensures some { IfSome result (λ n. 1 ≤ n) }
    ensures few { IfSome result (λ n. n ≤ most) }
{
    let number = plain_number(word)?;
    if 1 <= number && number <= most {
        Some(number)
    } else {
        None
    }
}

/// What the four words behind `serve` say.
fn serve_of<'a>(
    port: &[u8],
    file: &'a [u8],
    key_file: &'a [u8],
    workers: &[u8],
) -> Option<ServeWords<'a>>
    ensures value { result ≡ serve_of port.now file.now key_file.now workers.now }
    ensures some { IfSome result (λ said. 1 ≤ said.workers) }
    ensures few { IfSome result (λ said. said.workers ≤ MAX_WORKERS) }
{
    let port = number_to(MAX_PORT, port)?;
    let workers = number_to(MAX_WORKERS, workers)?;
    Some(ServeWords {
        port: port as u16,
        file,
        key_file,
        workers: workers as u16,
    })
}

/// What two words say behind a port and a file.
fn serve_behind<'a>(port: &[u8], file: &'a [u8], words: &'a [WordText]) -> Option<ServeWords<'a>>
    ensures value { result ≡ serve_behind port.now file.now words.now }
    ensures some { IfSome result (λ said. 1 ≤ said.workers) }
    ensures few { IfSome result (λ said. said.workers ≤ MAX_WORKERS) }
{
    match words {
        [key_file, workers] => serve_of(port, file, key_file.as_slice(), workers.as_slice()),
        _ => None,
    }
}

/// What the words say behind `serve`.
fn serve_with(words: &[WordText]) -> Option<ServeWords<'_>>
    ensures value { result ≡ serve_with words.now }
    ensures some { IfSome result (λ said. 1 ≤ said.workers) }
    ensures few { IfSome result (λ said. said.workers ≤ MAX_WORKERS) }
{
    match words {
        [port, file, words @ ..] => serve_behind(port.as_slice(), file.as_slice(), words),
        _ => None,
    }
}

/// What words say that spell the command `serve PORT FILE KEYFILE WORKERS`: a port from 1 to 65,535, and 1 to 64
/// workers, each number in decimal without leading zeros. None exactly where they do not spell it.
pub fn serve_words(words: &[WordText]) -> Option<ServeWords<'_>>
    ensures value { result ≡ serve_words words.now }
    ensures some { IfSome result (λ said. 1 ≤ said.workers) }
    ensures few { IfSome result (λ said. said.workers ≤ MAX_WORKERS) }
{
    match words {
        [] => None,
        [name, words @ ..] => {
            if name.as_slice() == b"serve".as_slice() {
                serve_with(words)
            } else {
                None
            }
        }
    }
}
