//! A sink that keeps the line back with which a server ends, so that the reason can be written before it.

ghost use Rattle.std.specs.Prelude.{◌≡◌, ◌≤◌, [], true, false, if◌then◌else◌, drop, length, OnErr, OnOk};
ghost use Rattle.outside.specs.Faults.{Rose};
ghost use Rattle.outside.specs.Sink.{appended, AppendsOrFails};
ghost use Rattle.serve_command.specs.LastLine.{ending, is_bad_row, is_last_line};

use crate::ending::write_both;
use crash_base::Items;
use outside::{Failed, Sink};
use std::alloc::Global;
use std::marker::Model;

/// Whether a line is that of a bad row.
fn is_bad_row(line: &[u8]) -> bool
    ensures { result ≡ is_bad_row line.now }
{
    line.len() >= 8 && &line[..8] == b"bad row ".as_slice()
}

/// Whether a line is one of those with which a server ends.
fn is_last_line(line: &[u8]) -> bool
    ensures { result ≡ is_last_line line.now }
{
    line == b"keeper failed\n".as_slice()
        || line == b"boots spent\n".as_slice()
        || line == b"out of memory\n".as_slice()
        || is_bad_row(line)
}

/// The reason, if this is a line with which a server ends, and else nothing.
fn reason_before<'a>(reason: &'a [u8], line: &[u8]) -> &'a [u8]
    ensures { result.now ≡ (if is_last_line line.now then reason.now else []) }
{
    if is_last_line(line) { reason } else { &[] }
}

/// Writes what is left of these bytes behind the first `at`, and counts in `at` how many are written.
fn write_rest<E: Sink>(errors: &mut E, bytes: &[u8], at: &mut usize) -> Result<(), Failed>
    requires { at.old ≤ length bytes.now }
    ensures within { at.new ≤ length bytes.now }
    ensures same { appended (E.written errors.new) (drop at.new bytes.now)
        ≡ appended (E.written errors.old) (drop at.old bytes.now) }
    ensures ok { OnOk result (at.new ≡ length bytes.now) }
    ensures err { OnErr result (Rose (E.faults errors.old) (E.faults errors.new)) }
    ensures count { E.faults errors.old ≤ E.faults errors.new }
{
    while *at < bytes.len() {
        let n = errors.write(&bytes[*at..])?;
        if n == 0 {
            return Err(Failed);
        }
        *at += n;
    }
    Ok(())
}

/// Hands on what it is given, but keeps the line with which a server ends until more is given. Where there is no memory
/// to keep it, it is handed on as well.
#[derive(Drop)]
pub(crate) struct LastLine<E: Sink + Drop> {
    alloc: Global,
    errors: E,
    line: Items<u8>,
    /// How many bytes of the line were handed on.
    at: usize,
}

impl<E: Sink + Drop> Model for LastLine<E> {
    ghost use Rattle.std.specs.Prelude.{◌≤◌, drop, length};
    ghost use Rattle.serve_command.specs.LastLine.{LastLineValue};

    ghost Value = { LastLineValue };

    ghost view = { λ s. record {
      handed = E.written s.errors;
      kept = drop s.at s.line;
      faults = E.faults s.errors;
    } };

    ghost invariant = { λ s. s.at ≤ length s.line };
}

impl<E: Sink + Drop> LastLine<E> {
    /// A sink that was given nothing yet.
    pub fn new(alloc: Global, errors: E) -> LastLine<E>
        ensures { result ≡ record { handed = E.written errors; kept = []; faults = E.faults errors } }
    {
        LastLine {
            alloc,
            errors,
            line: Items::new(alloc),
            at: 0,
        }
    }

    /// Hands on what is kept.
    fn release(&mut self) -> Result<(), Failed>
        ensures same { appended self.new.handed self.new.kept ≡ appended self.old.handed self.old.kept }
        ensures ok { OnOk result (self.new.kept ≡ []) }
        ensures err { OnErr result (Rose self.old.faults self.new.faults) }
        ensures count { self.old.faults ≤ self.new.faults }
    {
        write_rest(&mut self.errors, self.line.as_slice(), &mut self.at)
    }

    /// Keeps a line, if it is one with which a server ends and there is memory to keep it.
    fn keep(&mut self, line: &[u8]) -> bool
        ensures kept { result ≡ true → self.new ≡ record (self.old) { kept = line.now } }
        ensures same { result ≡ false → self.new ≡ self.old }
    {
        if !is_last_line(line) {
            return false;
        }
        match Items::copied(self.alloc, line) {
            Ok(line) => {
                self.line = line;
                self.at = 0;
                true
            }
            Err(_) => false,
        }
    }

    /// Writes what is kept to the sink below, and gives that back; before it the reason, if it is the line of an end.
    pub fn end(self, reason: &[u8]) -> E
        ensures told { AppendsOrFails self.handed (E.written result) self.faults (E.faults result)
            (ending reason.now self.kept) }
        ensures count { self.faults ≤ E.faults result }
    {
        let LastLine {
            alloc: _,
            errors,
            line,
            at,
        } = self;
        let mut errors = errors;
        let kept = &line.as_slice()[at..];
        write_both(&mut errors, reason_before(reason, kept), kept);
        errors
    }
}

impl<E: Sink + Drop> Sink for LastLine<E> {
    ghost written = { λ s. appended s.handed s.kept };

    ghost faults = { λ s. s.faults };

    fn write(&mut self, bytes: &[u8]) -> Result<usize, Failed> {
        self.release()?;
        if self.keep(bytes) {
            return Ok(bytes.len());
        }
        self.errors.write(bytes)
    }
}
