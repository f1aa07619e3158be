//! Why a server was not started.

ghost use Rattle.std.specs.Prelude.{◌≡◌, ◌≤◌, ◌++◌, IfOk};
ghost use Rattle.outside.specs.Sink.{AppendsOrFails};
ghost use Rattle.serve_command.specs.Ending.{IsAbout, key_rule, line_about, reason_in, report_of, status_line, status_of};

use crash_base::{Items, OutOfMemory};
use outside::{Sink, write_all};
use std::alloc::Global;

/// Why a server was not started. A reason is the line that names the file or the port and says what is wrong, or
/// nothing where there was no memory for it.
#[derive(Drop)]
pub enum StartFault {
    /// The file of the key has too few or too many bytes.
    KeyRefused(Items<u8>),
    /// A file or the port was not opened, or the key was not read.
    StartFailed(Items<u8>),
    OutOfMemory,
}

/// The line of a file or a port, and why it is of no use.
fn line_about(alloc: Global, name: &[u8], why: &[u8]) -> Result<Items<u8>, OutOfMemory>
    ensures { IfOk result (λ line. line ≡ line_about name.now why.now) }
{
    let mut line = Vec::from_slice(alloc, name)?;
    line.extend_from_slice(b": ")?;
    line.extend_from_slice(why)?;
    line.extend_from_slice(b"\n")?;
    Ok(Items::from_vec(line))
}

/// The reason that names a file or a port and says why it is of no use.
pub(crate) fn reason_about(alloc: Global, name: &[u8], why: &[u8]) -> Items<u8>
    ensures { IsAbout name.now why.now result }
{
    match line_about(alloc, name, why) {
        Ok(line) => line,
        Err(OutOfMemory) => Items::new(alloc),
    }
}

/// The key in this file is refused.
pub(crate) fn key_refused(alloc: Global, key_file: &[u8]) -> StartFault
    ensures status { status_of result ≡ 13 }
    ensures reason { IsAbout key_file.now key_rule (reason_in result) }
{
    StartFault::KeyRefused(reason_about(alloc, key_file, b"a key has 16 to 1024 bytes"))
}

/// What has this name was not opened, or not read.
pub(crate) fn start_failed(alloc: Global, name: &[u8], why: &[u8]) -> StartFault
    ensures status { status_of result ≡ 14 }
    ensures reason { IsAbout name.now why.now (reason_in result) }
{
    StartFault::StartFailed(reason_about(alloc, name, why))
}

impl StartFault {
    /// The exit status.
    pub fn status(&self) -> u8
        ensures { result ≡ status_of self.now }
    {
        match self {
            StartFault::KeyRefused(_) => 13,
            StartFault::StartFailed(_) => 14,
            StartFault::OutOfMemory => 9,
        }
    }

    /// The line of the status.
    fn line(&self) -> &'static str
        ensures { result.now ≡ status_line self.now }
    {
        match self {
            StartFault::KeyRefused(_) => "key refused\n",
            StartFault::StartFailed(_) => "start failed\n",
            StartFault::OutOfMemory => "out of memory\n",
        }
    }

    /// The line of the reason.
    pub(crate) fn reason(&self) -> &[u8]
        ensures { result.now ≡ reason_in self.now }
    {
        match self {
            StartFault::KeyRefused(reason) | StartFault::StartFailed(reason) => reason.as_slice(),
            StartFault::OutOfMemory => &[],
        }
    }
}

/// Writes two pieces. Where the first is not written whole, the second is not written.
pub(crate) fn write_both<E: Sink>(errors: &mut E, first: &[u8], second: &[u8])
    ensures told { AppendsOrFails (E.written errors.old) (E.written errors.new)
        (E.faults errors.old) (E.faults errors.new) (first.now ++ second.now) }
    ensures count { E.faults errors.old ≤ E.faults errors.new }
{
    match write_all(errors, first) {
        Ok(()) => {
            let _ = write_all(errors, second);
        }
        Err(_) => {}
    }
}

/// Tells why a server was not started, by the line of the reason and that of the status, and answers the status. A
/// fault changes nothing else.
pub fn report_fault<E: Sink>(errors: &mut E, fault: &StartFault) -> u8
    ensures status { result ≡ status_of fault.now }
    ensures told { AppendsOrFails (E.written errors.old) (E.written errors.new)
        (E.faults errors.old) (E.faults errors.new) (report_of fault.now) }
{
    write_both(errors, fault.reason(), fault.line().as_bytes());
    fault.status()
}
