//! The lines of events.

ghost use Rattle.std.specs.Prelude.{◌≡◌, ◌++◌, [], ◌∷◌, IfOk, OnErr, OnOk, codes, string_bytes};
ghost use Rattle.std.specs.Fmt.{decimal};
ghost use Rattle.service_log.specs.Lines.{line_of, name_in, names_of, rebooted_line, scope_names, started_line, stopped_line};
ghost use Rattle.service_log.specs.Logging.{LogsEvent, WritesLine, log_of};

use crate::event::ServiceEvent;
use crash_base::{ComponentNo, GroupNo, OutOfMemory, Scope};
use deployment::Deployment;
use outside::{Sink, write_all};
use std::alloc::Global;

/// The bytes of a line.
fn bytes_of(alloc: Global, text: &str) -> Result<Vec<u8>, OutOfMemory>
    ensures { IfOk result (λ line. line.items ≡ text.now) }
{
    let line = Vec::from_slice(alloc, text.as_bytes())?;
    Ok(line)
}

/// Adds a number in digits, behind this and before that.
fn add_number(
    alloc: Global,
    line: &mut Vec<u8>,
    before: &str,
    number: u64,
    behind: &str,
) -> Result<(), OutOfMemory>
    ensures { OnOk result (line.new.items ≡ line.old.items ++ (before.now ++ decimal number ++ behind.now)) }
{
    let text = format!(in alloc; "{before}{number}{behind}")?;
    line.extend_from_slice(text.as_bytes())?;
    Ok(())
}

/// The line of a start.
fn started_line(alloc: Global, boot: u32, rows: u64) -> Result<Vec<u8>, OutOfMemory>
    ensures { IfOk result (λ line. line.items ≡ started_line boot rows) }
{
    let mut line = Vec::new(alloc);
    add_number(alloc, &mut line, "boot ", u64::from(boot), " started over ")?;
    add_number(alloc, &mut line, "", rows, " rows\n")?;
    Ok(line)
}

/// The line of a stop.
fn stopped_line(alloc: Global, entries: u64) -> Result<Vec<u8>, OutOfMemory>
    ensures { IfOk result (λ line. line.items ≡ stopped_line entries) }
{
    let mut line = Vec::new(alloc);
    add_number(
        alloc,
        &mut line,
        "restarting behind ",
        entries,
        " entries\n",
    )?;
    Ok(line)
}

/// Adds the name of a component behind a space, if the component is in a group.
fn add_name(line: &mut Vec<u8>, name: &[u8], is_in: bool) -> Result<(), OutOfMemory>
    ensures { OnOk result (line.new.items ≡ line.old.items ++ name_in is_in name.now) }
{
    if is_in {
        line.extend_from_slice(b" ")?;
        line.extend_from_slice(name)?;
    }
    Ok(())
}

/// Adds the names of the components of a group, each behind a space.
fn add_names(line: &mut Vec<u8>, deployment: &Deployment, group: GroupNo) -> Result<(), OutOfMemory>
    ensures { OnOk result (line.new.items ≡ line.old.items ++ names_of deployment.now group.0) }
{
    let mut c: u16 = 0;
    for part in deployment.parts().components.as_slice() {
        let is_in = deployment.group_of(ComponentNo(c)).0 == group.0;
        add_name(line, part.name.as_slice(), is_in)?;
        c += 1;
    }
    Ok(())
}

/// Adds what was rebooted, behind a space.
fn add_scope(line: &mut Vec<u8>, deployment: &Deployment, scope: Scope) -> Result<(), OutOfMemory>
    ensures { OnOk result (line.new.items ≡ line.old.items ++ scope_names deployment.now scope) }
{
    match scope {
        Scope::Group(group) => add_names(line, deployment, group),
        Scope::App => {
            line.extend_from_slice(b" all")?;
            Ok(())
        }
    }
}

/// The line of a reboot.
fn rebooted_line(
    alloc: Global,
    deployment: &Deployment,
    scope: Scope,
    milliseconds: u64,
) -> Result<Vec<u8>, OutOfMemory>
    ensures { IfOk result (λ line. line.items ≡ rebooted_line deployment.now scope milliseconds) }
{
    let mut line = Vec::from_slice(alloc, b"rebooted")?;
    add_scope(&mut line, deployment, scope)?;
    add_number(alloc, &mut line, ", down for ", milliseconds, " ms\n")?;
    Ok(line)
}

/// The line that calls a person.
fn human_line(alloc: Global) -> Result<Vec<u8>, OutOfMemory>
    ensures { IfOk result (λ line. line.items ≡ codes "human needed\n") }
{
    let line = Vec::from_slice(alloc, b"human needed\n")?;
    Ok(line)
}

/// The line of an event.
fn line_of(
    alloc: Global,
    deployment: &Deployment,
    event: ServiceEvent,
) -> Result<Vec<u8>, OutOfMemory>
    ensures { IfOk result (λ line. line.items ≡ line_of deployment.now event) }
{
    match event {
        ServiceEvent::Started { boot, rows } => started_line(alloc, boot, rows),
        ServiceEvent::Rebooted {
            scope,
            milliseconds,
        } => rebooted_line(alloc, deployment, scope, milliseconds),
        ServiceEvent::Stopped { entries } => stopped_line(alloc, entries),
        ServiceEvent::HumanNeeded => human_line(alloc),
    }
}

/// Writes a line that there is, if there is one.
fn write_found<E: Sink>(errors: &mut E, line: Result<Vec<u8>, OutOfMemory>)
    ensures some { IfOk line (λ line. WritesLine line.items (log_of (E.written errors.old) (E.faults errors.old))
        (log_of (E.written errors.new) (E.faults errors.new))) }
    ensures none { OnErr line (log_of (E.written errors.new) (E.faults errors.new)
        ≡ log_of (E.written errors.old) (E.faults errors.old)) }
{
    if let Ok(line) = line {
        let _ = write_all(errors, line.as_slice());
    }
}

/// Writes the line of an event. Where there is no memory for it, nothing is written; and a fault changes nothing else.
pub fn log_event<E: Sink>(
    alloc: Global,
    errors: &mut E,
    deployment: &Deployment,
    event: ServiceEvent,
)
    ensures { LogsEvent deployment.now event (log_of (E.written errors.old) (E.faults errors.old))
        (log_of (E.written errors.new) (E.faults errors.new)) }
{
    let line = line_of(alloc, deployment, event);
    write_found(errors, line);
}
