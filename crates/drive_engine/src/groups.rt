//! Recovery groups, from a descriptor text to its lines.

ghost use Rattle.std.specs.Prelude.{◌≡◌, ◌⊎◌, ◌++◌, true, IfOk, OnOk, MatchResult};
ghost use Rattle.outside.specs.Faults.{Rose};
ghost use Rattle.scenario_engine.specs.KeeperCalls.{KeeperSeen};
ghost use Rattle.drive_engine.specs.Command.{Runs};
ghost use Rattle.drive_engine.specs.Exchange.{exchange};
ghost use Rattle.drive_engine.specs.Groups.{group_line, groups_text, IsDeployment, IsRefused, WritesLines, ListsText, is_silent};

use crate::ending::Ending;
use crate::words::Command;
use crash_base::{ComponentNo, OutOfMemory};
use deployment::Deployment;
use descriptor_text::{TextRefusal, read_descriptors};
use outside::{InputRefusal, Sink, Source, read_to_end, write_all};
use std::alloc::Global;

/// The most bytes of a descriptor text.
pub const MAX_DESCRIPTOR_BYTES: usize = 1_048_576;

/// Writes the line of a component.
fn write_group_line(
    alloc: Global,
    lines: &mut Vec<u8>,
    name: &[u8],
    group: u16,
) -> Result<(), OutOfMemory>
    ensures { OnOk result (lines.new.items ≡ lines.old.items ++ group_line name.now group) }
{
    let rest = format!(in alloc; " {group}\n")?;
    lines.extend_from_slice(name)?;
    lines.extend_from_slice(rest.as_bytes())?;
    Ok(())
}

/// The lines of a deployment, one a component.
fn groups_text(alloc: Global, deployment: &Deployment) -> Result<Vec<u8>, OutOfMemory>
    ensures { IfOk result (λ lines. lines.items ≡ groups_text deployment.now) }
{
    let mut lines = Vec::new(alloc);
    let mut c: u16 = 0;
    for part in deployment.parts().components.as_slice() {
        let group = deployment.group_of(ComponentNo(c));
        write_group_line(alloc, &mut lines, part.name.as_slice(), group.0)?;
        c += 1;
    }
    Ok(lines)
}

/// The deployment of a descriptor text, or how the command ends without one.
fn read_deployment(alloc: Global, text: &[u8]) -> Result<Deployment, Ending>
    ensures { MatchResult result (λ deployment. IsDeployment text.now deployment)
        (λ ending. (ending ≡ Ending.OutOfMemory)
        ⊎ ((ending ≡ Ending.DescriptorsRefused) × IsRefused text.now)) }
{
    match read_descriptors(alloc, text) {
        Ok(deployment) => Ok(deployment),
        Err(TextRefusal::OutOfMemory) => Err(Ending::OutOfMemory),
        Err(TextRefusal::NotToml | TextRefusal::Field { .. } | TextRefusal::Deploy(_)) => {
            Err(Ending::DescriptorsRefused)
        }
    }
}

/// Writes the lines of a deployment.
fn write_groups<T: Sink>(alloc: Global, deployment: &Deployment, out: &mut T) -> Ending
    ensures writes { WritesLines result deployment.now (T.written out.old) (T.written out.new) }
    ensures write_failed { result ≡ Ending.WriteFailed
        → Rose (T.faults out.old) (T.faults out.new) }
    ensures silent { is_silent result ≡ true → out.new ≡ out.old }
{
    match groups_text(alloc, deployment) {
        Err(OutOfMemory) => Ending::OutOfMemory,
        Ok(lines) => match write_all(out, lines.as_slice()) {
            Ok(()) => Ending::Done,
            Err(_) => Ending::WriteFailed,
        },
    }
}

/// Writes the lines of the deployment that a descriptor text describes.
fn list_groups<T: Sink>(alloc: Global, text: &[u8], out: &mut T) -> Ending
    ensures lists { ListsText result text.now (T.written out.old) (T.written out.new) }
    ensures write_failed { result ≡ Ending.WriteFailed
        → Rose (T.faults out.old) (T.faults out.new) }
    ensures silent { is_silent result ≡ true → out.new ≡ out.old }
{
    match read_deployment(alloc, text) {
        Ok(deployment) => write_groups(alloc, &deployment, out),
        Err(ending) => ending,
    }
}

/// Reads a descriptor text to its end, and writes the group of each component.
pub fn groups<S: Source, T: Sink>(alloc: Global, input: &mut S, out: &mut T) -> Ending
    ensures runs { (keeper : KeeperSeen) → Runs Command.Groups result
        (exchange (S.left input.old) (S.left input.new) (T.written out.old) (T.written out.new)
        keeper keeper) }
    ensures read_failed { result ≡ Ending.ReadFailed
        → Rose (S.faults input.old) (S.faults input.new) }
    ensures write_failed { result ≡ Ending.WriteFailed
        → Rose (T.faults out.old) (T.faults out.new) }
    ensures silent { is_silent result ≡ true → out.new ≡ out.old }
{
    match read_to_end(alloc, input, MAX_DESCRIPTOR_BYTES) {
        Ok(text) => list_groups(alloc, text.as_slice(), out),
        Err(InputRefusal::Failed) => Ending::ReadFailed,
        Err(InputRefusal::TooLong) => Ending::LineTooLong(1),
        Err(InputRefusal::OutOfMemory) => Ending::OutOfMemory,
    }
}
