//! What lines about connections write.

ghost use Rattle.std.specs.Prelude.{◌≡◌, IfOk, string_bytes};
ghost use Rattle.seat_lines.specs.Texts.{closed_text, decide_text, ended_text, gone_text, out_text, reboot_text, untaken_word};

use crash_base::{Level, OutOfMemory};
use recovery_manager::Decision;
use scenario_text::write_hex;
use shepherd::EndKind;
use site_responses::Untaken;
use std::alloc::Global;
use std::fmt::Write;

/// What a connection writes that puts out bytes.
pub(crate) fn out_text(alloc: Global, number: u64, bytes: &[u8]) -> Result<String, OutOfMemory>
    ensures { IfOk result (λ text. string_bytes text ≡ out_text number bytes.now) }
{
    let mut text = String::new(alloc);
    write!(text, "s{number} out ")?;
    write_hex(&mut text, bytes)?;
    text.push_str("\n")?;
    Ok(text)
}

/// What a connection writes that was closed.
fn closed_text(alloc: Global, number: u64) -> Result<String, OutOfMemory>
    ensures { IfOk result (λ text. string_bytes text ≡ closed_text number) }
{
    let mut text = String::new(alloc);
    write!(text, "s{number} closed\n")?;
    Ok(text)
}

/// What a connection writes that ended otherwise, with the word for how.
fn ended_text(alloc: Global, number: u64, kind: &str) -> Result<String, OutOfMemory>
    ensures { IfOk result (λ text. string_bytes text ≡ ended_text number kind.now) }
{
    let mut text = String::new(alloc);
    write!(text, "s{number} ended {kind}\n")?;
    Ok(text)
}

/// The word for why what followed is refused.
fn untaken_word(why: Untaken) -> &'static str
    ensures { result.now ≡ untaken_word why }
{
    match why {
        Untaken::Bad => "bad",
        Untaken::TooLong => "toolong",
        Untaken::BodyTooLong => "bodytoolong",
        Untaken::NoCoding => "nocoding",
    }
}

/// What a connection writes that is gone.
///
/// # Errors
/// There is no memory, or there was none for the connection.
pub(crate) fn gone_text(alloc: Global, number: u64, end: EndKind) -> Result<String, OutOfMemory>
    ensures { IfOk result (λ text. string_bytes text ≡ gone_text number end) }
{
    match end {
        EndKind::Closed => closed_text(alloc, number),
        EndKind::Cut => ended_text(alloc, number, "cut"),
        EndKind::Refused(why) => ended_text(alloc, number, untaken_word(why)),
        EndKind::OutOfMemory => Err(OutOfMemory),
    }
}

/// What is written of a decision to reboot.
fn reboot_text(alloc: Global, level: Level) -> Result<String, OutOfMemory>
    ensures { IfOk result (λ text. string_bytes text ≡ reboot_text level) }
{
    let mut text = String::new(alloc);
    match level {
        Level::Group(group) => write!(text, "decide group {}\n", group.0)?,
        Level::App => text.push_str("decide app\n")?,
        Level::Process => text.push_str("decide process\n")?,
        Level::Human => text.push_str("decide human\n")?,
    }
    Ok(text)
}

/// What is written of a decision.
pub(crate) fn decide_text(alloc: Global, decision: Decision) -> Result<String, OutOfMemory>
    ensures { IfOk result (λ text. string_bytes text ≡ decide_text decision) }
{
    match decision {
        Decision::None => {
            let mut text = String::new(alloc);
            text.push_str("decide none\n")?;
            Ok(text)
        }
        Decision::Reboot(level) => reboot_text(alloc, level),
    }
}
