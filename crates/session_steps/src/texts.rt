//! What lines about sessions write.

ghost use Rattle.std.specs.Prelude.{◌≡◌, ◌≢◌, ◌++◌, Err, OnOk, IfOk, string_bytes};
ghost use Rattle.std.specs.List.{flat_map};
ghost use Rattle.std.specs.Str.{IsUtf8};
ghost use Rattle.session_steps.specs.Present.{answer_text};
ghost use Rattle.session_steps.specs.Texts.{holder_text, version_text, fact_text, overload_text, reason_text, cause_text, missed_text, found_text, expired_text, lost_text, cookie_text, values_text, windows_text, held_text, closed_text, hold_text};

use crash_base::{Moment, OutOfMemory};
use scenario_text::write_hex;
use send_windows::WindowFact;
use session_cookie::{Cookie, CookieRefusal, Holder};
use session_lanes::HoldAnswer;
use ssm_stub::{BrickCause, Cause};
use std::alloc::Global;
use std::fmt::Write;

/// Writes a brick that holds a value.
fn write_holder(text: &mut String, holder: Holder) -> Result<(), OutOfMemory>
    ensures { OnOk result (string_bytes text.new ≡ string_bytes text.old ++ holder_text holder) }
{
    let brick = holder.brick.0;
    write!(text, " {brick}")?;
    Ok(())
}

/// Writes bricks that hold a value.
fn write_holders(text: &mut String, holders: &[Holder]) -> Result<(), OutOfMemory>
    ensures { OnOk result (string_bytes text.new ≡ string_bytes text.old ++ flat_map holder_text holders.now) }
{
    for holder in holders {
        write_holder(text, *holder)?;
    }
    Ok(())
}

/// What a write writes that was acknowledged.
pub(crate) fn version_text(alloc: Global, key: u64, cookie: &Cookie) -> Result<String, OutOfMemory>
    ensures { IfOk result (λ text. string_bytes text ≡ version_text key cookie.now) }
{
    let serial = cookie.version.serial;
    let mut text = String::new(alloc);
    write!(text, "k{key} version {serial} bricks")?;
    write_holders(&mut text, cookie.bricks.as_slice())?;
    text.push_str("\n")?;
    Ok(text)
}

/// Writes a brick with its window.
fn write_fact(text: &mut String, fact: WindowFact) -> Result<(), OutOfMemory>
    ensures { OnOk result (string_bytes text.new ≡ string_bytes text.old ++ fact_text fact) }
{
    let brick = fact.brick.0;
    let window = fact.window;
    let in_flight = fact.in_flight;
    write!(text, " {brick}:{window}/{in_flight}")?;
    Ok(())
}

/// Writes bricks with their windows.
fn write_facts(text: &mut String, facts: &[WindowFact]) -> Result<(), OutOfMemory>
    ensures { OnOk result (string_bytes text.new ≡ string_bytes text.old ++ flat_map fact_text facts.now) }
{
    for fact in facts {
        write_fact(text, *fact)?;
    }
    Ok(())
}

/// What a write writes where too few windows are open.
pub(crate) fn overload_text(
    alloc: Global,
    key: u64,
    full: &[WindowFact],
) -> Result<String, OutOfMemory>
    ensures { IfOk result (λ text. string_bytes text ≡ overload_text key full.now) }
{
    let mut text = String::new(alloc);
    write!(text, "k{key} overload")?;
    write_facts(&mut text, full)?;
    text.push_str("\n")?;
    Ok(text)
}

/// Writes why a brick did not serve.
fn write_reason(text: &mut String, cause: Cause) -> Result<(), OutOfMemory>
    ensures { OnOk result (string_bytes text.new ≡ string_bytes text.old ++ reason_text cause) }
{
    match cause {
        Cause::Silent => write!(text, "silent")?,
        Cause::Strayed => write!(text, "strayed")?,
        Cause::Full { entries, bytes } => write!(text, "full/{entries}/{bytes}")?,
        Cause::Crashed { incarnation } => write!(text, "crashed/{incarnation}")?,
        Cause::Swept { moment } => {
            let moment = moment.0;
            write!(text, "swept/{moment}")?;
        }
    }
    Ok(())
}

/// Writes a brick that did not serve, and why.
fn write_cause(text: &mut String, cause: BrickCause) -> Result<(), OutOfMemory>
    ensures { OnOk result (string_bytes text.new ≡ string_bytes text.old ++ cause_text cause) }
{
    let brick = cause.brick.0;
    write!(text, " {brick}:")?;
    write_reason(text, cause.cause)
}

/// Writes bricks that did not serve, and why.
fn write_causes(text: &mut String, causes: &[BrickCause]) -> Result<(), OutOfMemory>
    ensures { OnOk result (string_bytes text.new ≡ string_bytes text.old ++ flat_map cause_text causes.now) }
{
    for cause in causes {
        write_cause(text, *cause)?;
    }
    Ok(())
}

/// What a write writes that too few bricks stored.
pub(crate) fn missed_text(
    alloc: Global,
    key: u64,
    causes: &[BrickCause],
) -> Result<String, OutOfMemory>
    ensures { IfOk result (λ text. string_bytes text ≡ missed_text key causes.now) }
{
    let mut text = String::new(alloc);
    write!(text, "k{key} missed")?;
    write_causes(&mut text, causes)?;
    text.push_str("\n")?;
    Ok(text)
}

/// Writes the value that a fetch found.
fn write_found(text: &mut String, key: u64, value: &[u8]) -> Result<(), OutOfMemory>
    ensures { OnOk result (string_bytes text.new ≡ string_bytes text.old ++ found_text key value.now) }
{
    write!(text, "k{key} found ")?;
    write_hex(text, value)?;
    text.push_str("\n")?;
    Ok(())
}

/// What a fetch writes that found the value.
pub(crate) fn found_text(alloc: Global, key: u64, value: &[u8]) -> Result<String, OutOfMemory>
    ensures { IfOk result (λ text. string_bytes text ≡ found_text key value.now) }
{
    let mut text = String::new(alloc);
    write_found(&mut text, key, value)?;
    Ok(text)
}

/// What a fetch writes whose cookie has expired.
pub(crate) fn expired_text(
    alloc: Global,
    key: u64,
    now: Moment,
    expiry: Moment,
) -> Result<String, OutOfMemory>
    ensures { IfOk result (λ text. string_bytes text ≡ expired_text key now expiry) }
{
    let now = now.0;
    let expiry = expiry.0;
    let mut text = String::new(alloc);
    write!(text, "k{key} expired {now} {expiry}\n")?;
    Ok(text)
}

/// What a fetch writes that no brick of the cookie served.
pub(crate) fn lost_text(
    alloc: Global,
    key: u64,
    causes: &[BrickCause],
) -> Result<String, OutOfMemory>
    ensures { IfOk result (λ text. string_bytes text ≡ lost_text key causes.now) }
{
    let mut text = String::new(alloc);
    write!(text, "k{key} lost")?;
    write_causes(&mut text, causes)?;
    text.push_str("\n")?;
    Ok(text)
}

/// What is written of the cookie of a key, by its text.
pub(crate) fn cookie_text(alloc: Global, key: u64, cookie: &[u8]) -> Result<String, OutOfMemory>
    requires { IsUtf8 cookie.now }
    ensures { IfOk result (λ text. string_bytes text ≡ cookie_text key cookie.now) }
{
    let mut text = String::new(alloc);
    match std::str::from_utf8(cookie) {
        Ok(cookie) => write!(text, "k{key} cookie {cookie}\n")?,
        Err(_) => unreachable!(),
    }
    Ok(text)
}

/// What is written of a text that is presented as a cookie, by what decoding it answers.
pub(crate) fn answer_text(
    alloc: Global,
    answer: Result<Cookie, CookieRefusal>,
) -> Result<String, OutOfMemory>
    ensures text { IfOk result (λ text. string_bytes text ≡ answer_text answer) }
    ensures memory { OnOk result (answer ≢ Err CookieRefusal.OutOfMemory) }
{
    let mut text = String::new(alloc);
    match answer {
        Ok(_) => write!(text, "cookie ok\n")?,
        Err(CookieRefusal::NotBase64) => write!(text, "cookie notbase64\n")?,
        Err(CookieRefusal::Form) => write!(text, "cookie form\n")?,
        Err(CookieRefusal::Tag) => write!(text, "cookie tag\n")?,
        Err(CookieRefusal::OutOfMemory) => return Err(OutOfMemory),
    }
    Ok(text)
}

/// What is written of how many values a brick keeps.
pub(crate) fn values_text(alloc: Global, brick: u64, count: u64) -> Result<String, OutOfMemory>
    ensures { IfOk result (λ text. string_bytes text ≡ values_text brick count) }
{
    let mut text = String::new(alloc);
    write!(text, "values {brick} {count}\n")?;
    Ok(text)
}

/// What is written of the windows.
pub(crate) fn windows_text(alloc: Global, facts: &[WindowFact]) -> Result<String, OutOfMemory>
    ensures { IfOk result (λ text. string_bytes text ≡ windows_text facts.now) }
{
    let mut text = String::new(alloc);
    write!(text, "windows")?;
    write_facts(&mut text, facts)?;
    text.push_str("\n")?;
    Ok(text)
}

/// What is written where a pass is held.
fn held_text(alloc: Global, brick: u64, in_flight: u64) -> Result<String, OutOfMemory>
    ensures { IfOk result (λ text. string_bytes text ≡ held_text brick in_flight) }
{
    let mut text = String::new(alloc);
    write!(text, "held {brick} {in_flight}\n")?;
    Ok(text)
}

/// What is written where no pass is held.
fn closed_text(
    alloc: Global,
    brick: u64,
    window: u64,
    in_flight: u64,
) -> Result<String, OutOfMemory>
    ensures { IfOk result (λ text. string_bytes text ≡ closed_text brick window in_flight) }
{
    let mut text = String::new(alloc);
    write!(text, "closed {brick} {window} {in_flight}\n")?;
    Ok(text)
}

/// What is written where a pass to a brick is to be held.
pub(crate) fn hold_text(
    alloc: Global,
    brick: u64,
    answer: HoldAnswer,
) -> Result<String, OutOfMemory>
    ensures { IfOk result (λ text. string_bytes text ≡ hold_text brick answer) }
{
    match answer {
        HoldAnswer::Held { in_flight } => held_text(alloc, brick, in_flight),
        HoldAnswer::Full { window, in_flight } => closed_text(alloc, brick, window, in_flight),
    }
}
