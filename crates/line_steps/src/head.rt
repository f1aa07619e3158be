//! Head lines, which build the parts of a deployment, plan faults, set the limits of the journal, and set up sessions.

ghost use Rattle.std.specs.Prelude.{◌≡◌, ◌<◌, ◌&&◌, [], ◌∷◌, ◌++◌, length, None, IfOk, OnOk, true, false};
ghost use Rattle.auction_rows.specs.Parts.{site_parts};
ghost use Rattle.deployment.specs.Refusals.{deploy_refusal};
ghost use Rattle.scenario_text.specs.Answer.{KeepsRefused, answer_of, within};
ghost use Rattle.line_steps.specs.Head.{no_head, component_step, reference_step, owns_step, cured_by, fault_step, limit_step, site_step, declares, open_step, head_step, head_line, IsOfSite};

use crate::copying::parts_copied;
use crate::tables::table_of;
use auction_rows::site_deployment;
use boot_core::{JournalLimits, MAX_ENTRIES, MAX_JOURNAL_BYTES};
use crash_base::{
    ComponentName, ComponentNo, FaultKind, FaultList, FaultPlan, GroupNo, Level, MAX_FAULT_PLANS,
    MAX_GROUPS, OutOfMemory, is_component_name,
};
use deployment::{ComponentPart, Parts, Reference, TablePart, one_call};
use scenario_text::{CureLevel, HeadLine, Line, LineAnswer, Setup};
use std::alloc::Global;
use std::mem;

/// How many bricks the site has.
pub const SITE_BRICKS: u64 = 3;

/// The most bricks that a write of the site asks.
pub const SITE_MOST: u64 = 3;

/// The fewest bricks that are to store what the site writes.
pub const SITE_LEAST: u64 = 2;

/// What head lines have said: the parts of a deployment, the fault plans of its components, the limits of the journal,
/// the bricks and the key of sessions, and whether the parts are those of the site.
#[derive(Drop)]
pub struct Head {
    pub parts: Parts,
    pub plans: FaultList,
    pub limits: JournalLimits,
    pub setup: Setup,
    pub site: bool,
}

/// The next component.
#[tactic(auto, unfolding(crate::specs::Head::component_step))]
fn component_step(
    alloc: Global,
    parts: &mut Parts,
    name: ComponentName,
) -> Result<LineAnswer, OutOfMemory>
    requires { deploy_refusal parts.old ≡ None }
    ensures answer { IfOk result (λ a. answer_of a parts.new ≡ component_step parts.old name) }
    ensures refused { IfOk result (λ a. KeepsRefused a parts.old parts.new) }
    ensures accepted { deploy_refusal parts.new ≡ None }
{
    if !is_component_name(name.as_slice()) {
        return Ok(LineAnswer::Refused);
    }
    if parts.named(name.as_slice()).is_some() {
        return Ok(LineAnswer::Refused);
    }
    if parts.components.len() >= MAX_GROUPS as usize {
        return Ok(LineAnswer::Refused);
    }
    let methods = one_call(alloc)?;
    parts.components.push(ComponentPart { name, methods })?;
    Ok(LineAnswer::Done)
}

/// A component refers to another.
#[tactic(auto, unfolding(crate::specs::Head::reference_step))]
fn reference_step(
    parts: &mut Parts,
    from: ComponentName,
    to: ComponentName,
    hard: bool,
) -> Result<LineAnswer, OutOfMemory>
    requires { deploy_refusal parts.old ≡ None }
    ensures answer { IfOk result (λ a.
        answer_of a parts.new ≡ reference_step parts.old from to hard) }
    ensures refused { IfOk result (λ a. KeepsRefused a parts.old parts.new) }
    ensures accepted { deploy_refusal parts.new ≡ None }
{
    let Some(x) = parts.named(from.as_slice()) else {
        return Ok(LineAnswer::Refused);
    };
    let Some(y) = parts.named(to.as_slice()) else {
        return Ok(LineAnswer::Refused);
    };
    let from = ComponentNo(x as u16);
    let to = ComponentNo(y as u16);
    parts.references.push(Reference { from, to, hard })?;
    Ok(LineAnswer::Done)
}

/// A component owns a table.
#[tactic(auto, unfolding(crate::specs::Head::owns_step))]
fn owns_step(parts: &mut Parts, name: ComponentName, number: u64) -> Result<LineAnswer, OutOfMemory>
    requires { deploy_refusal parts.old ≡ None }
    ensures answer { IfOk result (λ a. answer_of a parts.new ≡ owns_step parts.old name number) }
    ensures refused { IfOk result (λ a. KeepsRefused a parts.old parts.new) }
    ensures accepted { deploy_refusal parts.new ≡ None }
{
    let Some(c) = parts.named(name.as_slice()) else {
        return Ok(LineAnswer::Refused);
    };
    let Some(table) = table_of(number) else {
        return Ok(LineAnswer::Refused);
    };
    if parts.owner_of(table).is_some() {
        return Ok(LineAnswer::Refused);
    }
    let owner = ComponentNo(c as u16);
    parts.tables.push(TablePart { table, owner })?;
    Ok(LineAnswer::Done)
}

/// The level of a reboot that a line says. The number of a plan's group is not looked at.
fn cured_by(level: CureLevel) -> Level
    ensures { result ≡ cured_by level }
{
    match level {
        CureLevel::Group => Level::Group(GroupNo(0)),
        CureLevel::App => Level::App,
        CureLevel::Process => Level::Process,
    }
}

/// Gives the plans one more. They stay as they are where memory ran out.
fn push_plan(alloc: Global, plans: &mut FaultList, plan: FaultPlan) -> Result<(), OutOfMemory>
    requires { length plans.old < MAX_FAULT_PLANS }
    ensures { OnOk result (plans.new ≡ plans.old ++ plan ∷ []) }
{
    let mut items = mem::replace(plans, FaultList::from_vec(Vec::new(alloc))).into_vec();
    let pushed = items.push(plan);
    *plans = FaultList::from_vec(items);
    pushed?;
    Ok(())
}

/// A component fails by one plan more.
#[tactic(auto, unfolding(crate::specs::Head::fault_step))]
fn fault_step(
    alloc: Global,
    parts: &Parts,
    plans: &mut FaultList,
    name: ComponentName,
    after: u64,
    kind: FaultKind,
    level: CureLevel,
) -> Result<LineAnswer, OutOfMemory>
    requires { deploy_refusal parts.now ≡ None }
    ensures answer { IfOk result (λ a.
        answer_of a plans.new ≡ fault_step parts.now plans.old name after kind level) }
    ensures refused { IfOk result (λ a. KeepsRefused a plans.old plans.new) }
{
    let Some(c) = parts.named(name.as_slice()) else {
        return Ok(LineAnswer::Refused);
    };
    if plans.as_slice().len() >= MAX_FAULT_PLANS {
        return Ok(LineAnswer::Refused);
    }
    let plan = FaultPlan {
        component: ComponentNo(c as u16),
        after,
        kind,
        cured_by: cured_by(level),
    };
    push_plan(alloc, plans, plan)?;
    Ok(LineAnswer::Done)
}

/// The limits of the journal are set.
#[tactic(auto, unfolding(crate::specs::Head::limit_step))]
fn limit_step(head: &mut Head, entries: u64, bytes: u64) -> LineAnswer
    ensures answer { answer_of result head.new ≡ limit_step head.old entries bytes }
    ensures refused { KeepsRefused result head.old head.new }
    ensures parts { head.new.parts ≡ head.old.parts }
    ensures site { head.new.site ≡ head.old.site }
{
    if entries > MAX_ENTRIES {
        return LineAnswer::Refused;
    }
    if bytes > MAX_JOURNAL_BYTES {
        return LineAnswer::Refused;
    }
    head.limits = JournalLimits { entries, bytes };
    LineAnswer::Done
}

impl Head {
    /// No parts, no fault plans, the greatest limits, and no bricks. It takes no memory.
    pub fn new(alloc: Global) -> Head
        ensures { result ≡ no_head }
    {
        Head {
            parts: Parts::new(alloc),
            plans: FaultList::from_vec(Vec::new(alloc)),
            limits: JournalLimits {
                entries: MAX_ENTRIES,
                bytes: MAX_JOURNAL_BYTES,
            },
            setup: Setup::new(),
            site: false,
        }
    }
}

/// The parts of the site.
fn site_parts(alloc: Global) -> Result<Parts, OutOfMemory>
    ensures parts { IfOk result (λ parts. parts ≡ site_parts) }
    ensures accepted { IfOk result (λ parts. deploy_refusal parts ≡ None) }
{
    let deployment = site_deployment(alloc)?;
    let parts = parts_copied(alloc, deployment.parts())?;
    Ok(parts)
}

/// The parts and the bricks are those of the site.
#[tactic(auto, unfolding(crate::specs::Head::site_step))]
fn site_step(alloc: Global, head: &mut Head) -> Result<LineAnswer, OutOfMemory>
    requires { deploy_refusal head.old.parts ≡ None }
    ensures answer { IfOk result (λ a. answer_of a head.new ≡ site_step head.old) }
    ensures refused { IfOk result (λ a. KeepsRefused a head.old head.new) }
    ensures accepted { deploy_refusal head.new.parts ≡ None }
    ensures of_site { IsOfSite head.old → IsOfSite head.new }
{
    if !head.parts.components.is_empty() {
        return Ok(LineAnswer::Refused);
    }
    let parts = site_parts(alloc)?;
    match head.setup.bricks_line(SITE_BRICKS, SITE_MOST, SITE_LEAST) {
        LineAnswer::Refused => Ok(LineAnswer::Refused),
        answer => {
            head.parts = parts;
            head.site = true;
            Ok(answer)
        }
    }
}

/// Whether a line declares a part.
fn declares(line: &HeadLine) -> bool
    ensures { result ≡ declares line.now }
{
    match line {
        HeadLine::Component(_) => true,
        HeadLine::Hard(_, _) => true,
        HeadLine::Soft(_, _) => true,
        HeadLine::Owns(_, _) => true,
        HeadLine::Fault(_, _, _, _) => false,
        HeadLine::Limit(_, _) => false,
        HeadLine::Bricks(_, _, _) => false,
        HeadLine::Key(_) => false,
        HeadLine::Site => false,
    }
}

/// A line of the head, which declares no part where the parts are those of the site.
fn open_step(alloc: Global, head: &mut Head, line: HeadLine) -> Result<LineAnswer, OutOfMemory>
    requires accepted { deploy_refusal head.old.parts ≡ None }
    requires open { (head.old.site && declares line) ≡ false }
    ensures answer { IfOk result (λ a. answer_of a head.new ≡ open_step head.old line) }
    ensures refused { IfOk result (λ a. KeepsRefused a head.old head.new) }
    ensures accepted { deploy_refusal head.new.parts ≡ None }
    ensures of_site { IsOfSite head.old → IsOfSite head.new }
{
    match line {
        HeadLine::Component(name) => component_step(alloc, &mut head.parts, name),
        HeadLine::Hard(from, to) => reference_step(&mut head.parts, from, to, true),
        HeadLine::Soft(from, to) => reference_step(&mut head.parts, from, to, false),
        HeadLine::Owns(name, number) => owns_step(&mut head.parts, name, number),
        HeadLine::Fault(name, after, kind, level) => {
            fault_step(
                alloc,
                &head.parts,
                &mut head.plans,
                name,
                after,
                kind,
                level,
            )
        }
        HeadLine::Limit(entries, bytes) => Ok(limit_step(head, entries, bytes)),
        HeadLine::Bricks(bricks, most, least) => { Ok(head.setup.bricks_line(bricks, most, least)) }
        HeadLine::Key(key) => Ok(head.setup.key_line(key)),
        HeadLine::Site => site_step(alloc, head),
    }
}

/// A line of the head.
fn head_step(alloc: Global, head: &mut Head, line: HeadLine) -> Result<LineAnswer, OutOfMemory>
    requires { deploy_refusal head.old.parts ≡ None }
    ensures answer { IfOk result (λ a. answer_of a head.new ≡ head_step head.old line) }
    ensures refused { IfOk result (λ a. KeepsRefused a head.old head.new) }
    ensures accepted { deploy_refusal head.new.parts ≡ None }
    ensures of_site { IsOfSite head.old → IsOfSite head.new }
{
    if head.site && declares(&line) {
        return Ok(LineAnswer::Refused);
    }
    open_step(alloc, head, line)
}

/// A line before the boot is started.
pub fn head_line(alloc: Global, head: &mut Head, line: Line) -> Result<LineAnswer, OutOfMemory>
    requires { deploy_refusal head.old.parts ≡ None }
    ensures answer { IfOk result (λ a. answer_of a head.new ≡ head_line head.old line) }
    ensures refused { IfOk result (λ a. KeepsRefused a head.old head.new) }
    ensures accepted { deploy_refusal head.new.parts ≡ None }
    ensures of_site { IsOfSite head.old → IsOfSite head.new }
{
    match line {
        Line::Pass => Ok(LineAnswer::Done),
        Line::Head(line) => head_step(alloc, head, line),
        Line::Call(_, _)
        | Line::Commit(_)
        | Line::Boot(_)
        | Line::Reopen
        | Line::Session(_)
        | Line::Seat(_) => Ok(LineAnswer::Refused),
    }
}
