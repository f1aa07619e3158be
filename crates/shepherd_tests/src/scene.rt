//! What requests go through: the site in memory.

use container_core::JournalLimits;
use crash_base::{FaultList, FaultPlan, RowList};
use link_memory::ScriptLink;
use memory_site::MemorySite;
use outside::{CallList, MapKeeper};
use send_windows::Windows;
use std::alloc::Global;
use std::process::Abort;

/// What is asked of the site.
#[derive(Clone, Copy)]
pub struct Setting {
    /// The most entries of the journal.
    pub entries: u64,
    /// The number of the keeper's call that fails, if not 0.
    pub failing: u64,
    /// The first serial number.
    pub serial: u64,
    /// The plan by which a component fails, if one does.
    pub fault: Option<FaultPlan>,
}

/// Room for all, no fault, and serial numbers from 0 on.
pub const PLAIN: Setting = Setting {
    entries: 1000,
    failing: 0,
    serial: 0,
    fault: None,
};

/// A keeper of no rows, one call of which may fail.
fn keeper_of(rt: &impl Abort, alloc: Global, failing: u64) -> MapKeeper {
    let mut calls = CallList::new(alloc);
    if failing > 0 {
        calls.push(failing).expect(rt, "a call");
    }
    MapKeeper::new(alloc, RowList::new(alloc), calls).expect(rt, "a keeper")
}

/// The plan, if there is one.
fn plans_of(rt: &impl Abort, alloc: Global, fault: Option<FaultPlan>) -> FaultList {
    match fault {
        Some(plan) => FaultList::from_vec(Vec::from_slice(alloc, &[plan]).expect(rt, "a plan")),
        None => FaultList::from_vec(Vec::new(alloc)),
    }
}

/// The site of this setting, under a key of 32 zeros, with three bricks, of which two are to store a session.
pub fn site_of(rt: &impl Abort, alloc: Global, setting: Setting) -> MemorySite {
    let limits = JournalLimits {
        entries: setting.entries,
        bytes: 1_000_000,
    };
    let keeper = keeper_of(rt, alloc, setting.failing);
    let plans = plans_of(rt, alloc, setting.fault);
    let windows = Windows::new(alloc, 3, 3, 2, true).expect(rt, "windows");
    let link = ScriptLink::new(alloc, 3).expect(rt, "a link");
    let key = [0; 32];
    match MemorySite::start(
        alloc,
        keeper,
        plans,
        limits,
        windows,
        link,
        key,
        setting.serial,
    ) {
        Ok(site) => site,
        Err(_) => panic!(rt; "the start is refused"),
    }
}
