use crate::{LeaseWheel, WheelItem};
use crash_base::{Moment, OutOfMemory, SessionKey, Version};
use std::process::Abort;

/// The item of this serial.
fn item(serial: u64) -> WheelItem {
    WheelItem {
        key: SessionKey([7; 16]),
        version: Version {
            node: 1,
            boot: 1,
            serial,
        },
    }
}

/// The serial of what is taken out at a moment, and 0 where nothing is due.
fn taken(wheel: &mut LeaseWheel, moment: u64) -> u64 {
    match wheel.pop_due(Moment(moment)) {
        Some(item) => item.version.serial,
        None => 0,
    }
}

/// Adds an item and takes it out by its name: the serial of what is handed back.
fn removed(wheel: &mut LeaseWheel, expiry: u64, serial: u64) -> Result<u64, OutOfMemory> {
    let node = wheel.add(Moment(expiry), item(serial))?;
    Ok(wheel.remove(node).version.serial)
}

/// Adds items, and then takes at each moment what is wanted.
fn expect_taken(
    rt: &impl Abort,
    wheel: &mut LeaseWheel,
    added: &[(u64, u64)],
    wanted: &[(u64, u64)],
) -> Result<(), OutOfMemory> {
    for (expiry, serial) in added {
        let _node = wheel.add(Moment(*expiry), item(*serial))?;
    }
    for (moment, serial) in wanted {
        assert!(rt; taken(wheel, *moment) == *serial);
    }
    Ok(())
}

#[test]
fn takes_what_is_due_in_order(rt: HostRuntime) -> Result<(), OutOfMemory> {
    let mut wheel = LeaseWheel::new(rt.alloc());
    expect_taken(&rt, &mut wheel, &[], &[(0, 0), (u64::MAX, 0)])?;
    let added = [(30, 1), (10, 2), (20, 3), (10, 4)];
    let wanted = [
        (0, 0),
        (60_010, 0),
        (60_011, 2),
        (60_011, 4),
        (60_011, 0),
        (60_021, 3),
        (60_030, 0),
        (60_031, 1),
        (u64::MAX, 0),
    ];
    expect_taken(&rt, &mut wheel, &added, &wanted)?;
    // An expiry at which nothing was left is a new one, and one to which the grace cannot be added is never due.
    let added = [(10, 5), (u64::MAX, 6), (5, 7)];
    let wanted = [(70_000, 7), (70_000, 5), (u64::MAX, 0)];
    expect_taken(&rt, &mut wheel, &added, &wanted)?;
    // What was taken out by its name does not come again, and the others of its expiry stay.
    expect_taken(&rt, &mut wheel, &[(40, 8), (50, 9)], &[])?;
    let tenth = removed(&mut wheel, 40, 10)?;
    let eleventh = removed(&mut wheel, 45, 11)?;
    assert!(rt; tenth == 10 && eleventh == 11);
    let wanted = [
        (60_041, 8),
        (60_041, 12),
        (60_041, 0),
        (60_051, 9),
        (60_051, 0),
    ];
    expect_taken(&rt, &mut wheel, &[(40, 12)], &wanted)?;
    wheel.clear();
    expect_taken(&rt, &mut wheel, &[], &[(u64::MAX, 0)])
}
