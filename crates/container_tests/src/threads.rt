//! Tests of the threads of a server: that bricks are swept, and that a group is rebooted while a request is held.

use crate::clients::Ear;
use crate::links::{HostClock, LinkShelf};
use crate::reboots::HoldingGate;
use crate::served::{categories_fail, house, let_run, log_of, no_rows, responses};
use crate::sweeps::SweptGate;
use crash_base::{GroupNo, Level};

/// Each look at the clock takes a second.
const EACH_SECOND: &[u64] = &[1000];

#[test]
fn each_brick_is_swept_again_and_again(rt: HostRuntime) {
    let alloc = rt.alloc();
    let (house, seats) = house(&rt, alloc);
    let shelf = LinkShelf::new(&rt, alloc, &house, seats).expect(&rt, "links");
    let host = HostClock::new(EACH_SECOND);
    let gate = SweptGate::new(&rt, alloc, shelf, &host).expect(&rt, "a gate");
    let ran = let_run(&rt, alloc, &gate, 1, no_rows(&rt, alloc));
    assert!(rt; gate.are_swept());
    assert!(rt; ran.status == 0);
    assert!(rt; ran.has_closed);
    assert!(rt; log_of(&rt, &ran) == "boot 1 started over 0 rows\n");
}

/// The request that is held is one of Web, whose group is rebooted meanwhile.
#[test]
fn a_group_is_rebooted_while_a_request_is_held(rt: HostRuntime) {
    let alloc = rt.alloc();
    let (house, seats) = house(&rt, alloc);
    let shelf = LinkShelf::new(&rt, alloc, &house, seats).expect(&rt, "links");
    let first = Ear::new(alloc);
    let second = Ear::new(alloc);
    let fault = categories_fail(Level::Group(GroupNo(0)));
    let gate = HoldingGate::new(&rt, alloc, shelf, fault, &first, &second);
    let ran = let_run(&rt, alloc, &gate, 2, no_rows(&rt, alloc));
    assert!(rt; !gate.has_given_up());
    assert!(rt; ran.status == 0);
    assert!(rt; ran.has_closed);
    assert!(rt; responses(&rt, alloc, &first).as_str() == "200 OK: Auctions\n");
    let failed = "500 Internal Server Error: Failed\n"
        .repeat(alloc, 3)
        .expect(&rt, "lines");
    assert!(rt; responses(&rt, alloc, &second) == failed);
    assert!(rt; log_of(&rt, &ran) == "boot 1 started over 0 rows\nrebooted Web, down for 0 ms\n");
}
