//! Over which rows a container starts, and what its keeper holds then.

use crate::boot_fixtures::{LIMITS, plan_list};
use crate::container_fixtures::SHOP;
use crate::keepers::{GivenKeeper, add_kept, failing_keeper};
use crate::kept_words::add_short_row;
use crate::parts::deployment_of;
use crate::words::{add_id, add_named, add_pair, add_word, byte, cut, expect_words, id, number};
use container_core::{Container, StartFail, StartRefusal};
use crash_base::{Place, RowBytes, RowList, RowWrite};
use outside::{Keeper, MapKeeper};
use std::alloc::Global;
use std::process::Abort;

/// The row that a text spells: its id, and a byte and how often it is there, as `3.7*255*4`.
fn repeated(rt: &impl Abort, alloc: Global, text: &str) -> RowWrite {
    let (row, bytes) = cut(rt, text, '*');
    let (value, count) = cut(rt, bytes, '*');
    let bytes = vec![in alloc; byte(rt, value); number(rt, count) as usize].expect(rt, text);
    RowWrite {
        id: id(rt, row),
        bytes: RowBytes::from_vec(bytes),
    }
}

fn repeated_rows(rt: &impl Abort, alloc: Global, text: &str) -> RowList {
    let mut rows = RowList::new(alloc);
    for word in text.split(' ') {
        if !word.is_empty() {
            rows.push(repeated(rt, alloc, word)).expect(rt, word);
        }
    }
    rows
}

/// Adds why a container was not started.
pub fn add_start_refusal(rt: &impl Abort, words: &mut String, refusal: StartRefusal) {
    match refusal {
        StartRefusal::KeeperFailed => add_word(rt, words, "keeper_failed"),
        StartRefusal::BadRow { id } => add_id(rt, words, id),
        StartRefusal::BootsSpent => add_word(rt, words, "boots_spent"),
        StartRefusal::OutOfMemory => add_word(rt, words, "out_of_memory"),
    }
}

/// Adds the current rows of a container, in order of id.
pub fn add_rows<K: Keeper + Drop>(
    rt: &impl Abort,
    alloc: Global,
    words: &mut String,
    container: &Container<K>,
) {
    let at = Place(container.journal().len());
    let rows = container.rows().all_at(alloc, at).expect(rt, "the rows");
    for row in rows.as_slice() {
        add_short_row(rt, words, row);
    }
}

/// Adds the number of a container's boot, and its current rows.
pub fn add_boot<K: Keeper + Drop>(
    rt: &impl Abort,
    alloc: Global,
    words: &mut String,
    container: &Container<K>,
) {
    add_named(rt, words, "boot", u64::from(container.boot()));
    add_rows(rt, alloc, words, container);
}

/// Starts a container and adds its boot, or why there is none. The keeper is handed back in each case.
fn add_start<K: Keeper + Drop>(rt: &impl Abort, alloc: Global, words: &mut String, keeper: K) -> K {
    let deployment = deployment_of(rt, alloc, SHOP);
    match Container::start(alloc, deployment, keeper, plan_list(rt, alloc, &[]), LIMITS) {
        Ok(container) => {
            add_boot(rt, alloc, words, &container);
            container.into_keeper()
        }
        Err(StartFail { refusal, keeper }) => {
            add_start_refusal(rt, words, refusal);
            keeper
        }
    }
}

/// The rows that a keeper holds in order of id, with the number of its call that fails before them. After a bar
/// stands the boot, or what refuses the start; the number of calls and of faults; and what the keeper holds at the end.
const STARTS: &str = "0||boot1 0.0=00000001 2/0 0.0=00000001
0|0.0*0*4|boot1 0.0=00000001 2/0 0.0=00000001
0|0.0*1*4|boot16843010 0.0=01010102 2/0 0.0=01010102
0|0.0*254*4|boot4278124287 0.0=fefefeff 2/0 0.0=fefefeff
0|0.0*255*4 3.1*7*2|boots_spent 1/0 0.0=ffffffff 3.1=0707
0|3.1*7*2 200.9*8*1|boot1 0.0=00000001 3.1=0707 200.9=08 2/0 0.0=00000001 3.1=0707 200.9=08
0|3.1*7*4096 3.2*7*0|boot1 0.0=00000001 3.1#4096 3.2= 2/0 0.0=00000001 3.1#4096 3.2=
0|3.1*7*4097|3.1 1/0 3.1#4097
0|0.1*0*4|0.1 1/0 0.1=00000000
0|0.18446744073709551615*0*4 1.1*0*1|0.18446744073709551615 1/0 0.18446744073709551615=00000000 1.1=00
0|0.0*0*3|0.0 1/0 0.0=000000
0|0.0*0*5|0.0 1/0 0.0=0000000000
0|0.0*0*0|0.0 1/0 0.0=
0|0.0*255*4 0.1*0*4|0.1 1/0 0.0=ffffffff 0.1=00000000
0|3.9*7*4097 3.5*7*4097 3.1*7*1|3.5 1/0 3.1=07 3.5#4097 3.9#4097
0|9.1*7*4097 0.7*0*1|0.7 1/0 0.7=00 9.1#4097
1|3.1*7*2|keeper_failed 1/1 3.1=0707
2|3.1*7*2|keeper_failed 2/1 3.1=0707
1|0.1*0*4|keeper_failed 1/1 0.1=00000000
2|0.1*0*4|0.1 1/0 0.1=00000000
3|3.1*7*2|boot1 0.0=00000001 3.1=0707 2/0 0.0=00000001 3.1=0707";

/// Adds how often a keeper was called, and how often it has failed.
pub fn add_calls(rt: &impl Abort, words: &mut String, keeper: &MapKeeper) {
    add_pair(rt, words, keeper.calls(), "/", keeper.faults());
}

fn expect_start(rt: &impl Abort, alloc: Global, row: &str) {
    let (failing, text) = cut(rt, row, '|');
    let (rows, want) = cut(rt, text, '|');
    let rows = repeated_rows(rt, alloc, rows);
    let keeper = failing_keeper(rt, alloc, rows, number(rt, failing));
    let mut words = String::new(alloc);
    let mut keeper = add_start(rt, alloc, &mut words, keeper);
    add_calls(rt, &mut words, &keeper);
    add_kept(rt, alloc, &mut words, &mut keeper);
    expect_words(rt, &words, want, row);
}

/// The rows that a keeper gives in this order, and after a bar the boot, or what refuses the start.
const GIVEN: &str = "5.1*1*1 3.1*2*1 5.0*3*1|boot1 0.0=00000001 3.1=02 5.0=03 5.1=01
5.1*1*1 0.0*1*4|boot16843010 0.0=01010102 5.1=01
3.1*1*1 3.1*1*1|3.1
5.1*1*1 3.1*1*1 5.1*2*1|5.1
5.1*1*1 3.1*1*1 3.1*1*1 5.1*2*1|3.1
0.0*1*4 0.0*1*4|0.0
3.1*1*1 0.0*255*4 0.0*1*4|0.0
5.1*1*1 0.0*255*4 3.1*1*1|boots_spent
9.1*0*4097 0.1*0*1|9.1
5.1*1*1 3.1*1*1 3.2*1*4097 5.1*2*1|3.2
5.1*1*1 3.1*1*1 0.3*0*4 5.1*2*1|0.3";

fn expect_given(rt: &impl Abort, alloc: Global, row: &str) {
    let (rows, want) = cut(rt, row, '|');
    let rows = repeated_rows(rt, alloc, rows);
    let mut words = String::new(alloc);
    add_start(rt, alloc, &mut words, GivenKeeper { rows });
    expect_words(rt, &words, want, row);
}

/// A container starts over the rows of its keeper, and judges those that are out of order.
#[test]
fn containers_start_over_rows(rt: HostRuntime) {
    for row in STARTS.split('\n') {
        expect_start(&rt, rt.alloc(), row);
    }
    for row in GIVEN.split('\n') {
        expect_given(&rt, rt.alloc(), row);
    }
}
