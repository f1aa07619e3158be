//! What happens besides: groups go down and come up, bricks crash, frames are lost, passes are held.

use crate::words::{first_word, number, small};
use crash_base::{BrickNo, GroupNo, Moment, Place, RequestNo, Scope, WorkerNo};
use memory_site::MemorySite;
use std::alloc::Global;
use std::process::Abort;

/// A group, or all.
fn scope_of(rt: &impl Abort, word: &str) -> Scope {
    if word == "app" {
        Scope::App
    } else {
        Scope::Group(GroupNo(small(rt, word)))
    }
}

/// Reboots a group, or all.
fn reboot(rt: &impl Abort, site: &mut MemorySite, word: &str) -> bool {
    let down = Place(site.container().journal().len());
    let scope = scope_of(rt, word);
    site.go_down(scope).expect(rt, "memory") && site.come_up(down)
}

/// Makes something happen to a brick. Whether it did.
fn strike(rt: &impl Abort, site: &mut MemorySite, word: &str, rest: &str) -> bool {
    let (brick, count) = first_word(rest);
    let brick = BrickNo(small(rt, brick));
    match word {
        "crash" => site.crash(brick),
        "lose" => site.lose(brick, number(rt, count)),
        "mute" => site.drop_asks(brick, number(rt, count)),
        "sweep" => site.sweep(brick, Moment(number(rt, count))),
        "hold" => site.hold_pass(brick),
        _ => false,
    }
}

/// Makes something happen: `now MOMENT`, `down GROUP`, `up PLACE`, `reboot GROUP`, or to a brick `crash B`, `lose B N`,
/// `mute B N` or `sweep B MOMENT`; `hold B`, which takes a pass; or `call SERIAL`, a commit of a request without an
/// action.
pub fn happen(rt: &impl Abort, alloc: Global, site: &mut MemorySite, line: &str) {
    let (word, rest) = first_word(line);
    let happened = match word {
        "now" => site.set_clock(Moment(number(rt, rest))),
        "down" => site.go_down(scope_of(rt, rest)).expect(rt, "memory"),
        "up" => site.come_up(Place(number(rt, rest))),
        "reboot" => reboot(rt, site, rest),
        "call" => {
            let serial = number(rt, rest);
            site.commit_call(alloc, RequestNo { boot: 1, serial }, WorkerNo(9))
                .expect(rt, "memory")
        }
        _ => strike(rt, site, word, rest),
    };
    assert!(rt; happened, "{line}");
}
