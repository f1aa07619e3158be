//! What names are bound to while groups are rebooted.

ghost use Rattle.std.specs.Prelude.{◌≡◌, ◌<◌, ℕ};
ghost use Rattle.journal_model.specs.Statuses.{never_rebooted};
ghost use Rattle.naming_table.specs.Names.{status_at};

use crate::boot_fixtures::name;
use crate::parts::deployment_of;
use crate::words::{add_number, add_pair, add_word, expect_words};
use crash_base::{GroupNo, MAX_GROUPS, Place, Scope};
use naming_table::{Binding, Names};
use std::alloc::Global;
use std::process::Abort;

/// The names a, b and c, of which a needs b.
fn new_names(rt: &impl Abort, alloc: Global) -> Names
    ensures { (g : ℕ) → g < MAX_GROUPS → status_at result g ≡ never_rebooted }
{
    let deployment = deployment_of(rt, alloc, "+a +b +c 0-1");
    Names::new(alloc, &deployment).expect(rt, "names")
}

/// Adds what a name is bound to: `1.2` is component 1, whose group was rebooted twice, `0!7` a
/// sentinel for group 0, which is down by the Down at 7, and `-` nothing.
pub fn add_binding(rt: &impl Abort, words: &mut String, binding: Option<Binding>) {
    match binding {
        Some(
            Binding::Live {
                component,
                generation,
            },
        ) => add_pair(rt, words, u64::from(component.0), ".", generation),
        Some(Binding::Sentinel { group, down }) => {
            add_pair(rt, words, u64::from(group.0), "!", down.0)
        }
        None => add_word(rt, words, "-"),
    }
}

/// Asserts what a, b, c and d are bound to, and how often the last group was rebooted.
fn expect_names(rt: &impl Abort, alloc: Global, names: &Names, want: &str, case: &str) {
    let mut words = String::new(alloc);
    for letter in "a b c d".split(' ') {
        add_binding(
            rt,
            &mut words,
            names.look(&name(rt, alloc, letter.as_bytes())),
        );
    }
    add_number(
        rt,
        &mut words,
        names.status(GroupNo(MAX_GROUPS - 1)).generation,
    );
    expect_words(rt, &words, want, case);
}

#[test]
fn groups_and_the_application_are_rebooted(rt: HostRuntime) {
    let mut names = new_names(&rt, rt.alloc());
    expect_names(&rt, rt.alloc(), &names, "0.0 1.0 2.0 - 0", "new");
    names.set_down(GroupNo(0), Place(0));
    expect_names(&rt, rt.alloc(), &names, "0!0 0!0 2.0 - 0", "down");
    names.set_up(GroupNo(0));
    expect_names(&rt, rt.alloc(), &names, "0.1 1.1 2.0 - 0", "up");
    let mut names = new_names(&rt, rt.alloc());
    expect_names(&rt, rt.alloc(), &names, "0.0 1.0 2.0 - 0", "new");
    names.set_scope_down(Scope::App, Place(7));
    expect_names(&rt, rt.alloc(), &names, "0!7 0!7 2!7 - 1", "all down");
    names.set_scope_up(Scope::App);
    expect_names(&rt, rt.alloc(), &names, "0.1 1.1 2.1 - 1", "all up");
}
