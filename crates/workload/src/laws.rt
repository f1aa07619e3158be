//! Laws of the workload. Each is the contract of a function that does nothing: a caller that needs the law calls the
//! function.

ghost use Rattle.std.specs.Prelude.{◌≡◌, ◌≢◌, ◌≤◌, ◌<◌, ◌+◌, ℕ, Bool, List, [], ◌∷◌, ◌++◌, length, map};
ghost use Rattle.deployment.specs.Groups.{group_of};
ghost use Rattle.deployment.specs.Parts.{component_no};
ghost use Rattle.boot_core.specs.Boot.{BootValue, new_boot};
ghost use Rattle.boot_core.specs.declared.boot.Start.{Start};
ghost use Rattle.line_steps.specs.Callers.{caller_at};
ghost use Rattle.workload.specs.Choices.{next_number, deed_of, chosen};
ghost use Rattle.workload.specs.Parts.{work_parts};
ghost use Rattle.workload.specs.Summary.{commit_count, commits_line, summary};
ghost use Rattle.workload.specs.Tally.{answers};
ghost use Rattle.workload.specs.Turns.{Work, turn, worked, entered_by};
ghost use Rattle.workload.specs.declared.choices.Deed.TheVariants as deeds;
ghost use Rattle.workload.specs.declared.deploying.TheConstants.{A, B, C};

/// Each number chooses one of four callers and one of sixteen keys. Of eight draws in a row of what is done three put,
/// one reads, one lists, two commit and one reboots. From the number 0 the first that is drawn has caller 4 begin, who
/// enters C.
pub fn choices_are_drawn()
    ensures callers { (x : ℕ) → (1 ≤ (chosen x).caller) × ((chosen x).caller ≤ 4) }
    ensures keys { (x : ℕ) → (chosen x).key < 16 }
    ensures deeds { map deed_of (0 ∷ 1 ∷ 2 ∷ 3 ∷ 4 ∷ 5 ∷ 6 ∷ 7 ∷ [])
        ≡ deeds.Put ∷ deeds.Put ∷ deeds.Put ∷ deeds.Read ∷ deeds.List ∷ deeds.Commit ∷ deeds.Commit
        ∷ deeds.Reboot ∷ [] }
    ensures first { next_number 0 ≡ 0x1405_7b7e_f767_814f }
    ensures begins { ((chosen (next_number 0)).caller ≡ 4)
        × (entered_by (chosen (next_number 0)).key ≡ component_no C) }
{}

/// A reboot of A takes B with it, and leaves C.
pub fn two_groups_are_deployed()
    ensures { (group_of work_parts A ≡ 0) × (group_of work_parts B ≡ 0) × (group_of work_parts C ≡ 2) }
{}

/// A turn changes at most what the caller that is chosen has in hand, and at most one call is answered in it. So no
/// more calls are counted than turns were taken.
pub fn turns_change_one_caller()
    ensures others { (w : Work) (keeps : Bool) (n : ℕ) → n ≢ (chosen (next_number w.number)).caller →
        caller_at (turn w keeps).callers n ≡ caller_at w.callers n }
    ensures answers { (w : Work) (keeps : Bool) → answers (turn w keeps).tally ≤ answers w.tally + 1 }
    ensures turns { (number : ℕ) (b : BootValue) (replies : List Bool) →
        (worked number b replies).turns ≡ length replies }
    ensures counted { (number : ℕ) (b : BootValue) (replies : List Bool) →
        answers (worked number b replies).tally ≤ length replies }
{}

/// The calls that are counted as committed are the commits of the journal. So a workload over a boot that was just
/// started says in the first line of its summary how many commits its journal has.
pub fn commits_are_those_of_the_journal()
    ensures counted { (number : ℕ) (b : BootValue) (replies : List Bool) →
        commit_count (worked number b replies).boot.entries
        ≡ commit_count b.entries + (worked number b replies).tally.commits }
    ensures written { (number : ℕ) (start : Start) (replies : List Bool) → (rest : List ℕ)
        × (summary (worked number (new_boot start) replies)
        ≡ commits_line (commit_count (worked number (new_boot start) replies).boot.entries) ++ rest) }
{}
