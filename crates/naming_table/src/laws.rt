//! Laws above the definitions, as contracts of functions that do nothing.

ghost use Rattle.std.specs.Prelude.{◌≡◌, ◌≢◌, ◌<◌, ◌↔◌, ℕ, ◌+◌, ◌^◌, List, [], ◌∷◌, ◌++◌, length, true, false, Some, None, count_by, All, option_map};
ghost use Rattle.std.specs.List.{list_any};
ghost use Rattle.crash_base.specs.declared.numbers.Place.{Place};
ghost use Rattle.crash_base.specs.declared.scope.Scope.{Scope};
ghost use Rattle.crash_base.specs.Scope.{holds};
ghost use Rattle.deployment.specs.declared.parts.Parts.{Parts};
ghost use Rattle.deployment.specs.Groups.{group_no, group_of};
ghost use Rattle.deployment.specs.Parts.{named};
ghost use Rattle.journal_model.specs.declared.entry.CommitEntry.{CommitEntry};
ghost use Rattle.journal_model.specs.declared.entry.Entry.{Entry};
ghost use Rattle.journal_model.specs.declared.entry.Entry.TheVariants.{Commit};
ghost use Rattle.journal_model.specs.Legal.{MayBegin, MayEnd};
ghost use Rattle.journal_model.specs.Reboots.{generation, down_of};
ghost use Rattle.journal_model.specs.Statuses.{statuses_first};
ghost use Rattle.naming_table.specs.declared.binding.Binding.TheVariants.{Live, Sentinel};
ghost use Rattle.naming_table.specs.declared.bound.BoundName.{BoundName};
ghost use Rattle.naming_table.specs.Binding.{binding_in, component_binding};
ghost use Rattle.naming_table.specs.Names.{NamesValue, new_names, status_at, binding_now, Follows};
ghost use Rattle.naming_table.specs.Steps.{Step, SetDown, SetUp, after_steps, is_step_of, is_set_down_of};

use crash_base::MAX_GROUPS;

/// After a journal a name is bound to nothing exactly where no component has it, to its component with the
/// number of reboots of that one's group exactly where the group is up, and to a sentinel with the place of
/// the Down exactly where one keeps the group down.
pub fn bindings_show_groups()
    ensures nobody { (parts : Parts) (es : List Entry) (name : List ℕ) →
        (binding_in parts es name ≡ None) ↔ All (λ c. c.name ≢ name) parts.components }
    ensures up { (parts : Parts) (es : List Entry) (name : List ℕ) (c : ℕ) →
        named parts.components name ≡ Some c → down_of es (group_of parts c) ≡ None →
        binding_in parts es name
        ≡ Some (Live (record { 0 = c }) (generation es (group_of parts c))) }
    ensures down { (parts : Parts) (es : List Entry) (name : List ℕ) (c : ℕ) (place : Place) →
        named parts.components name ≡ Some c → down_of es (group_of parts c) ≡ Some place →
        binding_in parts es name ≡ Some (Sentinel (group_no (group_of parts c)) place) }
{}

/// Names that follow a journal still do after a commit, and a reboot that may begin or end in the journal
/// may begin or end in the names.
pub fn names_follow_journals()
    ensures commit { (names : NamesValue) (parts : Parts) (es : List Entry) (e : CommitEntry) →
        Follows names parts es → Follows names parts (es ++ Commit e ∷ []) }
    ensures up { (names : NamesValue) (parts : Parts) (es : List Entry) (scope : Scope) →
        Follows names parts es → MayBegin es scope →
        (g : ℕ) → g < MAX_GROUPS → holds scope g ≡ true → (status_at names g).down ≡ None }
    ensures few { (names : NamesValue) (parts : Parts) (es : List Entry) (scope : Scope) →
        Follows names parts es → length es + 1 < 2 ^ 64 →
        (g : ℕ) → g < MAX_GROUPS → holds scope g ≡ true →
        (status_at names g).generation + 1 < 2 ^ 64 }
    ensures down { (names : NamesValue) (parts : Parts) (es : List Entry) (scope : Scope) →
        Follows names parts es → MayEnd es scope →
        (g : ℕ) → g < MAX_GROUPS → holds scope g ≡ true → (status_at names g).down ≢ None }
{}

/// Whatever groups were set down and set up, in any order, a group's generation grew by one for each time
/// that it was set down, and it is up or down as its last step says, or as it was where there was none.
/// From new names on, its generation is that number alone.
pub fn last_step_counts()
    ensures generation { (names : NamesValue) (steps : List Step) (g : ℕ) →
        g < length names.statuses →
        (status_at (after_steps names steps) g).generation
        ≡ (status_at names g).generation + count_by (is_set_down_of g) steps }
    ensures down { (names : NamesValue) (before later : List Step) (g : ℕ) (place : Place) →
        g < length names.statuses → list_any (is_step_of g) later ≡ false →
        (status_at (after_steps names (before ++ SetDown g place ∷ later)) g).down ≡ Some place }
    ensures up { (names : NamesValue) (before later : List Step) (g : ℕ) →
        g < length names.statuses → list_any (is_step_of g) later ≡ false →
        (status_at (after_steps names (before ++ SetUp g ∷ later)) g).down ≡ None }
    ensures first { (bound : List BoundName) (steps : List Step) (g : ℕ) → g < MAX_GROUPS →
        (status_at (after_steps (record { bound = bound; statuses = statuses_first }) steps)
        g).generation ≡ count_by (is_set_down_of g) steps }
    ensures untouched { (names : NamesValue) (steps : List Step) (g : ℕ) →
        list_any (is_step_of g) steps ≡ false →
        status_at (after_steps names steps) g ≡ status_at names g }
    ensures bound { (names : NamesValue) (steps : List Step) →
        (after_steps names steps).bound ≡ names.bound }
{}

/// Whatever groups of new names were set down and set up, in any order, a look finds nothing exactly where
/// no component has the name, and else that component, with the status that its group then has.
pub fn looks_follow_steps()
    ensures { (parts : Parts) (steps : List Step) (name : List ℕ) →
        let names = after_steps (new_names parts) steps in
        binding_now names name
        ≡ option_map (λ c. component_binding parts c (status_at names (group_of parts c)))
        (named parts.components name) }
{}
