//! Laws of decisions. Each is the contract of a function that does nothing: a caller that needs the law calls the
//! function.

ghost use Rattle.std.specs.Prelude.{◌≡◌, ◌≢◌, ◌↔◌, ℕ, ◌+◌, ◌<◌, ◌≤◌, true, false, List, [], ◌∷◌, ◌++◌, length, Contains, All};
ghost use Rattle.crash_base.specs.declared.numbers.ComponentNo.{ComponentNo};
ghost use Rattle.crash_base.specs.declared.numbers.GroupNo.{GroupNo};
ghost use Rattle.crash_base.specs.declared.numbers.Level.{Level};
ghost use Rattle.crash_base.specs.declared.numbers.Level.TheVariants.{Group, Process};
ghost use Rattle.crash_base.specs.declared.numbers.Moment.{Moment};
ghost use Rattle.deployment.specs.declared.parts.Parts.{Parts};
ghost use Rattle.failure_scores.specs.declared.report.PathReport.{PathReport};
ghost use Rattle.failure_scores.specs.Scores.{score};
ghost use Rattle.recovery_manager.specs.declared.acts.TheConstants.{WIDENED_MILLISECONDS};
ghost use Rattle.recovery_manager.specs.declared.acts.Act.{Act};
ghost use Rattle.recovery_manager.specs.declared.decision.TheConstants.{REPORTS_TO_REBOOT};
ghost use Rattle.recovery_manager.specs.declared.decision.Decision.TheVariants.{None, Reboot};
ghost use Rattle.recovery_manager.specs.Decisions.{decision_of, own_group};
ghost use Rattle.failure_scores.specs.declared.report.FailureReport.{FailureReport};
ghost use Rattle.recovery_manager.specs.Events.{ManagerEvent, Reported, JournalFilled, acts_of, pending, last_moment, no_earlier, event_on, decided_in, events_and, events_after};
ghost use Rattle.recovery_manager.specs.Kept.{ManagerValue, StandsFor};
ghost use Rattle.recovery_manager.specs.Levels.{next_level, one_wider, width, counts_for};
ghost use Rattle.recovery_manager.specs.Telling.{new_manager, told, handed_on};

/// Nothing is decided on exactly where fewer than three reports count for each component of the deployment. Else the
/// reboot is for the component of the greatest score, and of several such for the one with the least number.
pub fn reports_bring_decisions()
    ensures reports { REPORTS_TO_REBOOT ≡ 3 }
    ensures none { (parts : Parts) (reports : List PathReport) (acts : List Act) (now : Moment)
        → (decision_of parts reports acts now ≡ None)
        ↔ ((c : ComponentNo) → c.0 < length parts.components → score reports c now < 3) }
    ensures reboot { (parts : Parts) (reports : List PathReport) (acts : List Act) (now : Moment) (c : ComponentNo)
        → c.0 < length parts.components → 3 ≤ score reports c now
        → ((d : ComponentNo) → d.0 < length parts.components → score reports d now ≤ score reports c now)
        → ((d : ComponentNo) → d.0 < c.0 → score reports d now < score reports c now)
        → decision_of parts reports acts now ≡ Reboot (next_level acts (own_group parts c) now) }
{}

/// The first reboot is of the group alone. Where acts of the last thirty seconds rebooted the group, the next one is
/// one wider than the widest of them.
pub fn levels_widen()
    ensures interval { WIDENED_MILLISECONDS ≡ 30000 }
    ensures first { (acts : List Act) (group : GroupNo) (now : Moment)
        → All (λ a. counts_for group.0 now a ≡ false) acts → next_level acts group now ≡ Group group }
    ensures wider { (acts : List Act) (group : GroupNo) (now : Moment) (widest : Act)
        → Contains acts widest → counts_for group.0 now widest ≡ true
        → All (λ a. counts_for group.0 now a ≡ true → width a.level ≤ width widest.level) acts
        → next_level acts group now ≡ one_wider widest.level }
{}

/// An act of more than thirty seconds ago widens nothing, and one of another group neither, wherever it stands.
pub fn old_acts_do_not_count()
    ensures old { (before after : List Act) (a : Act) (group : GroupNo) (now : Moment)
        → a.moment.0 + 30000 < now.0
        → next_level (before ++ a ∷ after) group now ≡ next_level (before ++ after) group now }
    ensures elsewhere { (before after : List Act) (a : Act) (group other : GroupNo) (now : Moment)
        → a.level ≡ Group other → other ≢ group
        → next_level (before ++ a ∷ after) group now ≡ next_level (before ++ after) group now }
{}

/// A reboot that a report brings consumes all reports, that one too. No other decision consumes any: a report that
/// brings nothing is kept beside those before it, and a full journal changes nothing of them. Each reboot is an act.
pub fn decisions_consume_reports()
    ensures reboot { (events : List ManagerEvent) (report : PathReport) (level : Level)
        → pending (events ++ Reported report (Reboot level) ∷ []) ≡ [] }
    ensures none { (events : List ManagerEvent) (report : PathReport)
        → pending (events ++ Reported report None ∷ []) ≡ pending events ++ report ∷ [] }
    ensures full { (events : List ManagerEvent) (moment : Moment)
        → pending (events ++ JournalFilled moment ∷ []) ≡ pending events }
    ensures reboot_act { (events : List ManagerEvent) (report : PathReport) (level : Level)
        → acts_of (events ++ Reported report (Reboot level) ∷ [])
        ≡ acts_of events ++ (record { moment = report.moment; level = level }) ∷ [] }
    ensures no_act { (events : List ManagerEvent) (report : PathReport)
        → acts_of (events ++ Reported report None ∷ []) ≡ acts_of events }
    ensures full_act { (events : List ManagerEvent) (moment : Moment)
        → acts_of (events ++ JournalFilled moment ∷ [])
        ≡ acts_of events ++ (record { moment = moment; level = Process }) ∷ [] }
{}

/// By what it keeps a manager decides on the next report just as by all events so far, and so as by all reports that it
/// was told, one after the other.
pub fn managers_decide_by_all_reports()
    ensures decision { (m : ManagerValue) (parts : Parts) (events : List ManagerEvent) (report : FailureReport)
        → StandsFor m parts events
        → (told m (handed_on m report)).decision
        ≡ decided_in (event_on parts events (no_earlier (last_moment events) report)) }
    ensures after { (m : ManagerValue) (parts : Parts) (events : List ManagerEvent) (report : FailureReport)
        → StandsFor m parts events
        → StandsFor (told m (handed_on m report)).manager parts (events_and parts events report) }
    ensures more { (parts : Parts) (reports : List FailureReport) (report : FailureReport)
        → events_after parts (reports ++ report ∷ []) ≡ events_and parts (events_after parts reports) report }
    ensures reports { (m : ManagerValue) (parts : Parts) (reports : List FailureReport) (report : FailureReport)
        → StandsFor m parts (events_after parts reports)
        → StandsFor (told m (handed_on m report)).manager parts (events_after parts (reports ++ report ∷ [])) }
{}

/// A new manager was told of nothing.
pub fn new_managers_were_told_nothing()
    ensures { (parts : Parts) → StandsFor (new_manager parts) parts [] }
{}
