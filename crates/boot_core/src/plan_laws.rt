//! Laws of fault plans in a boot, as contracts of functions that do nothing.

ghost use Rattle.std.specs.Prelude.{◌≡◌, ◌≢◌, ◌<◌, ◌⊎◌, ◌↔◌, ◌+◌, ◌&&◌, ℕ, length, not, true, false, None, Some, All};
ghost use Rattle.crash_base.specs.declared.fault_plans.FaultKind.TheVariants.{Raise, Hang, Leak};
ghost use Rattle.crash_base.specs.declared.fault_plans.FaultPlan.{FaultPlan};
ghost use Rattle.crash_base.specs.declared.numbers.ComponentNo.{ComponentNo};
ghost use Rattle.crash_base.specs.declared.scope.Scope.{Scope};
ghost use Rattle.crash_base.specs.Scope.{holds};
ghost use Rattle.deployment.specs.Groups.{group_of};
ghost use Rattle.journal_model.specs.declared.entry.CommitEntry.{CommitEntry};
ghost use Rattle.journal_model.specs.declared.entry.Entry.TheVariants.{Commit, Down, Up};
ghost use Rattle.journal_model.specs.Calls.{Call};
ghost use Rattle.component_pool.specs.Cures.{cures, level_of};
ghost use Rattle.component_pool.specs.Plans.{counted};
ghost use Rattle.component_pool.specs.Pool.{times};
ghost use Rattle.boot_core.specs.Boot.{BootValue, with_entered, with_entry};
ghost use Rattle.boot_core.specs.Faults.{fault_of, makes_fail_in, IsFirstFault};
ghost use Rattle.boot_core.specs.Refusals.{barred, enter_refusal};
ghost use Rattle.boot_core.specs.declared.refusals.CallRefusal.{CallRefusal};
ghost use Rattle.boot_core.specs.declared.refusals.CallRefusal.TheVariants.{Hung, Raised};

/// An enter that nothing bars fails exactly by the first active plan of its component: the component raises or hangs as
/// that plan says, and it is entered where that plan leaks, or none is active. What bars an enter comes first.
pub fn enters_fail_by_plans()
    ensures barred { (b : BootValue) (call : Call) (c : ComponentNo) (refusal : CallRefusal) →
        barred b.entries call (group_of b.start.deployment c.0) ≡ Some refusal →
        enter_refusal b call c ≡ Some refusal }
    ensures raised { (b : BootValue) (call : Call) (c x : ComponentNo) (n : ℕ) →
        barred b.entries call (group_of b.start.deployment c.0) ≡ None →
        (enter_refusal b call c ≡ Some (Raised x n)) ↔ ((x ≡ c) × IsFirstFault b c n Raise) }
    ensures hung { (b : BootValue) (call : Call) (c x : ComponentNo) (n : ℕ) →
        barred b.entries call (group_of b.start.deployment c.0) ≡ None →
        (enter_refusal b call c ≡ Some (Hung x n)) ↔ ((x ≡ c) × IsFirstFault b c n Hang) }
    ensures entered { (b : BootValue) (call : Call) (c : ComponentNo) →
        barred b.entries call (group_of b.start.deployment c.0) ≡ None →
        (enter_refusal b call c ≡ None) ↔ (All (λ plan. makes_fail_in b c plan ≡ false) b.start.plans
        ⊎ ((n : ℕ) × IsFirstFault b c n Leak)) }
{}

/// A reboot ends, of the plans that make a component of its groups fail, just those that its level cures. No other
/// entry changes what a component fails by, and neither does an enter of another component. An enter counts one more of
/// its own component, and leaves the counts of all others.
pub fn reboots_end_faults()
    ensures down { (b : BootValue) (s : Scope) (c : ComponentNo) (plan : FaultPlan) →
        holds s (group_of b.start.deployment c.0) ≡ true → makes_fail_in (with_entry b (Down s)) c plan
        ≡ (makes_fail_in b c plan && not (cures (level_of s) plan.cured_by)) }
    ensures beside { (b : BootValue) (s : Scope) (c : ComponentNo) →
        holds s (group_of b.start.deployment c.0) ≡ false →
        fault_of (with_entry b (Down s)) c ≡ fault_of b c }
    ensures up { (b : BootValue) (s : Scope) (c : ComponentNo) →
        fault_of (with_entry b (Up s)) c ≡ fault_of b c }
    ensures commit { (b : BootValue) (e : CommitEntry) (c : ComponentNo) →
        fault_of (with_entry b (Commit e)) c ≡ fault_of b c }
    ensures others { (b : BootValue) (c x : ComponentNo) → c.0 ≢ x.0 →
        fault_of (with_entered b x) c ≡ fault_of b c }
    ensures counted { (b : BootValue) (c : ComponentNo) → c.0 < length b.entered →
        times (with_entered b c).entered c.0 ≡ counted (times b.entered c.0 + 1) }
    ensures uncounted { (b : BootValue) (c x : ComponentNo) → c.0 ≢ x.0 →
        times (with_entered b x).entered c.0 ≡ times b.entered c.0 }
{}
