//! Laws of what a server has run. Each is the contract of a function that does nothing: a caller that needs the law
//! calls the function.

ghost use Rattle.std.specs.Prelude.{◌≡◌, ◌⊎◌, ◌-◌, ◌≤◌, ℕ, suc, All, List, [], ◌∷◌, length};
ghost use Rattle.std.specs.List.{filter};
ghost use Rattle.auction_rows.specs.Parts.{site_parts};
ghost use Rattle.boot_core.specs.Sound.{AreOwned};
ghost use Rattle.boot_core.specs.declared.refusals.StartRefusal.TheVariants as refusals;
ghost use Rattle.component_pool.specs.Plans.{left_by_process};
ghost use Rattle.container_core.specs.Container.{ContainerValue, HasGrownBy, HoldsRows};
ghost use Rattle.container_core.specs.History.{entries_in, is_start, is_stop};
ghost use Rattle.container_core.specs.Start.{IsRefusedStart, IsStarted};
ghost use Rattle.container_server.specs.Running.{RanBoots, RanOver, ServerSeen, plans_behind, seen};
ghost use Rattle.crash_base.specs.declared.fault_plans.FaultPlan.{FaultPlan};
ghost use Rattle.crash_base.specs.declared.row_id.RowId.{RowId};
ghost use Rattle.journal_model.specs.Legal.{IsLegal};
ghost use Rattle.journal_model.specs.Limits.{IsWithin};
ghost use Rattle.journal_model.specs.Rows.{rows_after};
ghost use Rattle.journal_model.specs.declared.limits.TheConstants.{MAX_ENTRIES, MAX_JOURNAL_BYTES};
ghost use Rattle.outside.specs.Faults.{Rose};
ghost use Rattle.service_log.specs.Ending.{end_line};
ghost use Rattle.service_log.specs.Logging.{LogsEvents, WritesLine};
ghost use Rattle.service_log.specs.declared.ending.ServiceEnd.{ServiceEnd};
ghost use Rattle.service_log.specs.declared.ending.ServiceEnd.TheVariants as ends;
ghost use Rattle.service_log.specs.declared.event.ServiceEvent.{ServiceEvent};
ghost use Rattle.service_log.specs.declared.event.ServiceEvent.TheVariants.{Started};

use crate::gate::Gate;

/// Before the first boot of a server nothing happened (`none`). The last one came over the keeper that those before it
/// left, and so did each of them (`last`). Its container was started over what that keeper told, with the limits of a
/// journal of the service, and grew. The journal is legal and within its limits, and each commit wrote only rows of
/// tables whose owners' groups it entered. It is the entries of the container's history, in which there is no second
/// start and at most one stop. The boot left the container's keeper, which holds just the rows that the journal leaves,
/// where it tells. Of the boot there was written the line of its start, with its number, and with how many rows it was
/// started over beside that of the number; and behind it lines of what else happened, none of a start. Each of these
/// lines is whole, or left out; or a part of it, where a write failed. The first boot has the plans that were given
/// (`plans`), and one behind others those that a restart leaves (`fewer`).
pub fn boots_follow_each_other()
    ensures none { (plans : List FaultPlan) (before after : ServerSeen) → RanBoots plans 0 before after → after ≡ before }
    ensures last { (plans : List FaultPlan) (boots : ℕ) (before after : ServerSeen)
        → RanBoots plans (suc boots) before after
        → (between : ServerSeen) × (started ended : ContainerValue) × RanBoots plans boots before between
        × IsStarted site_parts (plans_behind boots plans)
        (record { entries = MAX_ENTRIES; bytes = MAX_JOURNAL_BYTES }) between.keeper.told started
        × HasGrownBy started ended
        × IsLegal ended.boot.start.base ended.boot.entries
        × IsWithin ended.boot.start.limits ended.boot.entries
        × AreOwned ended.boot.start.deployment ended.boot.entries
        × (entries_in ended.since ≡ ended.boot.entries)
        × (filter is_start ended.since ≡ []) × (length (filter is_stop ended.since) ≤ 1)
        × (after.keeper ≡ seen ended.told ended.faults) × HoldsRows ended.told ended.boot
        × ((events : List ServiceEvent)
        × LogsEvents site_parts (Started started.boot.start.boot
        (length (rows_after started.boot.start.base []) - 1) ∷ events) between.log after.log
        × All (λ (event : ServiceEvent). (boot rows : ℕ) → event ≡ Started boot rows → ⊥) events) }
    ensures plans { (plans : List FaultPlan) → plans_behind 0 plans ≡ plans }
    ensures fewer { (plans : List FaultPlan) (boots : ℕ)
        → plans_behind (suc boots) plans ≡ left_by_process (plans_behind boots plans) }
{}

/// A server that has ended ran boots one after another, perhaps none, but one or more where no more connections came.
/// The fault plans of the first, if there is one, are such as its gate may give. Where no more connections came, the
/// keeper that is handed back is as the last boot left it. Where the keeper failed, a start over that keeper was
/// refused for this, and its count of faults rose; where a row was bad, or the number of the last boot was the
/// greatest, a start was refused for just that. Where memory ran out, the keeper is as it was left; or a start was
/// refused, for that or for a bad row. The line of the end stands behind what was written of the boots, or a part of it
/// where a write failed.
pub fn servers_end_over_their_last_boot<G: Gate>()
    ensures { (gate : G) (end : ServiceEnd) (before after : ServerSeen)
        → RanOver (G.plans gate) end before after
        → (plans : List FaultPlan) × (boots : ℕ) × (last : ServerSeen) × RanBoots plans boots before last
        × (1 ≤ boots → G.plans gate plans)
        × (end ≡ ends.Closed → (1 ≤ boots) × (after.keeper ≡ last.keeper))
        × (end ≡ ends.KeeperFailed → IsRefusedStart refusals.KeeperFailed last.keeper.told after.keeper.told
        × Rose last.keeper.faults after.keeper.faults)
        × ((id : RowId) → end ≡ ends.BadRow id
        → IsRefusedStart (refusals.BadRow id) last.keeper.told after.keeper.told)
        × (end ≡ ends.BootsSpent → IsRefusedStart refusals.BootsSpent last.keeper.told after.keeper.told)
        × (end ≡ ends.OutOfMemory → (after.keeper ≡ last.keeper)
        ⊎ (IsRefusedStart refusals.OutOfMemory last.keeper.told after.keeper.told
        ⊎ ((id : RowId) × IsRefusedStart (refusals.BadRow id) last.keeper.told after.keeper.told)))
        × WritesLine (end_line end) last.log after.log }
{}
