//! Laws of programs in a boot, as contracts of functions that do nothing.

ghost use Rattle.std.specs.Prelude.{◌≡◌, ◌≢◌, ◌≤◌, ℕ, List, [], ◌∷◌, ◌++◌, length, None};
ghost use Rattle.crash_base.specs.declared.numbers.ComponentNo.{ComponentNo};
ghost use Rattle.crash_base.specs.declared.row_id.RowId.{RowId};
ghost use Rattle.crash_base.specs.declared.rows.RowWrite.{RowWrite};
ghost use Rattle.deployment.specs.declared.parts.Parts.{Parts};
ghost use Rattle.journal_model.specs.declared.entry.Entry.{Entry};
ghost use Rattle.journal_model.specs.Calls.{Call, seen, listed};
ghost use Rattle.journal_model.specs.Reboots.{down_of};
ghost use Rattle.journal_model.specs.Snapshots.{snapshot};
ghost use Rattle.journal_model.specs.Stale.{stale_in};
ghost use Rattle.deployment.specs.Groups.{group_of};
ghost use Rattle.call_ticket.specs.declared.next.Answer.{Answer};
ghost use Rattle.call_ticket.specs.declared.next.Answer.TheVariants as answer;
ghost use Rattle.call_ticket.specs.declared.next.Next.{Next};
ghost use Rattle.call_ticket.specs.declared.next.Next.TheVariants as next;
ghost use Rattle.call_ticket.specs.Following.{MakesStep, MayMake};
ghost use Rattle.call_ticket.specs.Ticket.{TicketValue, ticket_kept, ticket_left};
ghost use Rattle.boot_core.specs.Boot.{BootValue, HasGrown};
ghost use Rattle.boot_core.specs.Refusals.{barred, exit_refusal, read_refusal, list_refusal, put_refusal};
ghost use Rattle.boot_core.specs.Steps.{ticket_entered, ticket_has_read, ticket_has_listed};

/// A step that a call may make, as a call that follows its program may make each, is refused only by a reboot: where
/// the call is revoked, or the group that it enters is down. An enter that nothing bars may fail besides by a fault
/// plan of its component, as `enters_fail_by_plans` says.
pub fn programs_pass_no_limit()
    ensures enter { (parts : Parts) (es : List Entry) (call : Call) (c : ComponentNo) (m g : ℕ) →
        MayMake parts call (next.Enter c m) → stale_in es call.touched ≡ None →
        down_of es g ≡ None → barred es call g ≡ None }
    ensures read { (parts : Parts) (es : List Entry) (call : Call) (id : RowId) →
        MayMake parts call (next.Read id) → stale_in es call.touched ≡ None →
        read_refusal es call id ≡ None }
    ensures list { (parts : Parts) (es : List Entry) (call : Call) (t : ℕ) →
        MayMake parts call (next.List t) → stale_in es call.touched ≡ None →
        list_refusal es call t ≡ None }
    ensures put { (parts : Parts) (es : List Entry) (call : Call) (w : RowWrite) →
        MayMake parts call (next.Put w) → stale_in es call.touched ≡ None →
        put_refusal es call w.id ≡ None }
    ensures exit { (parts : Parts) (es : List Entry) (call : Call) →
        MayMake parts call next.Exit → stale_in es call.touched ≡ None →
        exit_refusal es call ≡ None }
{}

/// The steps of a boot are those that a program's call follows, over the rows at its begin: what `Boot::enter`, `read`,
/// `list`, `put` and `exit` answer and leave of a ticket is just what `MakesStep` says of such a step. Each step but an
/// enter has one answer and leaves one call; an enter opens one frame, and leaves what was read and put. The rows at
/// the begin stay as they are while the boot grows. So a kind of step that no call could make is refused, and so is one
/// after which a call might be anything.
pub fn boot_steps_follow()
    ensures enter { (c : BootValue) (ticket : TicketValue) (x : ComponentNo) (m : ℕ) →
        MakesStep (snapshot c.start.base c.entries ticket.call.at.0) ticket.call (next.Enter x m) answer.Entered
        (ticket_entered c.entries (group_of c.start.deployment x.0) x ticket).call }
    ensures read { (c : BootValue) (ticket : TicketValue) (id : RowId) →
        MakesStep (snapshot c.start.base c.entries ticket.call.at.0) ticket.call (next.Read id)
        (answer.Row (seen (snapshot c.start.base c.entries ticket.call.at.0) ticket.call.writes id))
        (ticket_has_read (snapshot c.start.base c.entries ticket.call.at.0) id ticket).call }
    ensures list { (c : BootValue) (ticket : TicketValue) (t : ℕ) →
        MakesStep (snapshot c.start.base c.entries ticket.call.at.0) ticket.call (next.List t)
        (answer.Rows (listed (snapshot c.start.base c.entries ticket.call.at.0) ticket.call.writes t))
        (ticket_has_listed t ticket).call }
    ensures put { (c : BootValue) (ticket : TicketValue) (w : RowWrite) →
        MakesStep (snapshot c.start.base c.entries ticket.call.at.0) ticket.call (next.Put w) answer.Kept
        (ticket_kept w ticket).call }
    ensures exit { (c : BootValue) (ticket : TicketValue) →
        MakesStep (snapshot c.start.base c.entries ticket.call.at.0) ticket.call next.Exit answer.Left
        (ticket_left ticket).call }
    ensures one { (rows : List RowWrite) (call after other : Call) (step : Next) (a b : Answer) →
        ((x : ComponentNo) (m : ℕ) → step ≢ next.Enter x m) → MakesStep rows call step a after →
        MakesStep rows call step b other → (a ≡ b) × (after ≡ other) }
    ensures opened { (rows : List RowWrite) (call after : Call) (x : ComponentNo) (m : ℕ) (a : Answer) →
        MakesStep rows call (next.Enter x m) a after → (a ≡ answer.Entered)
        × (after.frames ≡ call.frames ++ x ∷ []) × (after.marks ≡ call.marks) × (after.writes ≡ call.writes) }
    ensures meanwhile { (old new : BootValue) (at : ℕ) → HasGrown old new → at ≤ length old.entries →
        snapshot new.start.base new.entries at ≡ snapshot old.start.base old.entries at }
{}
