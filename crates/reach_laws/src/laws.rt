//! Laws of the programs of the sixteen actions. Each is the contract of a function that does nothing: a caller that
//! needs the law calls the function.

ghost use Rattle.std.specs.Prelude.{◌≡◌, ◌↔◌, ℕ, List, Some, true};
ghost use Rattle.crash_base.specs.declared.numbers.ComponentNo.{ComponentNo};
ghost use Rattle.crash_base.specs.declared.numbers.GroupNo.{GroupNo};
ghost use Rattle.crash_base.specs.declared.rows.RowWrite.{RowWrite};
ghost use Rattle.call_ticket.specs.declared.next.Answer.{Answer};
ghost use Rattle.call_ticket.specs.declared.next.Next.{Next};
ghost use Rattle.call_ticket.specs.declared.next.Next.TheVariants as next;
ghost use Rattle.call_attempts.specs.Attempt.{Accesses, EntersGroup, EntersOnce};
ghost use Rattle.auction_calls.specs.declared.action.Action.{Action};
ghost use Rattle.auction_calls.specs.declared.action.Action.TheVariants.{Buy};
ghost use Rattle.auction_calls.specs.declared.action.ActionCall.{ActionCall};
ghost use Rattle.auction_calls.specs.Texts.{action_number};
ghost use Rattle.auction_rows.specs.Parts.{site_parts};
ghost use Rattle.auction_site.specs.Actions.{steps_of};
ghost use Rattle.auction_site.specs.Reached.{is_among, reach_of};
ghost use Rattle.reach_laws.specs.Uses.{ComesTo, MayEnter, MayEnterGroup, Use, allows, has_table, use_of};

/// After whatever answers, a call enters Web by its method `call`, the component that its action goes through by the
/// method for that, and the owner of a table that the action reaches by its method `call`: no other component, and
/// none by another method. So each group that it enters is that of such a component.
pub fn calls_enter_owners()
    ensures component { (call : ActionCall) (answers : List Answer) (component : ComponentNo) (method : ℕ) →
        steps_of call answers ≡ next.Enter component method → MayEnter call.action component method }
    ensures group { (call : ActionCall) (group : GroupNo) → EntersGroup site_parts (steps_of call) group →
        MayEnterGroup call.action group }
{}

/// After whatever answers, each table of which a call reads, lists or puts rows is one that its action reaches. If it
/// puts a row there, it is one of which the action may put rows.
pub fn calls_access_reached_tables()
    ensures accesses { (call : ActionCall) (table : ℕ) → Accesses (steps_of call) table →
        has_table (reach_of call.action) table ≡ true }
    ensures puts { (call : ActionCall) (answers : List Answer) (row : RowWrite) →
        steps_of call answers ≡ next.Put row → is_among (reach_of call.action).puts row.id.table ≡ true }
{}

/// A call enters a component by a method that may not be called again, after some answers, exactly where it is a
/// purchase.
pub fn purchases_enter_once()
    ensures { (call : ActionCall) → EntersOnce site_parts (steps_of call)
        ↔ ((item : ℕ) × (call.action ≡ Buy item)) }
{}

/// An action reaches no further than its calls go. It may enter a component, or read, list or put rows of a table,
/// exactly where some call of the action of its number does so over some rows, with other fields perhaps; and so may it
/// enter a component by a method exactly where some such call does.
pub fn reaches_are_exact()
    ensures uses { (action : Action) (u : Use) → (allows (reach_of action) u ≡ true)
        ↔ ComesTo (action_number action) (λ (x : Next). use_of x ≡ Some u) }
    ensures methods { (action : Action) (component : ComponentNo) (method : ℕ) → MayEnter action component method
        ↔ ComesTo (action_number action) (λ (x : Next). x ≡ next.Enter component method) }
{}
