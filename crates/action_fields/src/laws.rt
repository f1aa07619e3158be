//! Laws of what a request asks for. Each is the contract of a function that does nothing: a caller that needs the law
//! calls the function.

ghost use Rattle.std.specs.Prelude.{◌≡◌, ◌↔◌, ℕ, List, Some, None, Ok, Err, true};
ghost use Rattle.action_fields.specs.Asked.{asked_action};
ghost use Rattle.action_fields.specs.Said.{IsSaid, route_of};
ghost use Rattle.action_fields.specs.Table.{IsRead, fields_of, first_bad};
ghost use Rattle.action_fields.specs.declared.form_field.FormField.{FormField};
ghost use Rattle.auction_calls.specs.Calls.{is_action};
ghost use Rattle.auction_calls.specs.declared.action.Action.{Action};
ghost use Rattle.site_routes.specs.Paths.{HasId};
ghost use Rattle.site_routes.specs.declared.path_actions.SiteAction.{SiteAction};

/// The field that is named is the first of the action's that is not said as it must be, and an action is read exactly
/// where each is: none is named that is said well, or that stands behind another one that is not.
pub fn bad_fields_are_first()
    ensures some { (asked : SiteAction) (query form : List ℕ) (field : FormField)
        → (asked_action asked query form ≡ Err field) ↔ (first_bad (fields_of asked query form) ≡ Some field) }
    ensures none { (asked : SiteAction) (query form : List ℕ)
        → IsRead asked query form ↔ (first_bad (fields_of asked query form) ≡ None) }
{}

/// An action is read exactly where it is the one that is asked for, the query and the form say each of its values in
/// the field of its name, and it is in the ranges of the auction, which no table of this crate narrows or widens. Where
/// a path leads has an id, as each path says one that leads to an action. So no call of what was read is refused for a
/// field.
pub fn actions_are_read_exactly()
    ensures { (asked : SiteAction) (query form : List ℕ) (action : Action) → HasId asked
        → (asked_action asked query form ≡ Ok action)
        ↔ ((route_of action ≡ asked) × IsSaid action query form × (is_action action ≡ true)) }
{}
