//! The laws. Each is the contract of a function that does nothing: a caller that needs the law calls the function.

ghost use Rattle.std.specs.Prelude.{◌≡◌, ℕ, List, [], ◌∷◌, map};
ghost use Rattle.auction_calls.specs.BadFields.{field_text};
ghost use Rattle.auction_calls.specs.declared.action.FormKind.{FormKind};
ghost use Rattle.auction_calls.specs.declared.call_field.CallField.TheVariants as call;
ghost use Rattle.auction_site.specs.Outcomes.{form_address, form_fields};
ghost use Rattle.http_wire.specs.declared.taken.MethodKind.TheVariants.{Post};
ghost use Rattle.site_routes.specs.PathActions.{routed};
ghost use Rattle.site_routes.specs.declared.routed.Routed.TheVariants as lead;
ghost use Rattle.action_fields.specs.Names.{field_name};
ghost use Rattle.action_fields.specs.Table.{FieldRead, fields_of};
ghost use Rattle.action_fields.specs.declared.form_field.FormField.TheVariants as form_field;
ghost use Rattle.form_laws.specs.Forms.{filled_for};

use site_routes::actions_are_at_their_paths;

/// A form shows just the fields that the action reads which it is filled in for, by their names and in their order.
pub fn forms_show_what_they_are_read_by()
    ensures { (kind : FormKind) (query form : List ℕ)
        → map (λ (f : FieldRead). field_name f.name) (fields_of (filled_for kind) query form) ≡ form_fields kind }
{}

/// A form is sent where the action is that it is filled in for.
pub fn forms_are_sent_to_their_actions()
    ensures { (kind : FormKind) → routed (form_address kind) Post ≡ lead.Action (filled_for kind) }
{
    actions_are_at_their_paths();
}

/// A field that a form says and a call has is named alike in both.
pub fn fields_have_one_name()
    ensures { map field_text (call.Name ∷ call.Password ∷ call.Category ∷ call.Page ∷ call.Item ∷ call.Title
        ∷ call.Start ∷ call.BuyNow ∷ call.Hours ∷ call.Amount ∷ call.Text ∷ [])
        ≡ map field_name (form_field.Name ∷ form_field.Password ∷ form_field.Category ∷ form_field.Page
        ∷ form_field.Item ∷ form_field.Title ∷ form_field.Start ∷ form_field.BuyNow ∷ form_field.Hours
        ∷ form_field.Amount ∷ form_field.Text ∷ []) }
{}
