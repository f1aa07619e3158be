//! Laws of where paths lead. Each is the contract of a function that does nothing: a caller that needs the law calls
//! the function.

ghost use Rattle.std.specs.Prelude.{◌≡◌, ◌≢◌, ◌↔◌, ℕ, List, true};
ghost use Rattle.http_wire.specs.declared.taken.MethodKind.{MethodKind};
ghost use Rattle.http_wire.specs.declared.taken.MethodKind.TheVariants.{Get, HeadOnly, Post};
ghost use Rattle.http_wire.specs.Response.{allow_field};
ghost use Rattle.site_routes.specs.PathActions.{routed};
ghost use Rattle.site_routes.specs.Paths.{asks, is_action, methods_field, path_of, HasId};
ghost use Rattle.site_routes.specs.declared.path_actions.SiteAction.{SiteAction};
ghost use Rattle.site_routes.specs.declared.routed.Routed.TheVariants.{Action, NotAllowed, NotThere};

/// An action is at its path and nowhere else, by the methods that ask for it and by no other: the path that is written
/// from an action leads to it, with the id or the form that was written, and a path that leads to an action was written
/// from it. A path that is that of no action leads nowhere.
pub fn actions_are_at_their_paths()
    ensures action { (path : List ℕ) (method : MethodKind) (asked : SiteAction) → (routed path method ≡ Action asked)
        ↔ ((path ≡ path_of asked) × (asks method asked ≡ true) × HasId asked) }
    ensures nowhere { (path : List ℕ) (method : MethodKind) → (routed path method ≡ NotThere)
        ↔ ((asked : SiteAction) → HasId asked → path ≢ path_of asked) }
{}

/// Where something is at a path and not by the method that was used, `Allow` names exactly the methods that lead to an
/// action there.
pub fn allowed_methods_are_named()
    ensures { (path : List ℕ) (method : MethodKind) (allow : ℕ) → routed path method ≡ NotAllowed allow
        → allow_field allow ≡ methods_field (is_action (routed path Get)) (is_action (routed path Post)) }
{}

/// A path that leads nowhere by one method leads nowhere by each: so 404 comes before 405, and no method tells apart
/// what is not there.
pub fn missing_paths_have_no_method()
    ensures { (path : List ℕ) (method other : MethodKind)
        → routed path method ≡ NotThere → routed path other ≡ NotThere }
{}

/// HEAD leads where GET does.
pub fn heads_are_routed_as_gets()
    ensures { (path : List ℕ) → routed path HeadOnly ≡ routed path Get }
{}
