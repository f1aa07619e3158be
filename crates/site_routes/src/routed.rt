//! The action that a path and a method ask for, or why there is none.

ghost use Rattle.std.specs.Prelude.{◌≡◌};
ghost use Rattle.site_routes.specs.PathActions.{actions_at, read_of, routed, routed_by, write_of};

use crate::path_actions::{PathActions, SiteAction, actions_of};
use crate::router::SiteRouter;
use crate::site_route::parameter;
use http_wire::MethodKind;

/// What a path and a method lead to.
#[derive(Clone, Copy)]
pub enum Routed {
    /// This action.
    Action(SiteAction),
    /// Nothing is at the path: status 404, whatever the method.
    NotThere,
    /// Something is at the path, and not by this method: status 405. `allow` says by which, as `ExtraFields` counts
    /// them.
    NotAllowed { allow: u8 },
}

/// What GET and HEAD ask for at a path of these actions.
fn read_of(actions: PathActions) -> Routed
    ensures { result ≡ read_of actions }
{
    match actions {
        PathActions::Read(action) => Routed::Action(action),
        PathActions::Both(action, _) => Routed::Action(action),
        PathActions::Write(_) => Routed::NotAllowed {
            allow: actions.allow(),
        },
    }
}

/// What POST asks for at a path of these actions.
fn write_of(actions: PathActions) -> Routed
    ensures { result ≡ write_of actions }
{
    match actions {
        PathActions::Write(action) => Routed::Action(action),
        PathActions::Both(_, action) => Routed::Action(action),
        PathActions::Read(_) => Routed::NotAllowed {
            allow: actions.allow(),
        },
    }
}

/// What a method asks for at a path of these actions.
fn routed_by(method: MethodKind, actions: PathActions) -> Routed
    ensures { result ≡ routed_by method actions }
{
    match method {
        MethodKind::Get => read_of(actions),
        MethodKind::HeadOnly => read_of(actions),
        MethodKind::Post => write_of(actions),
        MethodKind::Other => Routed::NotAllowed {
            allow: actions.allow(),
        },
    }
}

impl SiteRouter {
    /// The actions of a path. None where nothing is there.
    fn actions_at(&self, path: &[u8]) -> Option<PathActions>
        ensures { result ≡ actions_at path.now }
    {
        match self.route_of(path) {
            None => None,
            Some(route) => actions_of(route, parameter(route, path)),
        }
    }

    /// What a path, which has no query, and a method lead to. Whether anything is at the path is asked before the
    /// method is looked at. It takes no memory, and visits the path's bytes.
    pub fn routed(&self, path: &[u8], method: MethodKind) -> Routed
        ensures { result ≡ routed path.now method }
    {
        match self.actions_at(path) {
            None => Routed::NotThere,
            Some(actions) => routed_by(method, actions),
        }
    }
}
