//! The routes of the auction: which action a path and a method ask for.
//!
//! A `SiteRouter` is made once, and then tells of each request where it leads:
//!
//! ```text
//! let router = SiteRouter::new(alloc)?;
//! router.routed(b"/item/7", MethodKind::Get)     // Action(Item { item: 7 })
//! router.routed(b"/item/7", MethodKind::Post)    // NotAllowed { allow: 1 }: GET, HEAD
//! router.routed(b"/item/07", MethodKind::Post)   // NotThere
//! ```
//!
//! `specs/Routes.antt` has the fifteen routes with their texts. A path takes a route where it is the route's text, or
//! that text and then at least one byte with no `/`, where the route has a parameter, and the first such route counts.
//! A path that is no UTF-8 takes none. `specs/PathActions.antt` has the table of which action each route has by which
//! method. `specs/Paths.antt` has the path of each action, written from the action, and the law
//! `actions_are_at_their_paths` says that an action is there, by its methods, and nowhere else. Whether anything is at
//! a path is asked before the method is looked at, so a path that leads nowhere is 404 by every method
//! (`missing_paths_have_no_method`), and HEAD leads where GET does (`heads_are_routed_as_gets`).
//!
//! The search is that of `matchit`: it visits the path's bytes, and takes no memory.
#![tactic(auto)]

mod laws;
mod path_actions;
mod routed;
mod router;
mod site_route;

pub use laws::{
    actions_are_at_their_paths, allowed_methods_are_named, heads_are_routed_as_gets,
    missing_paths_have_no_method,
};
pub use path_actions::{MAX_ID, PathActions, SiteAction};
pub use routed::Routed;
pub use router::SiteRouter;
pub use site_route::SiteRoute;
