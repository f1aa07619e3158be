//! The outset of a call that serves a connection. It is picked where the call begins.

ghost use Rattle.std.specs.Prelude.{[]};
ghost use Rattle.served_items.specs.Attributing.{Service};
ghost use Rattle.site_programs.specs.declared.maker.SiteMaker.{SiteMaker};
ghost use Rattle.connection_server.specs.Serving.{service_of};
ghost use Rattle.connection_server.specs.Stands.{Stand, nowhere};

use std::marker::Brand;

/// What a call that serves a connection began with.
pub(crate) trait Outset {
    /// What its requests are served by.
    ghost service: { Service SiteMaker };

    /// Where it stood when it began.
    ghost begun: { Stand };
}

impl Outset for Brand {
    ghost service = { service_of [] (record { node = 0; boot = 0 }) };

    ghost begun = { nowhere };
}
