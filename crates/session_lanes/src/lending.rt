//! Lending the windows.

ghost use Rattle.std.specs.Prelude.{◌≡◌};
ghost use Rattle.session_lanes.specs.Lanes.{HasLanes};
ghost use Rattle.session_lanes.specs.Lent.{with_windows, without_windows};

use crate::counts::Counts;
use crate::lane::Lane;
use crate::lanes::Lanes;
use send_windows::Windows;
use ssm_world::World;
use std::marker::Model;

/// Lanes whose windows are lent.
#[derive(Drop)]
pub struct LentLanes {
    world: World,
    lanes: Vec<Lane>,
    counts: Counts,
}

impl Model for LentLanes {
    ghost use Rattle.session_lanes.specs.Lent.{LentState};

    ghost Value = { LentState };

    ghost view = { λ l. record { world = l.world; lanes = l.lanes.items; counts = l.counts } };
}

impl Lanes {
    /// The windows, so that they can be lent, and the lanes without them. It takes no memory.
    pub fn lend_windows(self) -> (LentLanes, Windows)
        ensures lanes { result.0 ≡ without_windows self }
        ensures windows { result.1 ≡ self.windows }
        ensures fit { HasLanes self }
    {
        let Lanes {
            world,
            windows,
            lanes,
            counts,
        } = self;
        let lent = LentLanes {
            world,
            lanes,
            counts,
        };
        (lent, windows)
    }
}

impl LentLanes {
    /// The lanes with windows on as many bricks, to which passes may be held: those that were lent, whatever was taken
    /// and spent since. It takes no memory.
    pub fn with_windows(self, windows: Windows) -> Lanes
        requires { HasLanes (with_windows self windows) }
        ensures { result ≡ with_windows self windows }
    {
        let LentLanes {
            world,
            lanes,
            counts,
        } = self;
        Lanes {
            world,
            windows,
            lanes,
            counts,
        }
    }
}
