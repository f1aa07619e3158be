//! What connections of the site go through, and how it starts.

ghost use Rattle.std.specs.Prelude.{◌≡◌, Some, IfOk, IfErr};
ghost use Rattle.auction_rows.specs.Parts.{site_parts};
ghost use Rattle.container_core.specs.Start.{IsStarted};
ghost use Rattle.memory_site.specs.Starting.{IsRefusedSite};
ghost use Rattle.outside.specs.Faults.{Rose};

use auction_actions::ActionProgram;
use auction_rows::site_deployment;
use container_core::{Container, JournalLimits, StartFail, StartRefusal};
use crash_base::{FaultList, Moment, OutOfMemory, WorkerNo};
use deployment::Deployment;
use link_memory::ScriptLink;
use outside::{MapKeeper, PlainClock, PlainRandom, PlainSerials};
use send_windows::Windows;
use shepherd::Shepherd;
use site_routes::SiteRouter;
use std::alloc::Global;

/// The number of the service's node.
pub const NODE: u16 = 1;

/// The number of whoever serves.
pub const WORKER: WorkerNo = WorkerNo(4);

/// A connection of the site.
pub type SiteShepherd = Shepherd<ActionProgram>;

/// A container of the site, windows on bricks and the link to them, and all that is drawn.
#[derive(Drop)]
pub struct Surroundings {
    pub container: Container<MapKeeper>,
    pub windows: Windows,
    pub link: ScriptLink,
    pub clock: PlainClock,
    pub random: PlainRandom,
    pub serials: PlainSerials,
    pub router: SiteRouter,
    /// The key of the service.
    pub key: [u8; 32],
    ghost of_site: { container.boot.start.deployment ≡ site_parts },
}

/// What a container of the site is deployed with, and the routes of its requests.
#[derive(Drop)]
struct SiteParts {
    deployment: Deployment,
    router: SiteRouter,
}

/// Those of the site.
fn parts_of_site(alloc: Global) -> Result<SiteParts, OutOfMemory>
    ensures { IfOk result (λ parts. parts.deployment ≡ site_parts) }
{
    let deployment = site_deployment(alloc)?;
    let router = SiteRouter::new(alloc)?;
    Ok(SiteParts { deployment, router })
}

/// There was no memory, and the keeper was not called.
fn uncalled(keeper: MapKeeper) -> StartFail<MapKeeper>
    ensures { result ≡ record { refusal = StartRefusal.OutOfMemory; keeper = keeper } }
{
    StartFail {
        refusal: StartRefusal::OutOfMemory,
        keeper,
    }
}

impl Surroundings {
    /// Those over this keeper, these windows and this link, whose components fail by these plans. The clock shows 0,
    /// random words go from 1 on, and serial numbers from this one.
    ///
    /// # Errors
    /// `StartRefusal` says why, and `IsRefusedSite` when: as of `Container::start`, which hands the keeper back.
    pub fn start(
        alloc: Global,
        keeper: MapKeeper,
        plans: FaultList,
        limits: JournalLimits,
        windows: Windows,
        link: ScriptLink,
        key: [u8; 32],
        serial: u64,
    ) -> Result<Surroundings, StartFail<MapKeeper>>
        ensures container { IfOk result (λ s. IsStarted site_parts plans limits (Some keeper.told) s.container) }
        ensures given { IfOk result (λ s. (s.windows ≡ windows) × (s.link ≡ link) × (s.key ≡ key)) }
        ensures drawn { IfOk result (λ s. (s.clock ≡ record {
          shown = record { 0 = 0 };
          told = record { 0 = 0 };
        }) × (s.random ≡ 1) × (s.serials ≡ serial)) }
        ensures refused { IfErr result (λ fail. IsRefusedSite fail.refusal keeper fail.keeper) }
        ensures failed { IfErr result (λ fail. fail.refusal ≡ StartRefusal.KeeperFailed
            → Rose keeper.faults fail.keeper.faults) }
    {
        let SiteParts { deployment, router } = match parts_of_site(alloc) {
            Ok(parts) => parts,
            Err(OutOfMemory) => return Err(uncalled(keeper)),
        };
        match Container::start(alloc, deployment, keeper, plans, limits) {
            Ok(container) => Ok(Surroundings {
                container,
                windows,
                link,
                clock: PlainClock::new(Moment(0)),
                random: PlainRandom::new(1),
                serials: PlainSerials::new(serial),
                router,
                key,
            }),
            Err(fail) => Err(fail),
        }
    }
}
