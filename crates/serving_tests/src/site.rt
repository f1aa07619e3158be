//! A site under locks, and the seats of who serves its connections.

ghost use Rattle.std.specs.Prelude.{◌≡◌, false, IfOk};
ghost use Rattle.auction_rows.specs.Parts.{site_parts};
ghost use Rattle.connection_server.specs.Seats.{AreSeatsOf, ids_of};
ghost use Rattle.serving_tests.specs.Site.{BeginsSite};
ghost use Rattle.serving_tests.specs.declared.site.TheConstants.{PARTS};

use auction_rows::site_deployment;
use connection_server::{Shared, WorkerSeat};
use container_core::{Container, JournalLimits};
use crash_base::{FaultList, Items, OutOfMemory, RowList, WorkerNo};
use outside::{CallList, MapKeeper};
use report_queue::{Free, ReportPass, ReportQueue};
use request_intake::HomeBoot;
use send_windows::Windows;
use shared_words::Words;
use site_locks::{ContainerLock, ContainerSeat, WindowsLock, WindowsSeat};
use site_routes::SiteRouter;
use std::alloc::Global;

/// How many bricks the site has, of which two are to store a session.
pub const BRICKS: u16 = 3;

/// How many parts each lock of the site has.
pub const PARTS: u32 = 2;

/// A container of the site over no rows, whose keeper and whose components do not fail.
fn new_container(alloc: Global) -> Result<Container<MapKeeper>, OutOfMemory>
    ensures { IfOk result (λ c. c.boot.start.deployment ≡ site_parts) }
{
    let limits = JournalLimits {
        entries: 100_000,
        bytes: 100_000_000,
    };
    let deployment = site_deployment(alloc)?;
    let keeper = match MapKeeper::new(alloc, RowList::new(alloc), CallList::new(alloc)) {
        Ok(keeper) => keeper,
        Err(OutOfMemory) => {
            drop(deployment);
            return Err(OutOfMemory);
        }
    };
    let plans = FaultList::from_vec(Vec::new(alloc));
    match Container::start(alloc, deployment, keeper, plans, limits) {
        Ok(container) => Ok(container),
        Err(fail) => {
            drop(fail);
            Err(OutOfMemory)
        }
    }
}

/// A container of the site under its lock, the seat with all parts, and the boot that it is.
fn locked_container(
    alloc: Global,
) -> Result<(ContainerLock<MapKeeper>, ContainerSeat<MapKeeper>, HomeBoot), OutOfMemory>
    ensures { IfOk result (λ made. (made.1.lock ≡ made.0.id) × (made.1.holds ≡ false) × (made.1.parts ≡ PARTS)
        × (made.0.parts ≡ PARTS) × BeginsSite made.2 made.1.seen) }
{
    let container = new_container(alloc)?;
    let home = HomeBoot {
        node: 1,
        boot: container.boot(),
    };
    match ContainerLock::new(alloc, container, PARTS) {
        Ok((lock, seat)) => Ok((lock, seat, home)),
        Err(container) => {
            drop(container);
            Err(OutOfMemory)
        }
    }
}

/// Windows of the site under their lock, and the seat with all parts.
fn locked_windows(alloc: Global) -> Result<(WindowsLock, WindowsSeat), OutOfMemory>
    ensures { IfOk result (λ made. (made.1.lock ≡ made.0.id) × (made.1.holds ≡ false) × (made.1.parts ≡ PARTS)
        × (made.0.parts ≡ PARTS)) }
{
    let windows = Windows::new(alloc, BRICKS, BRICKS, 2, false)?;
    match WindowsLock::new(alloc, windows, PARTS) {
        Ok(made) => Ok(made),
        Err(windows) => {
            drop(windows);
            Err(OutOfMemory)
        }
    }
}

/// A queue of reports, and two passes to it.
fn new_queue(alloc: Global) -> Result<(ReportQueue, ReportPass, ReportPass), OutOfMemory>
    ensures { IfOk result (λ made. (made.1.queue ≡ made.0) × (made.2.queue ≡ made.0)) }
{
    let (reports, mut passes) = ReportQueue::<(), Free>::new(alloc, 2)?;
    let Some(pass) = passes.take() else {
        return Err(OutOfMemory);
    };
    let Some(other) = passes.take() else {
        return Err(OutOfMemory);
    };
    Ok((reports, pass, other))
}

/// What threads share to serve connections of a new site, under a key of 32 zeros, the seats with all parts, and a
/// second pass to the queue.
pub fn open(
    alloc: Global,
) -> Result<(Shared<MapKeeper>, WorkerSeat<MapKeeper>, ReportPass), OutOfMemory>
    ensures seats { IfOk result (λ made. AreSeatsOf (ids_of made.0.container made.0.windows made.0.words made.0.reports)
        made.1.container made.1.windows made.1.words made.1.pass) }
    ensures site { IfOk result (λ made. BeginsSite made.0.home made.1.container.seen) }
    ensures parts { IfOk result (λ made. (made.1.container.parts ≡ PARTS) × (made.1.windows.parts ≡ PARTS)
        × (made.1.words.parts ≡ PARTS) × (made.0.container.parts ≡ PARTS)) }
    ensures pass { IfOk result (λ made. made.2.queue ≡ made.0.reports) }
{
    let key = Items::copied(alloc, &[0; 32])?;
    let router = SiteRouter::new(alloc)?;
    let (words, word_seat) = Words::new(alloc, 64, PARTS)?;
    let (reports, pass, other) = new_queue(alloc)?;
    let (windows, windows_seat) = locked_windows(alloc)?;
    let (container, container_seat, home) = locked_container(alloc)?;
    let shared = Shared {
        container,
        windows,
        words,
        reports,
        router,
        key,
        home,
    };
    let seat = WorkerSeat {
        worker: WorkerNo(1),
        container: container_seat,
        windows: windows_seat,
        words: word_seat,
        pass,
    };
    Ok((shared, seat, other))
}

/// Cuts a part off each of these seats, for another thread with this pass.
pub fn split(
    shared: &Shared<MapKeeper>,
    seat: &mut WorkerSeat<MapKeeper>,
    pass: ReportPass,
) -> WorkerSeat<MapKeeper>
    requires seats { AreSeatsOf (ids_of shared.now.container shared.now.windows shared.now.words shared.now.reports)
        seat.old.container seat.old.windows seat.old.words seat.old.pass }
    requires site { BeginsSite shared.now.home seat.old.container.seen }
    requires pass { pass.queue ≡ shared.now.reports }
    requires parts { (seat.old.container.parts ≡ PARTS) × (seat.old.windows.parts ≡ PARTS)
        × (seat.old.words.parts ≡ PARTS) }
    ensures seats { AreSeatsOf (ids_of shared.now.container shared.now.windows shared.now.words shared.now.reports)
        seat.new.container seat.new.windows seat.new.words seat.new.pass }
    ensures site { BeginsSite shared.now.home seat.new.container.seen }
    ensures parts { seat.new.container.parts ≡ 1 }
    ensures others { AreSeatsOf (ids_of shared.now.container shared.now.windows shared.now.words shared.now.reports)
        result.container result.windows result.words result.pass }
    ensures same_site { BeginsSite shared.now.home result.container.seen }
    ensures their_parts { result.container.parts ≡ 1 }
{
    WorkerSeat {
        worker: WorkerNo(2),
        container: shared.container.split(&mut seat.container, 1),
        windows: shared.windows.split(&mut seat.windows, 1),
        words: shared.words.split(&mut seat.words, 1),
        pass,
    }
}
