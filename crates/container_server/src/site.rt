//! What the threads of a boot share.

ghost use Rattle.std.specs.Prelude.{◌≡◌, ◌+◌, ◌≤◌, false, [], ◌∷◌, length, IfErr, IfOk};
ghost use mathlib.Core.List.{IsPrefix};
ghost use Rattle.auction_rows.specs.Parts.{site_parts};
ghost use Rattle.connection_server.specs.Seats.{IsOfSite};
ghost use Rattle.container_server.specs.Seats.{AreOf, HaveParts};
ghost use Rattle.report_queue.specs.Passes.{AreTo};
ghost use Rattle.send_windows.specs.declared.history.WindowMark.TheVariants.{Opened};
ghost use Rattle.site_locks.specs.Holds.{Tells};

use crate::config::SiteConfig;
use crate::seats::Seats;
use connection_server::{Shared, WorkerSeat};
use container_core::Container;
use crash_base::{Items, OutOfMemory, WorkerNo};
use outside::Keeper;
use report_queue::{Free, ReportPass, ReportPassList, ReportQueue};
use request_intake::HomeBoot;
use send_windows::Windows;
use shared_words::{WordSeat, Words};
use site_locks::{ContainerLock, ContainerSeat, WindowsLock, WindowsSeat};
use site_routes::SiteRouter;
use std::alloc::Global;
use std::marker::Model;

/// What the threads of a boot share.
#[derive(Drop)]
pub(crate) struct Site<K: Keeper + Drop> {
    pub(crate) shared: Shared<K>,
}

impl<K: Keeper + Drop> Model for Site<K> {
    ghost use Rattle.container_server.specs.Seats.{SiteValue};

    ghost Value = { SiteValue };

    ghost view = { λ s. record {
      container = s.shared.container;
      windows = s.shared.windows;
      words = s.shared.words;
      reports = s.shared.reports;
      key = s.shared.key;
      home = s.shared.home;
    } };
}

/// What the threads of a boot share beside the container, and the seats with all parts.
#[derive(Drop)]
struct Around {
    windows: WindowsLock,
    windows_seat: WindowsSeat,
    words: Words,
    word_seat: WordSeat,
    reports: ReportQueue,
    pass: ReportPass,
    router: SiteRouter,
    key: Items<u8>,
}

/// Windows of these numbers under their lock, and the seat with all parts, which has seen that they were opened.
fn lock_windows(
    alloc: Global,
    config: &SiteConfig,
    bricks: u16,
    parts: u32,
) -> Result<(WindowsLock, WindowsSeat), OutOfMemory>
    requires quorum { (1 ≤ config.now.wq) × (config.now.wq ≤ config.now.w) × (config.now.w ≤ bricks) × (bricks ≤ 16) }
    requires parts { 1 ≤ parts }
    ensures seat { IfOk result (λ made. (made.1.lock ≡ made.0.id) × (made.1.holds ≡ false) × (made.1.parts ≡ parts)) }
    ensures opened { IfOk result (λ made. made.1.seen ≡ Opened bricks config.now.w config.now.wq false ∷ []) }
{
    let windows = Windows::new(alloc, bricks, config.w, config.wq, false)?;
    match WindowsLock::new(alloc, windows, parts) {
        Ok(made) => Ok(made),
        Err(windows) => {
            drop(windows);
            Err(OutOfMemory)
        }
    }
}

/// A queue of reports, a pass to it, and the other passes.
fn open_queue(
    alloc: Global,
    passes: u16,
) -> Result<(ReportQueue, ReportPass, ReportPassList), OutOfMemory>
    requires { 1 ≤ passes }
    ensures pass { IfOk result (λ made. made.1.queue ≡ made.0) }
    ensures others { IfOk result (λ made. (length made.2 + 1 ≡ passes) × AreTo made.0 tt made.2) }
{
    let (reports, mut others) = ReportQueue::<(), Free>::new(alloc, passes)?;
    match others.take() {
        Some(pass) => Ok((reports, pass, others)),
        None => unreachable!(),
    }
}

/// All that threads share beside the container, with so many parts, and the passes of all threads but one.
fn open_around(
    alloc: Global,
    config: &SiteConfig,
    bricks: u16,
    threads: u16,
) -> Result<(Around, ReportPassList), OutOfMemory>
    requires quorum { (1 ≤ config.now.wq) × (config.now.wq ≤ config.now.w) × (config.now.w ≤ bricks) × (bricks ≤ 16) }
    requires threads { 1 ≤ threads }
    ensures key { IfOk result (λ made. made.0.key ≡ config.now.key) }
    ensures windows { IfOk result (λ made. (made.0.windows_seat.lock ≡ made.0.windows.id)
        × (made.0.windows_seat.holds ≡ false) × (made.0.windows_seat.parts ≡ threads)) }
    ensures opened { IfOk result (λ made. made.0.windows_seat.seen ≡ Opened bricks config.now.w config.now.wq false ∷ []) }
    ensures words { IfOk result (λ made. (made.0.word_seat.words ≡ made.0.words.id)
        × (made.0.word_seat.parts ≡ threads)) }
    ensures passes { IfOk result (λ made. (made.0.pass.queue ≡ made.0.reports)
        × (length made.1 + 1 ≡ threads) × AreTo made.0.reports tt made.1) }
{
    let key = Items::copied(alloc, config.key.as_slice())?;
    let router = SiteRouter::new(alloc)?;
    let (words, word_seat) = Words::new(alloc, 64, threads as u32)?;
    let (reports, pass, others) = open_queue(alloc, threads)?;
    let (windows, windows_seat) = lock_windows(alloc, config, bricks, threads as u32)?;
    Ok((
        Around {
            windows,
            windows_seat,
            words,
            word_seat,
            reports,
            pass,
            router,
            key,
        },
        others,
    ))
}

/// What the threads of a boot share, and the seats with all parts.
fn assemble<K: Keeper + Drop>(
    home: HomeBoot,
    container: ContainerLock<K>,
    seat: ContainerSeat<K>,
    around: Around,
) -> (Site<K>, Seats<K>)
    ensures container { (result.0.container ≡ container) × (result.1.container ≡ seat) }
    ensures windows { (result.0.windows ≡ around.windows) × (result.1.windows ≡ around.windows_seat) }
    ensures words { (result.0.words ≡ around.words) × (result.1.words ≡ around.word_seat) }
    ensures reports { (result.0.reports ≡ around.reports) × (result.1.pass ≡ around.pass) }
    ensures serves { (result.0.key ≡ around.key) × (result.0.home ≡ home) }
{
    let Around {
        windows,
        windows_seat,
        words,
        word_seat,
        reports,
        pass,
        router,
        key,
    } = around;
    let shared = Shared {
        container,
        windows,
        words,
        reports,
        router,
        key,
        home,
    };
    let seat = WorkerSeat {
        worker: WorkerNo(1),
        container: seat,
        windows: windows_seat,
        words: word_seat,
        pass,
    };
    (Site { shared }, Seats { seat })
}

/// A site whose container is given, for so many threads; the seats with all parts; and the passes of the other threads.
/// It is served with what is configured. Without memory the container comes back.
pub(crate) fn open_site<K: Keeper + Drop>(
    alloc: Global,
    config: &SiteConfig,
    bricks: u16,
    container: Container<K>,
    threads: u16,
) -> Result<(Site<K>, Seats<K>, ReportPassList), Container<K>>
    requires quorum { (1 ≤ config.now.wq) × (config.now.wq ≤ config.now.w) × (config.now.w ≤ bricks) × (bricks ≤ 16) }
    requires threads { 1 ≤ threads }
    requires site { container.boot.start.deployment ≡ site_parts }
    ensures seats { IfOk result (λ made. AreOf made.0 made.1) }
    ensures seen { IfOk result (λ made. IsOfSite made.0.home made.1.container.seen) }
    ensures told { IfOk result (λ made. Tells made.1.container.seen container) }
    ensures parts { IfOk result (λ made. HaveParts threads made.1 × (made.1.container.parts ≡ threads)
        × (made.0.container.parts ≡ threads)) }
    ensures passes { IfOk result (λ made. (length made.2 + 1 ≡ threads) × AreTo made.0.reports tt made.2) }
    ensures key { IfOk result (λ made. made.0.key ≡ config.now.key) }
    ensures home { IfOk result (λ made. (made.0.home.node ≡ config.now.node)
        × (made.0.home.boot ≡ container.boot.start.boot)) }
    ensures opened { IfOk result (λ made. made.1.windows.seen ≡ Opened bricks config.now.w config.now.wq false ∷ []) }
    ensures back { IfErr result (λ given. given ≡ container) }
{
    let (around, others) = match open_around(alloc, config, bricks, threads) {
        Ok(made) => made,
        Err(OutOfMemory) => return Err(container),
    };
    let home = HomeBoot {
        node: config.node,
        boot: container.boot(),
    };
    let (lock, seat) = ContainerLock::new(alloc, container, threads as u32)?;
    let (site, seats) = assemble(home, lock, seat, around);
    Ok((site, seats, others))
}

impl<K: Keeper + Drop> Site<K> {
    /// The boot that it serves.
    pub fn home(&self) -> HomeBoot
        ensures { result ≡ self.now.home }
    {
        self.shared.home
    }

    /// One of the passes to the queue, of which there are some.
    pub fn take_pass(&self, passes: &mut ReportPassList) -> ReportPass
        requires some { 1 ≤ length passes.old }
        requires queue { AreTo self.now.reports tt passes.old }
        ensures pass { result.queue ≡ self.now.reports }
        ensures left { length passes.new + 1 ≡ length passes.old }
        ensures others { AreTo self.now.reports tt passes.new }
    {
        match passes.take() {
            Some(pass) => pass,
            None => unreachable!(),
        }
    }

    /// Cuts so many parts off the seats, for another thread with this pass.
    pub fn split(
        &self,
        seats: &mut Seats<K>,
        worker: WorkerNo,
        parts: u32,
        pass: ReportPass,
    ) -> Seats<K>
        requires seats { AreOf self.now seats.old }
        requires pass { pass.queue ≡ self.now.reports }
        requires parts { (1 ≤ parts) × HaveParts (parts + 1) seats.old }
        ensures seats { AreOf self.now seats.new × AreOf self.now result }
        ensures seen { (result.container.seen ≡ seats.old.container.seen)
            × (seats.new.container.seen ≡ seats.old.container.seen) }
        ensures cut { (result.container.parts ≡ parts) × (result.windows.parts ≡ parts)
            × (result.words.parts ≡ parts) }
        ensures container_left { seats.new.container.parts + parts ≡ seats.old.container.parts }
        ensures windows_left { seats.new.windows.parts + parts ≡ seats.old.windows.parts }
        ensures words_left { seats.new.words.parts + parts ≡ seats.old.words.parts }
    {
        let seat = WorkerSeat {
            worker,
            container: self
                .shared
                .container
                .split(&mut seats.seat.container, parts),
            windows: self.shared.windows.split(&mut seats.seat.windows, parts),
            words: self.shared.words.split(&mut seats.seat.words, parts),
            pass,
        };
        Seats { seat }
    }

    /// Adds the other's parts of the container. Its other seats are dropped.
    pub fn join(&self, seats: &mut Seats<K>, other: Seats<K>)
        requires seats { AreOf self.now seats.old × AreOf self.now other }
        ensures seats { AreOf self.now seats.new }
        ensures parts { seats.new.container.parts ≡ seats.old.container.parts + other.container.parts }
        ensures seen { IsPrefix seats.old.container.seen seats.new.container.seen }
    {
        let Seats { seat } = other;
        let WorkerSeat {
            worker: _,
            container,
            windows: _,
            words: _,
            pass: _,
        } = seat;
        self.shared
            .container
            .join(&mut seats.seat.container, container);
    }

    /// The container, where the seats have all parts of it. Its history is what they have seen.
    pub fn close(self, seats: Seats<K>) -> Container<K>
        requires seats { AreOf self seats }
        requires whole { seats.container.parts ≡ self.container.parts }
        ensures told { Tells seats.container.seen result }
    {
        let Shared {
            container,
            windows: _,
            words: _,
            reports: _,
            router: _,
            key: _,
            home: _,
        } = self.shared;
        let WorkerSeat {
            worker: _,
            container: seat,
            windows: _,
            words: _,
            pass: _,
        } = seats.seat;
        container.close(seat)
    }
}
