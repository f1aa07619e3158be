//! What threads share to serve connections, and the seats of one of them.

use crash_base::{Items, WorkerNo};
use outside::Keeper;
use report_queue::{ReportPass, ReportQueue};
use request_intake::HomeBoot;
use shared_words::{WordSeat, Words};
use site_locks::{ContainerLock, ContainerSeat, WindowsLock, WindowsSeat};
use site_routes::SiteRouter;

/// What threads share to serve connections.
#[derive(Drop)]
pub struct Shared<K: Keeper + Drop> {
    pub container: ContainerLock<K>,
    pub windows: WindowsLock,
    pub words: Words,
    pub reports: ReportQueue,
    pub router: SiteRouter,
    /// The key of the service.
    pub key: Items<u8>,
    /// The node, and the boot of the container.
    pub home: HomeBoot,
}

/// The seats of a thread that serves connections.
#[derive(Drop)]
pub struct WorkerSeat<K: Keeper + Drop> {
    pub worker: WorkerNo,
    pub container: ContainerSeat<K>,
    pub windows: WindowsSeat,
    pub words: WordSeat,
    pub pass: ReportPass,
}
