//! The site in memory: a container of the auction over a keeper in memory, windows, a link to bricks in memory, all
//! that is drawn, and any connections. Tests and benches go over it.
//!
//! ```text
//! let mut site = MemorySite::start(alloc, keeper, plans, limits, windows, link, key, serial)?;
//! let at = site.connect(alloc)?;
//! site.feed(at, bytes)?;
//! loop {
//!     match site.step(alloc, at)? {
//!         StepEnd::Response(bytes) => write_all(&mut sink, bytes.as_slice()),
//!         StepEnd::Item(item) => items.push(item)?,
//!         StepEnd::Waits | StepEnd::Ended(_) => break,
//!         StepEnd::Called | StepEnd::Alone => {}
//!     }
//! }
//! ```
//!
//! Each of its connections goes on in its container (`GoesOnAtSite`), at all times: behind each step of one, whatever
//! the others do; behind what happens to the container, the bricks and the windows; and where memory was wanted, since
//! a connection has ended then. So a step requires nothing.
//!
//! `Surroundings` is the site without its connections. What a step of one tells, and what it leaves of the connection
//! and of its surroundings, is in `specs/Steps.antt`, as `StepsAt`. Contracts see a site as its surroundings and its
//! connections (`specs/Site.antt`): each call says what it changes, and that all else is as it was.
#![tactic(auto)]

mod happening;
mod memory_site;
mod steps;
mod surroundings;

pub use memory_site::MemorySite;
pub use steps::StepEnd;
pub use surroundings::{NODE, SiteShepherd, Surroundings, WORKER};
