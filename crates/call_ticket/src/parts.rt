//! What a ticket hands out when its call ends.

use component_pool::InstanceNo;
use crash_base::{Items, WriteList};
use journal_model::{MarkList, TouchList};

/// The instances, which are running copies of components, that serve the open frames of a call, the first first. Each
/// is a token of a pool, to which they are given back.
pub type InstanceList = Items<InstanceNo>;

/// What a ticket held when its call ended.
#[derive(Drop)]
pub struct TicketParts {
    pub instances: InstanceList,
    pub touched: TouchList,
    pub marks: MarkList,
    pub writes: WriteList,
}
