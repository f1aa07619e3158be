//! What a site is served with.

use crash_base::Items;

/// What a site is served with.
#[derive(Drop)]
pub struct SiteConfig {
    /// The key of the service.
    pub key: Items<u8>,
    pub node: u16,
    /// To how many bricks a session is sent.
    pub w: u16,
    /// How many bricks have to store it.
    pub wq: u16,
}
