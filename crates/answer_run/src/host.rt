//! What a client's service is made with.

use info_lic::Name;
use px_core::Size;
use std::alloc::Global;

/// A host of one client: the size of its session in pixels, and the name of the session's owner.
#[derive(Drop)]
pub struct Host {
    pub alloc: Global,
    pub size: Size,
    pub owner: Name,
}
