//! Devices of blocks: what a device answers and what a power cut leaves of it, one in memory, one in memory with a write cache,
//! and one that fails on purpose; how one is formatted, and how single bytes of it are put.
#![tactic(auto)]

mod bytes;
mod cache;
mod formatting;
mod fuse;
mod interface;
mod memory;

pub use bytes::{Byte, set_byte, set_bytes};
pub use cache::{CacheDevice, Step};
pub use formatting::{Before, format};
pub use fuse::Fuse;
pub use interface::{Device, DeviceFault};
pub use memory::MemDevice;
