//! Channels of whole messages, as the device of Linux's FUSE is one: a read takes one message, and a write gives one.
#![tactic(auto)]

mod device;
mod interface;
mod memory;
mod message;

pub use device::DeviceChannel;
pub use interface::{Channel, Received, Replied};
pub use memory::MemoryChannel;
pub use message::Message;
