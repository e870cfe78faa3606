//! The messages between Linux's FUSE and a server, as bytes: requests are read, replies are written.
//!
//! The numbers are those of version 7.31 of the protocol, as the header `linux/fuse.h` of Linux has them. A number has its least
//! byte first. A request is a head of 40 bytes and the fields of its kind, which later versions may make longer: what stands
//! behind the fields that are known is not looked at. A reply is a head of 16 bytes and a body.
//!
//! No call takes memory but that of the reply's vector. Names and data are lent from the request.
#![tactic(auto)]

mod bodies;
mod entries;
mod errors;
mod fields;
mod laws;
mod numbers;
mod opcodes;
mod reading;
mod requests;
mod writing;

pub use bodies::{Agreement, Attributes, Body, Entry, Opened, Statistics};
pub use entries::{DirectoryEntry, Kind, fits_plus, push_entry, push_entry_plus};
pub use errors::Errno;
pub use laws::a_reply_is_read_back;
pub use numbers::{Handle, NodeId, Time, Unique};
pub use opcodes::Opcode;
pub use reading::read;
pub use requests::{Changes, Forgets, Head, Moment, Offer, Request};
pub use writing::write;

pub mod flags;
