//! That a desk answers a session as it is wanted.
use fuse_channels::MemoryChannel;
use fuse_loop::{Answering, serve};
use std::alloc::Global;
use std::process::Abort;
use std::test::*;

/// Requests, and the replies to those that ask for one.
#[derive(Drop)]
pub(crate) struct Messages {
    pub(crate) requests: Vec<Vec<u8>>,
    pub(crate) replies: Vec<Vec<u8>>,
}

impl Messages {
    /// None.
    pub(crate) fn new(alloc: Global) -> Messages {
        Messages {
            requests: Vec::new(alloc),
            replies: Vec::new(alloc),
        }
    }
}

/// The desk gives these replies to these requests, and is left at the end.
pub(crate) fn is_served<R: Abort, T: Answering>(
    rt: &R,
    alloc: Global,
    messages: Messages,
    desk: &mut T,
) -> Result<(), Fail> {
    let Messages { requests, replies } = messages;
    let mut channel = MemoryChannel::new(alloc, requests);
    let is_served = serve(alloc, desk, &mut channel).is_ok();
    assert!(rt; is_served);
    are_same(rt, channel.replies(), replies.as_slice())
}

/// These replies are those that are wanted.
fn are_same<R: Abort>(rt: &R, found: &[Vec<u8>], wanted: &[Vec<u8>]) -> Result<(), Fail> {
    for (at, (found, wanted)) in found.iter().zip(wanted).enumerate() {
        assert_eq!(rt; found.as_slice(), wanted.as_slice(), "reply {at}");
    }
    assert_eq!(rt; found.len(), wanted.len());
    Ok(())
}
