//! The desk of a volume that is read alone.
ghost use Rattle.fuse_loop.specs.Viewed.{FailsViewed, TurnsViewed};

use crate::interface::Answering;
use device::Device;
use fuse_reader::{Desk, Turned};
use std::alloc::AllocError;

impl<D: Device + Drop> Answering for Desk<D> {
    ghost turns = { TurnsViewed D.honest D.image D.held D.failures };

    ghost fails = { FailsViewed D.honest D.image D.held D.failures };

    fn turn(&mut self, message: &[u8], reply: &mut Vec<u8>) -> Result<Turned, AllocError> {
        Desk::turn(self, message, reply)
    }
}
