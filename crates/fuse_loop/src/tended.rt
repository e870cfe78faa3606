//! The desk of a volume with writes.
ghost use Rattle.fuse_loop.specs.Tended.{FailsTended, TurnsTended};

use crate::interface::Answering;
use device::Device;
use fuse_reader::Turned;
use fuse_writer::Desk;
use std::alloc::AllocError;

impl<D: Device + Drop> Answering for Desk<D> {
    ghost turns = { TurnsTended D.honest D.held D.image };

    ghost fails = { FailsTended D.honest D.held D.image };

    fn turn(&mut self, message: &[u8], reply: &mut Vec<u8>) -> Result<Turned, AllocError> {
        // Without a clock it is the time that was told last.
        let time = self.time();
        Desk::turn(self, message, time, reply)
    }
}
