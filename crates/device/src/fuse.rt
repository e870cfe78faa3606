ghost use Rattle.std.specs.Prelude.{◌≡◌, ℕ, ◌+◌, ◌-◌, ◌^◌, ◌<◌, min, Bool, None, Some, OnOk, OnErr, length, slice_set, if◌then◌else◌};
ghost use Rattle.model.specs.Image.{block_at};
ghost use Rattle.device.specs.Fused.{GoesThrough, blows, faults_of, left_after};
ghost use Rattle.device.specs.Media.{synced, wrote};
ghost use Rattle.device.specs.Writes.{CountsFaults};

use crate::{Device, DeviceFault};
use layout::Block;
use std::marker::Model;

/// A device that fails on purpose: it lets so many calls through to the one below, and then each call fails, or the
/// next one alone. A call that it makes fail does not reach the device below.
#[derive(Drop)]
pub struct Fuse<D> {
    device: D,
    left: Option<u64>,
    once: bool,
    failures: u64,
}

impl<D> Model for Fuse<D> {
    ghost use Rattle.device.specs.Fused.{Fused};

    ghost Value = { Fused D };

    ghost view = { λ fuse. record { device = fuse.device; left = fuse.left; once = fuse.once; failures = fuse.failures } };
}

impl<D> Fuse<D> {
    /// A fuse over a device that lets so many calls through.
    pub fn new(device: D, calls: u64, once: bool) -> Fuse<D>
        ensures { result ≡ record { device = device; left = Some calls; once = once; failures = 0 } }
    {
        Fuse {
            device,
            left: Some(calls),
            once,
            failures: 0,
        }
    }

    /// The device below.
    pub fn device(&self) -> &D
        ensures { result.now ≡ self.now.device }
    {
        &self.device
    }

    /// Counts a call, and says whether it fails.
    fn blows(&mut self) -> bool
        ensures value { result ≡ blows self.old.left }
        ensures left { self.new ≡ record self.old { left = left_after self.old.once self.old.left; failures = self.new.failures } }
        ensures failures { self.new.failures ≡ (if blows self.old.left then min (self.old.failures + 1) (2 ^ 64 - 1) else self.old.failures) }
    {
        match self.left {
            Some(0) => {
                if self.once {
                    self.left = None;
                }
                self.failures = self.failures.saturating_add(1);
                true
            }
            Some(left) => {
                self.left = Some(left - 1);
                false
            }
            None => false,
        }
    }
}

impl<D: Device> Device for Fuse<D> {
    ghost KEEPS_ORDER = { D.KEEPS_ORDER };

    ghost honest = { λ fuse. D.honest fuse.device };

    ghost image = { λ fuse. D.image fuse.device };

    ghost held = { λ fuse. D.held fuse.device };

    ghost failures = { faults_of D.failures };

    const KEEPS_ORDER: bool = D::KEEPS_ORDER;

    fn blocks(&self) -> u32 {
        self.device.blocks()
    }

    fn read(&mut self, address: u32, to: &mut Block) -> Result<(), DeviceFault>
        requires { address < length (D.image self.old.device) }
        ensures block { OnOk result (D.honest self.new.device → to.new ≡ block_at (D.image self.old.device) address) }
        ensures same { D.image self.new.device ≡ D.image self.old.device }
        ensures held { D.held self.new.device ≡ D.held self.old.device }
        ensures honest { D.honest self.new.device → D.honest self.old.device }
        ensures cause { CountsFaults result (faults_of D.failures self.old) (faults_of D.failures self.new) }
        ensures counted { GoesThrough self.old result self.new }
    {
        if self.blows() {
            return Err(DeviceFault);
        }
        self.device.read(address, to)
    }

    fn write(&mut self, address: u32, from: &Block) -> Result<(), DeviceFault>
        requires { address < length (D.image self.old.device) }
        ensures written { OnOk result (D.image self.new.device ≡ slice_set (D.image self.old.device) address from.now) }
        ensures held { OnOk result (D.held self.new.device ≡ wrote D.KEEPS_ORDER (D.held self.old.device) address from.now) }
        ensures fault { OnErr result (D.image self.new.device ≡ D.image self.old.device) }
        ensures fault_held { OnErr result (D.held self.new.device ≡ D.held self.old.device) }
        ensures honest { D.honest self.new.device → D.honest self.old.device }
        ensures cause { CountsFaults result (faults_of D.failures self.old) (faults_of D.failures self.new) }
        ensures counted { GoesThrough self.old result self.new }
    {
        if self.blows() {
            return Err(DeviceFault);
        }
        self.device.write(address, from)
    }

    fn sync(&mut self) -> Result<(), DeviceFault>
        ensures same { D.image self.new.device ≡ D.image self.old.device }
        ensures held { OnOk result (D.held self.new.device ≡ synced (D.held self.old.device)) }
        ensures fault_held { OnErr result (D.held self.new.device ≡ D.held self.old.device) }
        ensures honest { D.honest self.new.device → D.honest self.old.device }
        ensures cause { CountsFaults result (faults_of D.failures self.old) (faults_of D.failures self.new) }
        ensures counted { GoesThrough self.old result self.new }
    {
        if self.blows() {
            return Err(DeviceFault);
        }
        self.device.sync()
    }

    ghost answers = { λ fuse. D.answers fuse.device };

    ghost in_order = { λ keeps fuse. D.in_order keeps fuse.device };
}
