ghost use Rattle.std.specs.Prelude.{◌≡◌, ◌+◌, ◌-◌, ◌^◌, min};

use device::{Device, DeviceFault};
use layout::Block;
use std::marker::Model;

/// A device over another one, which counts the calls of that one, and how many of them failed.
#[derive(Drop)]
pub struct Watched<D> {
    device: D,
    calls: u64,
    faults: u64,
}

impl<D> Model for Watched<D> {
    ghost use Rattle.test_trials.specs.Watch.{Watch};

    ghost Value = { Watch D };

    ghost view = { λ watched. record { device = watched.device; calls = watched.calls; faults = watched.faults } };
}

impl<D> Watched<D> {
    /// A device over this one, before its first call.
    pub fn new(device: D) -> Watched<D>
        ensures { result ≡ record { device = device; calls = 0; faults = 0 } }
    {
        Watched {
            device,
            calls: 0,
            faults: 0,
        }
    }

    /// The device below.
    pub fn device(&self) -> &D
        ensures { result.now ≡ self.now.device }
    {
        &self.device
    }

    /// How many calls were made.
    pub fn calls(&self) -> u64
        ensures { result ≡ self.now.calls }
    {
        self.calls
    }

    /// How many of them failed.
    pub fn faults(&self) -> u64
        ensures { result ≡ self.now.faults }
    {
        self.faults
    }

    /// Counts a call that came out so.
    fn count(&mut self, outcome: &Result<(), DeviceFault>)
        ensures { self.new.device ≡ self.old.device }
    {
        self.calls = self.calls.saturating_add(1);
        if outcome.is_err() {
            self.faults = self.faults.saturating_add(1);
        }
    }
}

impl<D: Device> Device for Watched<D> {
    ghost KEEPS_ORDER = { D.KEEPS_ORDER };

    ghost honest = { λ watched. D.honest watched.device };

    ghost image = { λ watched. D.image watched.device };

    ghost held = { λ watched. D.held watched.device };

    ghost failures = { λ watched. D.failures watched.device };

    const KEEPS_ORDER: bool = D::KEEPS_ORDER;

    fn blocks(&self) -> u32 {
        self.device.blocks()
    }

    fn read(&mut self, address: u32, to: &mut Block) -> Result<(), DeviceFault> {
        let outcome = self.device.read(address, to);
        self.count(&outcome);
        outcome
    }

    fn write(&mut self, address: u32, from: &Block) -> Result<(), DeviceFault> {
        let outcome = self.device.write(address, from);
        self.count(&outcome);
        outcome
    }

    fn sync(&mut self) -> Result<(), DeviceFault> {
        let outcome = self.device.sync();
        self.count(&outcome);
        outcome
    }

    ghost answers = { λ watched. D.answers watched.device };

    ghost in_order = { λ keeps watched. D.in_order keeps watched.device };
}
