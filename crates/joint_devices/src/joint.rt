ghost use Rattle.std.specs.Prelude.{◌≡◌, ◌+◌, ◌-◌, ◌^◌, min, []};
ghost use Rattle.joint_devices.specs.Joined.{AllHonest, of_device};

use device::{Device, DeviceFault};
use http_server::Log;
use layout::Block;
use std::marker::Model;

/// A device that was loaded by the help of others, which were let go since: what is known of its image rests on what they read
/// too. So it is honest where it and each of them was, and else it is the device.
#[derive(Drop)]
pub struct Joint<D> {
    device: D,
    /// The others, each as it was let go. Only clauses read them.
    readers: Log<D, ()>,
}

impl<D> Model for Joint<D> {
    ghost use Rattle.std.specs.Prelude.{map};
    ghost use Rattle.joint_devices.specs.Joined.{Joined};

    ghost Value = { Joined D };

    ghost view = { λ joint. record { device = joint.device; readers = map (λ (r : _). r.0) joint.readers.items } };
}

impl<D: Drop> Joint<D> {
    /// This device, beside which these have read. They are let go.
    pub fn new(device: D, others: Vec<D>) -> Joint<D>
        ensures { result ≡ record { device = device; readers = others.items } }
    {
        let mut readers = Log::new();
        for other in others {
            readers = readers.and(&other, &());
        }
        Joint { device, readers }
    }
}

impl<D> Joint<D> {
    /// The device.
    pub fn device(&self) -> &D
        ensures { result.now ≡ self.now.device }
    {
        &self.device
    }
}

impl<D: Device> Device for Joint<D> {
    ghost KEEPS_ORDER = { D.KEEPS_ORDER };

    ghost honest = { AllHonest D.honest };

    ghost image = { of_device D.image };

    ghost held = { of_device D.held };

    ghost failures = { of_device D.failures };

    const KEEPS_ORDER: bool = D::KEEPS_ORDER;

    fn blocks(&self) -> u32 {
        self.device.blocks()
    }

    fn read(&mut self, address: u32, to: &mut Block) -> Result<(), DeviceFault> {
        self.device.read(address, to)
    }

    fn write(&mut self, address: u32, from: &Block) -> Result<(), DeviceFault> {
        self.device.write(address, from)
    }

    fn sync(&mut self) -> Result<(), DeviceFault> {
        self.device.sync()
    }

    ghost answers = { λ joint. D.answers joint.device };

    ghost in_order = { λ keeps joint. D.in_order keeps joint.device };
}
