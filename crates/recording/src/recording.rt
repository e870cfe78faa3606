ghost use Rattle.std.specs.Prelude.{◌≡◌, ◌+◌, ◌-◌, ◌<◌, ◌^◌, min, [], ◌∷◌, ◌++◌, length, slice_set, OnErr, OnOk};
ghost use Rattle.model.specs.Image.{block_at};
ghost use Rattle.device.specs.Media.{synced, wrote};
ghost use Rattle.device.specs.Writes.{CountsFaults, image_after};
ghost use Rattle.recording.specs.Recorded.{IsRecorded, writes_of};

use crate::Written;
use device::{Device, DeviceFault};
use http_server::Log;
use layout::Block;
use std::alloc::Global;
use std::marker::Model;

/// A device over another one, with a list of what was written to it. A write that finds no room in the list fails, and
/// does not reach the device below. Each write that was answered is recorded as it was, and no other.
#[derive(Drop)]
pub struct Recording<D: Device> {
    device: D,
    /// The device below as it was at first. Only clauses read it.
    first: Log<D, ()>,
    writes: Vec<Written>,
    failures: u64,
}

impl<D: Device> Model for Recording<D> {
    ghost use Rattle.std.specs.Prelude.{map};
    ghost use Rattle.recording.specs.Recorded.{IsRecorded, Recorded};

    ghost Value = { Recorded D };

    ghost view = { λ recording. record { first = map (λ (e : _). e.0) recording.first.items; device = recording.device; writes = recording.writes.items; failures = recording.failures } };

    ghost invariant = { λ recording. IsRecorded D.KEEPS_ORDER D.held (map (λ (e : _). e.0) recording.first.items) recording.device recording.writes.items };
}

impl<D: Device> Recording<D> {
    /// A device over this one, before its first write.
    pub fn new(alloc: Global, device: D) -> Recording<D>
        ensures { result ≡ record { first = device ∷ []; device = device; writes = []; failures = 0 } }
    {
        let first = Log::new().and(&device, &());
        Recording {
            device,
            first,
            writes: Vec::new(alloc),
            failures: 0,
        }
    }

    /// The writes that were made, the first first.
    pub fn writes(&self) -> &[Written]
        ensures writes { result.now ≡ self.now.writes }
        ensures recorded { IsRecorded D.KEEPS_ORDER D.held self.now.first self.now.device self.now.writes }
        ensures image { (first : D) → self.now.first ≡ first ∷ [] → D.image self.now.device ≡ image_after (D.image first) (writes_of self.now.writes) }
    {
        self.writes.as_slice()
    }
}

impl<D: Device> Device for Recording<D> {
    ghost KEEPS_ORDER = { D.KEEPS_ORDER };

    ghost honest = { λ recording. D.honest recording.device };

    ghost image = { λ recording. D.image recording.device };

    ghost held = { λ recording. D.held recording.device };

    ghost failures = { λ recording. min (D.failures recording.device + recording.failures) (2 ^ 64 - 1) };

    const KEEPS_ORDER: bool = D::KEEPS_ORDER;

    fn blocks(&self) -> u32 {
        self.device.blocks()
    }

    fn read(&mut self, address: u32, to: &mut Block) -> Result<(), DeviceFault>
        requires { address < length (D.image self.old.device) }
        ensures block { OnOk result (D.honest self.new.device → to.new ≡ block_at (D.image self.old.device) address) }
        ensures same { D.image self.new.device ≡ D.image self.old.device }
        ensures held { D.held self.new.device ≡ D.held self.old.device }
        ensures honest { D.honest self.new.device → D.honest self.old.device }
        ensures cause { CountsFaults result (D.failures self.old.device) (D.failures self.new.device) }
        ensures records { (self.new.first ≡ self.old.first) × (self.new.writes ≡ self.old.writes) × (self.new.failures ≡ self.old.failures) }
    {
        self.device.read(address, to)
    }

    fn write(&mut self, address: u32, from: &Block) -> Result<(), DeviceFault>
        requires { address < length (D.image self.old.device) }
        ensures written { OnOk result (D.image self.new.device ≡ slice_set (D.image self.old.device) address from.now) }
        ensures held { OnOk result (D.held self.new.device ≡ wrote D.KEEPS_ORDER (D.held self.old.device) address from.now) }
        ensures fault { OnErr result (D.image self.new.device ≡ D.image self.old.device) }
        ensures fault_held { OnErr result (D.held self.new.device ≡ D.held self.old.device) }
        ensures honest { D.honest self.new.device → D.honest self.old.device }
        ensures cause { CountsFaults result (min (D.failures self.old.device + self.old.failures) (2 ^ 64 - 1)) (min (D.failures self.new.device + self.new.failures) (2 ^ 64 - 1)) }
        // Where it is answered it is recorded as it was, and where it fails it is not.
        ensures records { OnOk result (self.new.writes ≡ self.old.writes ++ record { address = address; block = from.now } ∷ []) }
        ensures records_no_fault { OnErr result (self.new.writes ≡ self.old.writes) }
        ensures first { self.new.first ≡ self.old.first }
    {
        let written = Written {
            address,
            block: *from,
        };
        if self.writes.push(written).is_err() {
            self.failures = self.failures.saturating_add(1);
            return Err(DeviceFault);
        }
        match self.device.write(address, from) {
            Ok(()) => Ok(()),
            Err(fault) => {
                self.writes.pop();
                Err(fault)
            }
        }
    }

    fn sync(&mut self) -> Result<(), DeviceFault>
        ensures same { D.image self.new.device ≡ D.image self.old.device }
        ensures held { OnOk result (D.held self.new.device ≡ synced (D.held self.old.device)) }
        ensures fault_held { OnErr result (D.held self.new.device ≡ D.held self.old.device) }
        ensures honest { D.honest self.new.device → D.honest self.old.device }
        ensures cause { CountsFaults result (D.failures self.old.device) (D.failures self.new.device) }
        ensures records { (self.new.first ≡ self.old.first) × (self.new.writes ≡ self.old.writes) × (self.new.failures ≡ self.old.failures) }
    {
        self.device.sync()
    }

    ghost answers = { λ recording. D.answers recording.device };

    ghost in_order = { λ keeps recording. D.in_order keeps recording.device };
}
