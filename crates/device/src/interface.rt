ghost use Rattle.std.specs.Prelude.{◌≡◌, ℕ, ◌<◌, Bool, true, List, length, All, OnOk, OnErr, slice_set};
ghost use Rattle.model.specs.Image.{IsBlock, block_at};
ghost use Rattle.device.specs.Media.{Held, IsInOrder, IsWhole, image_of, synced, wrote};
ghost use Rattle.device.specs.Writes.{CountsFaults};
ghost use Rattle.layout.specs.declared.refusal.Refusal.TheVariants.{Device as DeviceRefusal};

use layout::{Block, Refusal};

/// The device failed in a call, which changed nothing but the block that was to be read: that may hold anything.
#[derive(Clone, Copy, Debug, PartialEq, Eq)]
pub struct DeviceFault;

impl From<DeviceFault> for Refusal {
    ghost from_gives = { λ _ refusal. refusal ≡ DeviceRefusal };

    fn from(_fault: DeviceFault) -> Refusal {
        Refusal::Device
    }
}

/// A device of blocks, which may fail at any call. A block is written whole or not at all.
///
/// A device that keeps order has each write on its medium before it answers. On any other one a loss of power takes back any
/// of the writes since the last sync that was answered, each whole or not at all, whatever their order.
pub trait Device: Drop {
    /// Each write is on the medium before it is answered.
    ghost KEEPS_ORDER: { Bool };

    /// Each read so far gave the block that stood there.
    ghost honest: { Self → Type 0 };

    /// The blocks now, by address.
    ghost image: { Self → List (List ℕ) };

    /// What its medium is now, and was when it began and after each write.
    ghost held: { Self → Held };

    /// How many calls failed; it stands at 2^64 - 1.
    ghost failures: { Self → ℕ };

    /// Whether each write is on the medium before it is answered.
    const KEEPS_ORDER: bool;

    /// How many blocks there are.
    fn blocks(&self) -> u32
        ensures count { result ≡ length (image self.now) }
        ensures whole { All IsBlock (image self.now) }
        ensures medium { IsWhole result (held self.now).now };

    /// Reads the block of this address.
    fn read(&mut self, address: u32, to: &mut Block) -> Result<(), DeviceFault>
        requires { address < length (image self.old) }
        ensures block { OnOk result (honest self.new → to.new ≡ block_at (image self.old) address) }
        ensures same { image self.new ≡ image self.old }
        ensures held { held self.new ≡ held self.old }
        ensures honest { honest self.new → honest self.old }
        ensures cause { CountsFaults result (failures self.old) (failures self.new) };

    /// Writes the block of this address.
    fn write(&mut self, address: u32, from: &Block) -> Result<(), DeviceFault>
        requires { address < length (image self.old) }
        ensures written { OnOk result (image self.new ≡ slice_set (image self.old) address from.now) }
        ensures held { OnOk result (held self.new ≡ wrote KEEPS_ORDER (held self.old) address from.now) }
        ensures fault { OnErr result (image self.new ≡ image self.old) }
        ensures fault_held { OnErr result (held self.new ≡ held self.old) }
        ensures honest { honest self.new → honest self.old }
        ensures cause { CountsFaults result (failures self.old) (failures self.new) };

    /// Waits until all that was written has reached the medium. Where it fails, nothing is known that was not known before;
    /// where it answers later, what was written before the fault is there too.
    fn sync(&mut self) -> Result<(), DeviceFault>
        ensures same { image self.new ≡ image self.old }
        ensures held { OnOk result (held self.new ≡ synced (held self.old)) }
        ensures fault_held { OnErr result (held self.new ≡ held self.old) }
        ensures honest { honest self.new → honest self.old }
        ensures cause { CountsFaults result (failures self.old) (failures self.new) };

    /// What it answers is what is durable, and the writes since over it.
    ghost answers: { (d : Self) → image d ≡ image_of (held d).now };

    /// Where it keeps order, at no moment a write might have been lost.
    ghost in_order: { KEEPS_ORDER ≡ true → (d : Self) → IsInOrder (held d) };
}
