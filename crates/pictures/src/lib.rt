//! A picture of an image: what each block is used for, a cell for each, as the metadata tells it. So there is one of a
//! soft or a damaged image too, and nothing is written.
#![tactic(auto)]

mod claiming;
mod drawing;
mod picture;
mod scale;
mod uses;

ghost use Rattle.std.specs.Prelude.{◌≡◌, ◌↔◌, ℕ, All, IfErr, IfOk, IsErrOf};
ghost use Rattle.device.specs.Reading.{ReadsOnly};
ghost use Rattle.device.specs.Writes.{HasFailed};
ghost use Rattle.frozen.specs.Kept.{frozen_view};
ghost use Rattle.frozen.specs.Loading.{LoadRefuses};
ghost use Rattle.loaders.specs.Readers.{Show};
ghost use Rattle.model.specs.Image.{IsImage, image_view};
ghost use Rattle.model.specs.Layout.{Geometry as Numbers};
ghost use Rattle.model.specs.View.{View};
ghost use Rattle.pictures.specs.Found.{IsFoundDuplicate, IsFoundLost};
ghost use Rattle.pictures.specs.Uses.{IsPicture, IsUsedAs};

use claiming::cells_of;
use device::Device;
pub use drawing::draw;
use frozen::Frozen;
use layout::Refusal;
use loaders::load_by;
pub use picture::Picture;
use std::alloc::{AllocError, Global};
use std::thread::Threads;
pub use uses::Use;

/// The picture of a device's image, which is read alone. It is loaded by as many workers as there are other devices, which show
/// the same. Refused as an image that cannot be loaded.
pub fn look<D: Device + Send + Drop>(
    rt: &(impl Threads + Sync),
    alloc: Global,
    device: &mut D,
    others: &mut Vec<D>,
) -> Result<Picture, Refusal>
    requires { Show D.image (D.image device.old) others.old.items }
    // Where each read gave what stood there, the blocks are an image, and this is its picture.
    ensures pictured { IfOk result (λ picture. D.honest device.new → All D.honest others.new.items → (geo : Numbers) × IsImage geo (D.image device.old)
        × IsPicture geo (image_view geo (D.image device.old)) picture) }
    ensures refused { IfErr result (λ refusal. LoadRefuses (D.honest device.new × All D.honest others.new.items) (D.image device.old) refusal) }
    ensures cause { IsErrOf result Refusal.Device → HasFailed (D.failures device.old) (D.failures device.new) }

    ensures reads { ReadsOnly D.honest D.image D.held device.old device.new }
{
    let frozen = load_by(rt, alloc, device, others)?;
    Ok(take_picture(alloc, &frozen)?)
}

/// The picture of a frozen image.
pub fn take_picture(alloc: Global, frozen: &Frozen) -> Result<Picture, AllocError>
    ensures { IfOk result (λ picture. IsPicture frozen.now.geometry (frozen_view frozen.now) picture) }
{
    let cells = cells_of(alloc, frozen)?;
    Ok(Picture::new(frozen.geometry(), cells))
}

/// No block has two uses.
pub fn no_block_has_two_uses()
    ensures { (geo : Numbers) (view : View) (a : ℕ) (cell other : Use) → IsUsedAs geo view a cell → IsUsedAs geo view a other → cell ≡ other }
{}

/// The lost blocks and the duplicate ones are those of which a check finds so.
pub fn pictures_show_what_a_check_finds()
    ensures lost { (geo : Numbers) (view : View) (a : ℕ) → IsUsedAs geo view a Use.Lost ↔ IsFoundLost geo view a }
    ensures duplicate { (geo : Numbers) (view : View) (a : ℕ) → IsUsedAs geo view a Use.Duplicate ↔ IsFoundDuplicate geo view a }
{}
