//! What `fsvol` does without words: the findings of a small fresh image in memory.
ghost use Rattle.std.specs.Prelude.{◌≡◌, ◌<◌, IfOk, []};

use crate::bits::{bits, check_numbers};
use crate::make::make;
use command_line::{Answer, Failure};
use device::{Before, MemDevice};
use findings::Finding;
use layout::{BLOCK_BYTES, Geometry, Refusal};
use std::alloc::Global;

/// Checks the number maps of the image.
pub fn answer(alloc: Global) -> Result<Answer, Failure>
    ensures { IfOk result (λ answer. answer.status < 3) }
{
    let findings = check_sample(alloc)?;
    Ok(bits(alloc, findings.as_slice())?)
}

/// The findings of the number maps of a small fresh image in memory: there are none.
pub fn check_sample(alloc: Global) -> Result<Vec<Finding>, Refusal>
    ensures { IfOk result (λ found. found.items ≡ []) }
{
    let geometry = Geometry::new(1, 16, 16)?;
    let bytes = vec![in alloc; 0u8; geometry.blocks() as usize * BLOCK_BYTES]?;
    let mut device = MemDevice::from_bytes(alloc, bytes.as_slice())?;
    make(&mut device, &geometry, Before::Anything)?;
    check_numbers(alloc, &mut device)
}
