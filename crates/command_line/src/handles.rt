//! The workers that load an image, and further devices over its file for them.
ghost use Rattle.std.specs.Prelude.{◌≡◌, [], All, IfOk};
ghost use Rattle.file_device.specs.Calls.{all_writes, image_now};

use device::Device;
use file_device::{FileDevice, Start};
use std::alloc::{AllocError, Global};
use std::fs::OpenFile;
use std::os::unix::fs::FileExt;
use std::thread::{Threads, available_parallelism};
use workers::Workers;

/// How many workers load an image where it is not known how many processors there are.
const WORKERS: usize = 4;

/// How many workers load an image for a line that does not say how many: as many as there are processors, and no more than may
/// work.
pub fn workers_here(rt: &impl Threads) -> Workers {
    match available_parallelism(rt) {
        Ok(count) => Workers::nearest(count.get()),
        Err(_) => Workers::nearest(WORKERS),
    }
}

/// How many blocks a device has at least that workers load: of fewer the threads would take longer than they save.
const LEAST_BLOCKS: u32 = 1 << 17;

/// For several workers, a further device for each over the same open file, which shows the same; for one, and for a small image, there
/// is none. There are fewer where the host gives no further handle: what they are for is then done by fewer.
pub fn others_of<F: FileExt + OpenFile + Drop, S: Start>(
    alloc: Global,
    device: &FileDevice<F, S>,
    workers: Workers,
) -> Result<Vec<FileDevice<F, S>>, AllocError>
    requires { all_writes device.now ≡ [] }
    ensures { IfOk result (λ others. All (λ other. image_now S.first other ≡ image_now S.first device.now) others.items) }
{
    let mut others = Vec::new(alloc);
    let is_large = device.blocks() >= LEAST_BLOCKS;
    let workers = workers.count();
    let count = if is_large && workers > 1 { workers } else { 0 };
    for _worker in 0..count {
        let Ok(other) = device.again(alloc) else {
            break;
        };
        others.push(other)?;
    }
    Ok(others)
}
