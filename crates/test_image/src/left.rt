use crate::expect::same;
use device::{CacheDevice, Device, MemDevice};
use findings::Verdict;
use layout::{BLOCK_BYTES, Refusal};
use left_images::{Cut, Judge, cuts};
use std::alloc::Global;
use std::thread::Threads;

/// A judge who goes by the first byte of block 0.
#[derive(Drop)]
struct FirstByte;

impl Judge for FirstByte {
    ghost tells = { λ _ _. Unit {0} };

    fn judge<R: Threads + Sync>(&mut self, _rt: &R, device: MemDevice) -> Result<Verdict, Refusal> {
        let mut device = device;
        let mut block = [0; BLOCK_BYTES];
        if device.blocks() == 0 {
            return Err(Refusal::BadLength);
        }
        device.read(0, &mut block)?;
        match block[0] {
            0 => Ok(Verdict::Clean),
            1 => Ok(Verdict::Soft),
            2 => Ok(Verdict::Damaged),
            _ => Err(Refusal::Damaged),
        }
    }
}

/// A step of a device: a write of this byte to this block, or a sync.
#[derive(Clone, Copy)]
enum Step {
    Write(u32, u8),
    Sync,
}

/// A device of two blocks of zeroes after these steps.
fn device_after(alloc: Global, steps: &[Step]) -> Result<CacheDevice, Refusal> {
    let memory = MemDevice::from_bytes(alloc, &[0; 2 * BLOCK_BYTES])?;
    let mut device = CacheDevice::over(alloc, memory)?;
    for step in steps {
        match step {
            Step::Write(address, byte) if *address < device.blocks() => {
                device.write(*address, &[*byte; BLOCK_BYTES])?
            }
            Step::Write(..) => return Err(Refusal::BadIndex),
            Step::Sync => device.sync()?,
        }
    }
    Ok(device)
}

/// What is told where so many images are judged.
fn told(
    rt: &(impl Threads + Sync + AllocGlobal),
    steps: &[Step],
    most: u32,
) -> Result<Vec<Cut>, Refusal> {
    let device = device_after(rt.alloc(), steps)?;
    cuts(rt, rt.alloc(), &device, most, 0, &mut FirstByte)
}

/// What is told of a moment.
fn cut(loose: usize, images: u32, worst: Verdict) -> Cut {
    Cut {
        loose,
        images,
        worst,
    }
}

#[test]
fn each_way_to_lose_writes_is_tried(rt: HostRuntime) -> Result<(), Refusal> {
    let steps = [
        Step::Write(0, 2),
        Step::Write(0, 1),
        Step::Sync,
        Step::Write(1, 3),
        Step::Write(0, 0),
    ];
    let cuts = told(&rt, &steps, 4)?;
    let wanted = [
        cut(0, 1, Verdict::Clean),
        cut(1, 2, Verdict::Damaged),
        // The second of the writes to a block may be lost, and the first one not.
        cut(2, 4, Verdict::Damaged),
        cut(0, 1, Verdict::Soft),
        cut(1, 2, Verdict::Soft),
        cut(2, 4, Verdict::Soft),
    ];
    same(&rt, "each", cuts.as_slice(), &wanted[..]);
    Ok(())
}

#[test]
fn of_many_ways_some_are_tried(rt: HostRuntime) -> Result<(), Refusal> {
    let steps = [Step::Write(0, 2), Step::Write(0, 1), Step::Write(0, 0)];
    // None and all.
    let cuts = told(&rt, &steps, 2)?;
    same(&rt, "two", cuts.get(3), Some(&cut(3, 2, Verdict::Clean)));
    // All but the first, all but the second, and all but the last.
    for (most, worst) in [(3, Verdict::Clean), (4, Verdict::Clean), (5, Verdict::Soft)] {
        let cuts = told(&rt, &steps, most)?;
        same(&rt, most, cuts.get(3), Some(&cut(3, most, worst)));
    }
    Ok(())
}

#[test]
fn what_the_judge_refuses_is_refused(rt: HostRuntime) -> Result<(), Refusal> {
    let refused = told(&rt, &[Step::Write(0, 3)], 2).err();
    same(&rt, "refused", refused, Some(Refusal::Damaged));
    Ok(())
}
