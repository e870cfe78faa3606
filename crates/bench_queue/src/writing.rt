//! What is pending, brought to a device in memory.
use anyhow::Result;
use device::{Device, MemDevice};
use layout::{BLOCK_BYTES, Block, Geometry, Refusal};
use softdep::Queue;
use spares::Spares;
use std::alloc::Global;
use std::time::{Clock, Duration, Instant};

/// What was written.
#[derive(Clone, Copy)]
pub struct Written {
    /// How often the addresses were gone through, where they were.
    pub passes: usize,
    /// How many blocks, each as often as it was written.
    pub writes: usize,
    /// How long it took.
    pub time: Duration,
}

impl Written {
    pub const NOTHING: Written = Written {
        passes: 0,
        writes: 0,
        time: Duration::ZERO,
    };

    /// This, and then that.
    pub fn and(self, later: Written) -> Written {
        Written {
            passes: self.passes.saturating_add(later.passes),
            writes: self.writes.saturating_add(later.writes),
            time: self.time.saturating_add(later.time),
        }
    }
}

/// In which order the addresses are gone through.
#[derive(Clone, Copy, PartialEq, Eq)]
pub enum Order {
    Upward,
    Downward,
}

/// A device with so many blocks as the volume has, of zeroes.
fn fresh_device(alloc: Global, geometry: &Geometry) -> Result<MemDevice, Refusal> {
    let bytes = vec![in alloc; 0u8; geometry.blocks() as usize * BLOCK_BYTES]?;
    MemDevice::from_bytes(alloc, bytes.as_slice())
}

/// Syncs what is pending.
pub fn sync(
    clock: &impl Clock,
    alloc: Global,
    queue: &mut Queue,
    spares: &mut Spares,
) -> Result<Written> {
    let mut device = fresh_device(alloc, &queue.geometry())?;
    let start = Instant::now(clock)?;
    sync_to(queue, &mut device, spares)?;
    let time = start.elapsed(clock)?;
    Ok(Written {
        passes: 0,
        writes: device.writes(),
        time,
    })
}

/// Syncs to a device, unless it is of another length.
fn sync_to<D: Device>(
    queue: &mut Queue,
    device: &mut D,
    spares: &mut Spares,
) -> Result<(), Refusal> {
    if device.blocks() != queue.geometry().blocks() {
        return Err(Refusal::BadLength);
    }
    queue.sync(device, spares)
}

/// Flushes a block to a device, unless the device is of another length or has no such block.
fn flush_to<D: Device>(
    queue: &mut Queue,
    device: &mut D,
    address: u32,
    spares: &mut Spares,
) -> Result<usize, Refusal> {
    let blocks = device.blocks();
    if blocks != queue.geometry().blocks() || address >= blocks {
        return Err(Refusal::BadLength);
    }
    queue.flush(device, address, spares)
}

/// Flushes block after block, in the order of the addresses or in the reverse order, until nothing is pending.
pub fn flush_in_passes(
    clock: &impl Clock,
    alloc: Global,
    queue: &mut Queue,
    spares: &mut Spares,
    order: Order,
) -> Result<Written> {
    let mut device = fresh_device(alloc, &queue.geometry())?;
    let mut passes = 0usize;
    let start = Instant::now(clock)?;
    for _ in 0..u64::MAX {
        if queue.pending() == 0 {
            break;
        }
        flush_each(queue, &mut device, spares, order)?;
        passes = passes.saturating_add(1);
    }
    let time = start.elapsed(clock)?;
    Ok(Written {
        passes,
        writes: device.writes(),
        time,
    })
}

/// Flushes each block once.
fn flush_each(
    queue: &mut Queue,
    device: &mut MemDevice,
    spares: &mut Spares,
    order: Order,
) -> Result<(), Refusal> {
    let blocks = device.blocks();
    for k in 0..blocks {
        let address = match order {
            Order::Upward => k,
            Order::Downward => blocks - 1 - k,
        };
        flush_to(queue, device, address, spares)?;
    }
    Ok(())
}

/// Flushes the least block with an update that may go to a new device, until no more than so many updates are pending.
pub fn flush_until(
    clock: &impl Clock,
    alloc: Global,
    queue: &mut Queue,
    spares: &mut Spares,
    pending: usize,
) -> Result<Written> {
    let mut device = fresh_device(alloc, &queue.geometry())?;
    let start = Instant::now(clock)?;
    flush_least(queue, &mut device, spares, pending)?;
    let time = start.elapsed(clock)?;
    Ok(Written {
        passes: 1,
        writes: device.writes(),
        time,
    })
}

/// Flushes the least block with an update that may go, until no more than so many updates are pending.
fn flush_least(
    queue: &mut Queue,
    device: &mut MemDevice,
    spares: &mut Spares,
    pending: usize,
) -> Result<(), Refusal> {
    for _ in 0..u64::MAX {
        if queue.pending() <= pending {
            break;
        }
        let Some(address) = queue.least_ready() else {
            break;
        };
        flush_to(queue, device, address, spares)?;
    }
    Ok(())
}

/// Writes the blocks that a sync writes, each as often as the sync does and in its order.
pub fn write_again(
    clock: &impl Clock,
    alloc: Global,
    queue: &mut Queue,
    spares: &mut Spares,
) -> Result<Written> {
    let mut device = fresh_device(alloc, &queue.geometry())?;
    let mut addresses = Vec::new(alloc);
    for _ in 0..u64::MAX {
        let Some(address) = queue.least_ready() else {
            break;
        };
        flush_to(queue, &mut device, address, spares)?;
        addresses.push(address)?;
    }
    write_all(clock, alloc, queue, addresses.as_slice())
}

/// Writes the blocks in which cells stand, each once and in the order of the addresses.
pub fn write_once(
    clock: &impl Clock,
    alloc: Global,
    queue: &Queue,
    homes: &[bool],
) -> Result<Written> {
    let mut addresses = Vec::new(alloc);
    for address in 0..queue.geometry().blocks() {
        if homes.get(address as usize) == Some(&true) {
            addresses.push(address)?;
        }
    }
    write_all(clock, alloc, queue, addresses.as_slice())
}

/// Writes the blocks of these addresses.
fn write_all(
    clock: &impl Clock,
    alloc: Global,
    queue: &Queue,
    addresses: &[u32],
) -> Result<Written> {
    let mut device = fresh_device(alloc, &queue.geometry())?;
    let block = [1; BLOCK_BYTES];
    let start = Instant::now(clock)?;
    for address in addresses {
        write_to(&mut device, *address, &block)?;
    }
    let time = start.elapsed(clock)?;
    Ok(Written {
        passes: 0,
        writes: device.writes(),
        time,
    })
}

/// Writes a block, unless the device has no such block.
fn write_to<D: Device>(device: &mut D, address: u32, block: &Block) -> Result<(), Refusal> {
    if address >= device.blocks() {
        return Err(Refusal::BadLength);
    }
    device.write(address, block)?;
    Ok(())
}
