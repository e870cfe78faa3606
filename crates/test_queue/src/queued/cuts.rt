//! The queue over a device with a write cache: whatever a loss of power may leave shows a closed cut of what was issued, and
//! holds what is durable.
use super::cases::Put;
use super::{addresses, are_updates, change_of, device_of, read_block};
use crate::expect::{holds, same};
use device::{CacheDevice, Device, MemDevice};
use layout::{Geometry, Refusal, SINGLE};
use softdep::{Cell, Cells, Queue, Update};
use spares::Spares;
use std::alloc::Global;
use std::process::Abort;
use std::test::Fail;
use test_noise::Noise;

/// A cell that is written, the block in which it stands, and the byte there that tells which update of it is there.
#[derive(Clone, Copy)]
struct Place {
    cell: Cell,
    block: u32,
    byte: usize,
}

/// Of each block of records two, which their links tell, and two data blocks.
const PLACES: [Place; 10] = [
    Place {
        cell: Cell::Record(2),
        block: 2,
        byte: 258,
    },
    Place {
        cell: Cell::Record(3),
        block: 2,
        byte: 386,
    },
    Place {
        cell: Cell::Record(9),
        block: 3,
        byte: 130,
    },
    Place {
        cell: Cell::Record(10),
        block: 3,
        byte: 258,
    },
    Place {
        cell: Cell::Record(17),
        block: 18,
        byte: 130,
    },
    Place {
        cell: Cell::Record(18),
        block: 18,
        byte: 258,
    },
    Place {
        cell: Cell::Record(25),
        block: 19,
        byte: 130,
    },
    Place {
        cell: Cell::Record(26),
        block: 19,
        byte: 258,
    },
    Place {
        cell: Cell::Block(5),
        block: 5,
        byte: 0,
    },
    Place {
        cell: Cell::Block(6),
        block: 6,
        byte: 0,
    },
];

/// How many updates there are of a cell at most. The byte that tells which one is there is so much more: what stands there at
/// first is less.
const MOST: u8 = 100;

/// How many histories are tried, of so many steps each, with so many power cuts after each step.
const HISTORIES: u64 = 20;

const STEPS: u32 = 60;

const POWER_CUTS: u32 = 5;

/// So many updates of each cell, the first ones.
type Counts = [u8; 10];

/// An update: which cell it is of, by the table above, which update of this cell it is, from 1 on, and how many of each cell
/// it comes after.
#[derive(Drop)]
struct Issued {
    at: usize,
    number: u8,
    after: Counts,
}

/// A queue, its device, and what was issued.
#[derive(Drop)]
struct CutBed {
    queue: Queue,
    device: CacheDevice,
    spares: Spares,
    issued: Vec<Issued>,
    /// How many updates of each cell were issued.
    counts: Counts,
    /// How many of them were durable when that was last looked at.
    durable: Counts,
}

/// So many of a cell.
fn count_at(counts: &Counts, at: usize) -> u8 {
    counts.get(at).copied().unwrap_or(0)
}

/// What the so-many-th update of a cell puts.
fn put_of(cell: Cell, number: u8) -> Put {
    let byte = number.saturating_add(MOST);
    match cell {
        Cell::Record(inode) | Cell::NumberBit(inode) => Put::Record(inode, u16::from(byte)),
        Cell::Block(address) | Cell::BlockBit(address) => Put::Bytes(address, byte),
    }
}

/// Which update of a cell an image shows; 0 where none.
fn shown(image: &mut MemDevice, place: Place) -> Result<u8, Refusal> {
    let block = read_block(image, place.block).ok_or(Refusal::BadIndex)?;
    let byte = block.get(place.byte).copied().unwrap_or(0);
    Ok(byte.saturating_sub(MOST))
}

/// Which updates an image shows.
fn shown_counts(image: &mut MemDevice) -> Result<Counts, Refusal> {
    let mut counts = [0; 10];
    for (count, place) in counts.iter_mut().zip(PLACES) {
        *count = shown(image, place)?;
    }
    Ok(counts)
}

/// Whether these are no fewer of any cell.
fn holds_all(counts: &Counts, fewer: &Counts) -> bool {
    for (count, less) in counts.iter().zip(fewer) {
        if count < less {
            return false;
        }
    }
    true
}

/// Whether each of these updates has with it all that it comes after.
fn is_closed(issued: &[Issued], counts: &Counts) -> bool {
    for update in issued {
        if update.number <= count_at(counts, update.at) && !holds_all(counts, &update.after) {
            return false;
        }
    }
    true
}

/// How many updates these are.
fn sum(counts: &Counts) -> usize {
    let mut all: usize = 0;
    for count in counts {
        all = all.saturating_add(usize::from(*count));
    }
    all
}

impl CutBed {
    /// A queue with nothing issued, over a device on whose medium each byte of a block is the block's address.
    fn new(alloc: Global) -> Result<CutBed, Refusal> {
        let geometry = Geometry::new(2, 16, 16)?.with_version(SINGLE)?;
        let blocks = addresses(alloc)?;
        let mut bed = CutBed {
            queue: Queue::new(alloc, geometry)?,
            device: CacheDevice::over(alloc, device_of(alloc, blocks.as_slice())?)?,
            spares: Spares::new(alloc)?,
            issued: Vec::new(alloc),
            counts: [0; 10],
            durable: [0; 10],
        };
        bed.durable = bed.left(alloc, &[])?;
        Ok(bed)
    }

    /// What a power cut now leaves, with these picks.
    fn left(&self, alloc: Global, picks: &[bool]) -> Result<Counts, Refusal> {
        let mut image = self.device.left(alloc, self.device.steps().len(), picks)?;
        shown_counts(&mut image)
    }

    /// Issues the next update of a cell, after the last ones of these cells.
    fn issue(&mut self, alloc: Global, at: usize, cells: &[usize]) -> Result<(), Refusal> {
        let place = PLACES.get(at).copied().ok_or(Refusal::BadIndex)?;
        let number = count_at(&self.counts, at).saturating_add(1);
        let mut after = [0; 10];
        let mut names = Cells::new(alloc);
        for earlier in cells {
            let other = PLACES.get(*earlier).copied().ok_or(Refusal::BadIndex)?;
            names.push(other.cell)?;
            if let Some(count) = after.get_mut(*earlier) {
                *count = count_at(&self.counts, *earlier);
            }
        }
        let mut updates = Vec::new(alloc);
        updates.push(Update {
            change: change_of(alloc, put_of(place.cell, number))?,
            file: None,
            after: names,
        })?;
        if number > MOST || !are_updates(updates.as_slice(), &self.queue.geometry()) {
            return Err(Refusal::BadIndex);
        }
        self.queue.issue(updates)?;
        self.issued.push(Issued { at, number, after })?;
        if let Some(count) = self.counts.get_mut(at) {
            *count = number;
        }
        Ok(())
    }

    /// Flushes a block; `BadIndex` where there is none.
    fn flush(&mut self, address: u32) -> Result<usize, Refusal> {
        let blocks = self.queue.geometry().blocks();
        if address >= blocks || self.device.blocks() != blocks {
            return Err(Refusal::BadIndex);
        }
        self.queue
            .flush(&mut self.device, address, &mut self.spares)
    }

    /// Syncs; `BadIndex` where the device is not of the volume.
    fn sync(&mut self) -> Result<(), Refusal> {
        if self.device.blocks() != self.queue.geometry().blocks() {
            return Err(Refusal::BadIndex);
        }
        self.queue.sync(&mut self.device, &mut self.spares)
    }

    /// Makes a random step.
    fn step(&mut self, alloc: Global, noise: &mut Noise) -> Result<(), Refusal> {
        match noise.below(16) {
            0..=7 => {
                let at = noise.below(10) as usize;
                let cells = [noise.below(10) as usize, noise.below(10) as usize];
                let count = noise.below(3) as usize;
                self.issue(alloc, at, cells.get(..count).unwrap_or(&[]))
            }
            8..=13 => {
                let at = noise.below(10) as usize;
                let place = PLACES.get(at).copied().ok_or(Refusal::BadIndex)?;
                self.flush(place.block)?;
                Ok(())
            }
            14 => {
                self.flush(0)?;
                Ok(())
            }
            _ => self.sync_now(alloc, noise),
        }
    }

    /// Syncs, but not often, so that much is loose at times: all that was issued is durable then.
    fn sync_now(&mut self, alloc: Global, noise: &mut Noise) -> Result<(), Refusal> {
        if noise.below(4) > 0 {
            return Ok(());
        }
        self.sync()?;
        if self.left(alloc, &[])? != self.counts {
            return Err(Refusal::BadIndex);
        }
        Ok(())
    }

    /// Tries power cuts: what each leaves is closed and holds what is durable, and nothing that was durable is lost. What the
    /// device answers shows all but what is pending.
    fn expect_cuts<R: AllocGlobal + Abort>(
        &mut self,
        rt: &R,
        noise: &mut Noise,
    ) -> Result<(), Refusal> {
        let durable = self.left(rt.alloc(), &[])?;
        holds(rt, "stays", holds_all(&durable, &self.durable));
        self.durable = durable;
        for cut in 0..POWER_CUTS {
            let mut picks = [false; 64];
            for pick in &mut picks {
                *pick = cut > 0 && noise.below(2) == 0;
            }
            let left = self.left(rt.alloc(), &picks)?;
            holds(rt, "closed", is_closed(self.issued.as_slice(), &left));
            holds(rt, "durable", holds_all(&left, &durable));
        }
        let written = self.left(rt.alloc(), &[true; 256])?;
        let pending = self.issued.len().saturating_sub(sum(&written));
        same(rt, "pending", self.queue.pending(), pending);
        Ok(())
    }
}

#[test]
fn each_power_cut_leaves_a_closed_cut(rt: HostRuntime) -> Result<(), Fail> {
    for seed in 0..HISTORIES {
        let mut noise = Noise::new(seed);
        let mut bed = CutBed::new(rt.alloc())?;
        for _ in 0..STEPS {
            bed.step(rt.alloc(), &mut noise)?;
            bed.expect_cuts(&rt, &mut noise)?;
        }
    }
    Ok(())
}
