//! A worker that reads the blocks of groups, and ahead of the others those of directories.
ghost use Rattle.std.specs.Prelude.{◌≡◌, ◌<◌, [], All, IfOk, length, map};
ghost use Rattle.model.specs.Layout.{block_count};
ghost use Rattle.loaders.specs.Readers.{GivesHeader, IsRead, ReadsAhead, StaysAhead};

use crate::room::{reserved, share_of};
use device::Device;
use frozen::{Placed, read_header};
use layout::{Block, Geometry, Refusal};
use std::alloc::{AllocError, Global};
use std::sync::Arc;
use workers::Work;

/// The blocks of a group that come before its data blocks, or why they are refused.
pub(crate) type Header = Result<Vec<Option<Arc<Block>>>, Refusal>;

/// A worker with a device of its own, of which it reads the blocks of groups of a volume.
#[derive(Drop)]
pub(crate) struct Reader<D> {
    pub(crate) alloc: Global,
    pub(crate) geometry: Geometry,
    pub(crate) device: D,
    /// Blocks of directories that it met in its groups.
    pub(crate) ahead: Vec<Placed>,
    /// By how many bytes the heap of its thread is to grow before its first group; 0 once that was asked for.
    pub(crate) share: usize,
    /// What was reserved for that.
    pub(crate) room: Vec<u8>,
}

impl<D: Device + Send + Drop> Work for Reader<D> {
    type Part = Header;

    ghost gives = { λ before unit part after. (after.geometry ≡ before.geometry)
        × GivesHeader D.honest D.image D.held before.geometry unit part before.device after.device
        × StaysAhead D.honest D.image before.geometry before.device before.ahead.items after.device after.ahead.items };

    /// A group's blocks. A refusal stands in the part, so that it is told in order of the groups. Past the last group, and where
    /// the device has not as many blocks as the volume, nothing is read.
    fn part(&mut self, unit: u32) -> Result<Header, Refusal> {
        if unit >= self.geometry.groups() || self.device.blocks() != self.geometry.blocks() {
            return Ok(Err(Refusal::BadLength));
        }
        self.grow_heap();
        Ok(self.read_group(unit))
    }
}

impl<D> Reader<D> {
    /// Has the heap of this thread grow at once by what the worker's share of the volume takes, the first time. Where there is no
    /// memory for that it goes on without.
    fn grow_heap(&mut self)
        ensures geometry { self.new.geometry ≡ self.old.geometry }
        ensures device { self.new.device ≡ self.old.device }
        ensures ahead { self.new.ahead ≡ self.old.ahead }
    {
        if self.share > 0 {
            self.room = reserved(self.alloc, self.share);
            self.room = Vec::new(self.alloc);
            self.share = 0;
        }
    }
}

impl<D: Device> Reader<D> {
    /// Reads the blocks of a group that come before its data blocks, and ahead those of the directories whose records stand there.
    fn read_group(&mut self, group: u32) -> Header
        requires count { length (D.image self.old.device) ≡ block_count self.old.geometry }
        requires in_volume { group < self.old.geometry.groups }

        ensures read { IsRead (D.honest self.new.device) self.old.geometry (D.image self.old.device) group result }
        ensures ahead { ReadsAhead D.honest D.image D.held self.old self.new }
    {
        let header = read_header(self.alloc, &mut self.device, &self.geometry, group)?;
        self.read_ahead(header.as_slice())?;
        Ok(header)
    }
}

/// A worker for each of these devices.
pub(crate) fn readers<D: Device + Send + Drop>(
    alloc: Global,
    geometry: &Geometry,
    devices: Vec<D>,
) -> Result<Vec<Reader<D>>, AllocError>
    ensures devices { IfOk result (λ readers. map (λ (reader : _). reader.device) readers.items ≡ devices.items) }
    ensures geometry { IfOk result (λ readers. All (λ reader. reader.geometry ≡ geometry.now) readers.items) }
    ensures ahead { IfOk result (λ readers. All (λ reader. reader.ahead.items ≡ []) readers.items) }
{
    let share = share_of(alloc, geometry, devices.len());
    let mut readers = Vec::with_capacity(alloc, devices.len())?;
    for device in devices {
        readers.push(Reader {
            alloc,
            geometry: *geometry,
            device,
            ahead: Vec::new(alloc),
            share,
            room: Vec::new(alloc),
        })?;
    }
    Ok(readers)
}

/// The devices of these workers, and the blocks that each read ahead.
pub(crate) fn apart<D: Device + Send + Drop>(
    alloc: Global,
    readers: Vec<Reader<D>>,
) -> Result<(Vec<D>, Vec<Vec<Placed>>), AllocError>
    ensures devices { IfOk result (λ apart. apart.0.items ≡ map (λ (reader : _). reader.device) readers.items) }
    ensures ahead { IfOk result (λ apart. apart.1.items ≡ map (λ (reader : _). reader.ahead) readers.items) }
{
    let mut devices = Vec::with_capacity(alloc, readers.len())?;
    let mut ahead = Vec::with_capacity(alloc, readers.len())?;
    for reader in readers {
        devices.push(reader.device)?;
        ahead.push(reader.ahead)?;
    }
    Ok((devices, ahead))
}
