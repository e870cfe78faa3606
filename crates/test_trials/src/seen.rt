//! What users see of a volume.
use device::Device;
use frozen::Frozen;
use layout::Refusal;
use same_metadata::have_same_metadata;
use snapshot::Volume;
use std::alloc::Global;

/// What users see of a volume but for the bytes of files: its metadata, how many blocks are free, which snapshots stand, and
/// how many repairs the check has that is installed.
#[derive(Drop)]
pub struct Seen {
    view: Frozen,
    unmarked: u32,
    standing: [Option<u64>; 4],
    repairs: Option<usize>,
}

impl Seen {
    /// That of a volume now.
    pub fn of<D: Device>(alloc: Global, volume: &Volume<D>) -> Result<Seen, Refusal> {
        let live = volume.live();
        Ok(Seen {
            view: live.view(alloc)?,
            unmarked: live.unmarked_blocks(),
            standing: volume.standing(),
            repairs: live.repair_count(),
        })
    }

    /// Whether it is the same at two moments.
    pub fn is_same(&self, other: &Seen) -> bool {
        self.unmarked == other.unmarked
            && self.standing == other.standing
            && self.repairs == other.repairs
            && have_same_metadata(&self.view, &other.view)
    }
}
