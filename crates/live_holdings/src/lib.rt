//! What a mounted volume has besides its image: the handles that are open, the blocks that are held for snapshots, the
//! metadata that each snapshot keeps, and the repairs of a check that was installed.
#![tactic(auto)]

mod standing;

ghost use Rattle.std.specs.Prelude.{◌≡◌, ◌<◌, ◌≤◌, Some, IfErr, IfOk, MatchOption, OnErr, OnOk, false, length, not, slice_set, true};
ghost use Rattle.std.specs.Arc.{arc_value};
ghost use Rattle.std.specs.List.{All};
ghost use Rattle.std.specs.Option.{option_copied, option_map};
ghost use Rattle.model.specs.Layout.{Geometry as Numbers, block_count};
ghost use Rattle.marks.specs.Marks.{IsNextMarked, NothingMarkedFrom};
ghost use Rattle.machine.specs.Causes.{refusal_of};
ghost use Rattle.machine.specs.Command.{RepairAt};
ghost use Rattle.machine.specs.Standing.{image_at, latest_at, others, too_many};
ghost use Rattle.machine.specs.State.{State};
ghost use Rattle.live_states.specs.Holdings.{Has, IsIdle, Repairs as Listed, is_kept_by, is_open_by, with_done, with_held};
ghost use Rattle.live_states.specs.Snapshots.{IsToDo, installing, keeping, let_go, let_go_blocks, places, unmarked};
ghost use Rattle.live_holdings.specs.Alone.{alone_below};
ghost use Rattle.live_holdings.specs.Handles.{IsFreeHandle, IsOpened, NoFreeHandle, closed, handle_at, without};
ghost use Rattle.live_holdings.specs.Left.{IsLeft, why_not_left};

use findings::Repair;
use frozen::Frozen;
use layout::{Geometry, Refusal};
use marks::Marks;
use standing::Snapshots;
use std::alloc::{AllocError, Global};
use std::marker::Model;
use std::sync::Arc;

/// How many handles may be open at once.
const HANDLES: u32 = 1024;

/// What a mounted volume has besides its image.
pub struct Holdings {
    /// The inode that each handle is open on. Handles past the last one here are not open.
    handles: Vec<Option<u32>>,
    /// Whether each block is held.
    held: Marks,
    /// The snapshots that stand.
    snapshots: Snapshots,
    /// The repairs of a check, where it was installed.
    repairs: Option<Repairs>,
}

/// By hand, so that who drops it goes one step and not one for each field.
impl Drop for Holdings {
    fn drop(self) {
        let Holdings {
            handles: _,
            held: _,
            snapshots: _,
            repairs: _,
        } = self;
    }
}

/// The repairs of a check, and whether each is done.
#[derive(Drop)]
struct Repairs {
    list: Vec<Repair>,
    done: Vec<bool>,
}

impl Model for Repairs {
    ghost use Rattle.std.specs.Prelude.{◌≡◌, length};
    ghost use Rattle.live_states.specs.Holdings.{Repairs as Listed};

    ghost Value = { Listed };

    ghost view = { λ repairs. record { list = repairs.list.items; done = repairs.done.items } };

    ghost invariant = { λ repairs. length repairs.done.items ≡ length repairs.list.items };
}

impl Model for Holdings {
    ghost use Rattle.std.specs.Prelude.{◌≤◌, length};
    ghost use Rattle.live_states.specs.Holdings.{Holdings as Held};

    ghost Value = { Held };

    ghost view = { λ holdings. record { opened = holdings.handles.items; held = holdings.held; snapshots = holdings.snapshots; repairs = holdings.repairs } };

    ghost invariant = { λ holdings. length holdings.handles.items ≤ 1024 };
}

impl Holdings {
    /// Nothing is open, held or installed, and no snapshot stands. Takes memory, an eighth of a byte for each address and
    /// little more.
    pub fn new(alloc: Global, geometry: &Geometry) -> Result<Holdings, AllocError>
        ensures idle { IfOk result IsIdle }
        ensures blocks { IfOk result (λ holdings. length holdings.held ≡ block_count geometry.now) }
    {
        Ok(Holdings {
            handles: Vec::new(alloc),
            held: Marks::new(alloc, geometry.blocks())?,
            snapshots: Snapshots::new(alloc)?,
            repairs: None,
        })
    }

    /// Whether some handle is open on an inode.
    pub fn is_open(&self, number: u32) -> bool
        ensures { result ≡ is_open_by self.now number }
    {
        for handle in &self.handles {
            if *handle == Some(number) {
                return true;
            }
        }
        false
    }

    /// Whether some other handle is open on an inode.
    pub fn is_open_besides(&self, number: u32, handle: u32) -> bool
        ensures { result ≡ is_open_by (closed self.now handle) number }
    {
        for other in 0..self.handles.len() {
            if other != handle as usize && self.handles[other] == Some(number) {
                return true;
            }
        }
        false
    }

    /// Whether a snapshot keeps a block.
    pub fn keeps(&self, address: u32) -> bool
        ensures { result ≡ is_kept_by self.now address }
    {
        self.snapshots.keep(address)
    }

    /// The inode that a handle is open on, if it is open.
    pub fn file_of(&self, handle: u32) -> Option<u32>
        ensures { result ≡ handle_at self.now handle }
    {
        match self.handles.get(handle as usize) {
            Some(opened) => *opened,
            None => None,
        }
    }

    /// The least handle that is not open; `None` where 1,024 are open.
    pub fn free_handle(&self) -> Option<u32>
        ensures { MatchOption result (NoFreeHandle self.now) (IsFreeHandle self.now) }
    {
        for handle in 0..HANDLES {
            if self.file_of(handle).is_none() {
                return Some(handle);
            }
        }
        None
    }

    /// Opens a handle on an inode.
    pub fn open(&mut self, handle: u32, number: u32) -> Result<(), AllocError>
        requires { IsFreeHandle self.old handle }
        ensures opened { OnOk result (IsOpened self.old handle number self.new) }
        ensures untouched { OnErr result (self.new ≡ self.old) }
    {
        if handle as usize == self.handles.len() {
            self.handles.push(Some(number))?;
        } else {
            self.handles[handle as usize] = Some(number);
        }
        Ok(())
    }

    /// Closes this handle, where there is one.
    pub fn close(&mut self, handle: Option<u32>)
        ensures { self.new ≡ without self.old handle }
    {
        if let Some(handle) = handle {
            if let Some(opened) = self.handles.get_mut(handle as usize) {
                *opened = None;
            }
        }
    }

    /// Holds these blocks too.
    pub fn hold(&mut self, blocks: &[u32])
        requires { All (λ a. a < length self.old.held) blocks.now }
        ensures { self.new ≡ with_held self.old blocks.now }
    {
        for block in blocks {
            self.held.mark(*block);
        }
    }

    /// The held blocks that no snapshot keeps but that of this number, the least first.
    pub fn held_alone(&self, alloc: Global, number: u64) -> Result<Vec<u32>, AllocError>
        ensures { IfOk result (λ blocks. blocks.items ≡ let_go_blocks self.now number) }
    {
        marked_alone(alloc, &self.held, &self.snapshots, number)
    }

    /// The least block from this address on that is held; `None` where there is none.
    pub fn next_held(&self, from: u32) -> Option<u32>
        ensures next { MatchOption result (NothingMarkedFrom self.now.held from) (IsNextMarked self.now.held from) }
        ensures few { length self.now.held < 4294967296 }
    {
        self.held.count(); // for the proof: its clause
        self.held.next(from)
    }

    /// Whether one more snapshot may begin: fewer than four stand, and a number is left for it.
    pub fn may_freeze(&self) -> bool
        ensures { result ≡ not (too_many self.now.snapshots) }
    {
        self.snapshots.has_room()
    }

    /// The metadata of the snapshot with this number, where it stands.
    pub fn snapshot(&self, number: u64) -> Option<&Arc<Frozen>>
        ensures { option_map arc_value (option_copied result) ≡ image_at self.now.snapshots.standing number }
    {
        self.snapshots.image(number)
    }

    /// The metadata of the latest freeze's snapshot, where it stands.
    pub fn latest(&self) -> Option<&Arc<Frozen>>
        ensures { option_map arc_value (option_copied result) ≡ latest_at self.now.snapshots.standing self.now.snapshots.freezes }
    {
        self.snapshots.latest()
    }

    /// The numbers of the snapshots that stand, ascending, empty places last.
    pub fn standing(&self) -> [Option<u64>; 4]
        requires { length self.now.snapshots.standing ≤ 4 }
        ensures { result ≡ places self.now.snapshots.standing }
    {
        self.snapshots.numbers()
    }

    /// How many repairs the check has that was installed; `None` where none was.
    pub fn repair_count(&self) -> Option<usize>
        ensures { result ≡ option_map (λ (repairs : Listed). length repairs.list) self.now.repairs }
    {
        self.repairs.as_ref().map(|repairs| repairs.list.len())
    }

    /// Keeps the metadata of one more snapshot, where there is room, and gives its number. The repairs of an older check
    /// are dropped.
    pub fn keep(&mut self, snapshot: Arc<Frozen>) -> u64
        requires { too_many self.old.snapshots ≡ false }
        ensures kept { self.new ≡ keeping self.old (arc_value snapshot) }
        ensures number { result ≡ self.old.snapshots.freezes }
    {
        self.repairs = None;
        self.snapshots.begin(snapshot)
    }

    /// The snapshot with this number ends, and the blocks that are held for it alone are so no more.
    pub fn let_go(&mut self, number: u64, blocks: &[u32])
        requires { blocks.now ≡ let_go_blocks self.old number }
        ensures { self.new ≡ let_go self.old number }
    {
        unmark(&mut self.held, blocks);
        self.snapshots.end(number);
    }

    /// Installs the repairs of a check, none of them done.
    pub fn install(&mut self, alloc: Global, repairs: Vec<Repair>) -> Result<(), AllocError>
        ensures installed { OnOk result (self.new ≡ installing self.old repairs.items) }
        ensures untouched { OnErr result (self.new ≡ self.old) }
    {
        let done = vec![in alloc; false; repairs.len()]?;
        self.repairs = Some(Repairs {
            list: repairs,
            done,
        });
        Ok(())
    }

    /// The repair of this place, which is not done. Refused with `NoPlan` where no check is installed, with `BadIndex`
    /// where it has no such repair, and with `AlreadyDone`.
    pub fn to_do(&self, place: u32) -> Result<Repair, Refusal>
        ensures repair { IfOk result (IsToDo self.now place) }
        ensures refused { IfErr result (λ r. (geo : Numbers) (old : State) → Has self.now old → refusal_of geo old (RepairAt place) ≡ Some r) }
    {
        match &self.repairs {
            Some(repairs) => repairs.left(place),
            None => Err(Refusal::NoPlan),
        }
    }

    /// Notes that the repair of this place is done, where there is one.
    pub fn finish(&mut self, place: u32)
        ensures { self.new ≡ with_done self.old place }
    {
        if let Some(repairs) = &mut self.repairs {
            repairs.finish(place);
        }
    }
}

impl Repairs {
    /// The repair of this place, which is not done. Refused with `BadIndex` where there is none, and with `AlreadyDone`.
    fn left(&self, place: u32) -> Result<Repair, Refusal>
        ensures repair { IfOk result (IsLeft self.now place) }
        ensures refused { IfErr result (λ r. why_not_left self.now place ≡ Some r) }
    {
        match self.list.get(place as usize) {
            Some(_) if self.done[place as usize] => Err(Refusal::AlreadyDone),
            Some(repair) => Ok(*repair),
            None => Err(Refusal::BadIndex),
        }
    }

    /// Notes that the repair of this place is done, where there is one.
    fn finish(&mut self, place: u32)
        ensures { self.new ≡ record self.old { done = slice_set self.old.done place true } }
    {
        if let Some(done) = self.done.get_mut(place as usize) {
            *done = true;
        }
    }
}

/// The marked numbers that no snapshot keeps but that of this number, the least first.
fn marked_alone(
    alloc: Global,
    marks: &Marks,
    snapshots: &Snapshots,
    number: u64,
) -> Result<Vec<u32>, AllocError>
    ensures { IfOk result (λ blocks. blocks.items ≡ alone_below marks.now (others snapshots.now.standing number) (length marks.now)) }
{
    marks.count(); // for the proof: its clause
    let mut blocks = Vec::new(alloc);
    let mut from = 0;
    while let Some(block) = marks.next(from) {
        if !snapshots.keep_besides(number, block) {
            blocks.push(block)?;
        }
        from = block + 1;
    }
    Ok(blocks)
}

/// Takes the marks of these numbers away.
fn unmark(marks: &mut Marks, numbers: &[u32])
    requires { All (λ n. n < length marks.old) numbers.now }
    ensures { marks.new ≡ unmarked numbers.now marks.old }
{
    for number in numbers {
        marks.unmark(*number);
    }
}
