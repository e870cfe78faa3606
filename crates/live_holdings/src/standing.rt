//! The snapshots that stand, each with the number of its freeze.

ghost use Rattle.std.specs.Prelude.{◌≡◌, ◌==◌, ◌≤◌, IfOk, false, length, not};
ghost use Rattle.std.specs.Arc.{arc_value};
ghost use Rattle.std.specs.Option.{option_copied, option_map};
ghost use Rattle.frozen.specs.Kept.{frozen_view};
ghost use Rattle.machine.specs.Standing.{begun, ended, image_at, latest_at, none_yet, others, too_many};
ghost use Rattle.live_states.specs.Holdings.{kept_by};
ghost use Rattle.live_states.specs.Snapshots.{places};
ghost use Rattle.live_holdings.specs.Numbers.{number_over};

use cgmaps::{Map, bit_of};
use frozen::Frozen;
use std::alloc::{AllocError, Global};
use std::marker::Model;
use std::sync::Arc;

/// How many snapshots may stand at once.
const MOST: usize = 4;

/// A snapshot that stands.
#[derive(Drop)]
struct Snapshot {
    /// The number of its freeze.
    number: u64,
    /// The metadata that it keeps.
    image: Arc<Frozen>,
}

impl Model for Snapshot {
    ghost use Rattle.std.specs.Arc.{arc_value};
    ghost use Rattle.frozen.specs.Kept.{Kept};
    ghost use Rattle.machine.specs.Standing.{Standing};

    ghost Value = { Standing Kept };

    ghost view = { λ snapshot. record { number = snapshot.number; image = arc_value snapshot.image } };
}

/// The snapshots that stand, the newest first, and how many freezes there were. There is room for as many as may stand.
#[derive(Drop)]
pub(crate) struct Snapshots {
    standing: Vec<Snapshot>,
    freezes: u64,
}

impl Model for Snapshots {
    ghost use Rattle.std.specs.Prelude.{◌≤◌, vec_capacity};
    ghost use Rattle.frozen.specs.Kept.{Kept};
    ghost use Rattle.machine.specs.Standing.{Snapshots as Stood};

    ghost Value = { Stood Kept };

    ghost view = { λ snapshots. record { standing = snapshots.standing.items; freezes = snapshots.freezes } };

    ghost invariant = { λ snapshots. 4 ≤ vec_capacity snapshots.standing };
}

impl Snapshot {
    /// Whether it has this number.
    fn has_number(&self, number: u64) -> bool
        ensures { result ≡ (self.now.number == number) }
    {
        self.number == number
    }

    /// Its number.
    fn number(&self) -> u64
        ensures { result ≡ self.now.number }
    {
        self.number
    }

    /// The metadata that it keeps.
    fn image(&self) -> &Arc<Frozen>
        ensures { arc_value result.now ≡ self.now.image }
    {
        &self.image
    }

    /// Whether it has a block marked.
    fn marks(&self, address: u32) -> bool
        ensures { result ≡ (frozen_view self.now.image).block_marked address }
    {
        is_marked(&self.image, address)
    }
}

impl Snapshots {
    /// None, before any freeze. Takes memory for as many as may stand.
    pub(crate) fn new(alloc: Global) -> Result<Snapshots, AllocError>
        ensures { IfOk result (λ snapshots. snapshots ≡ none_yet) }
    {
        Ok(Snapshots {
            standing: Vec::with_capacity(alloc, MOST)?,
            freezes: 0,
        })
    }

    /// Whether one more may begin: fewer than four stand, and a number is left for it.
    pub(crate) fn has_room(&self) -> bool
        ensures { result ≡ not (too_many self.now) }
    {
        self.standing.len() < MOST && self.freezes < u64::MAX
    }

    /// Whether one of them keeps a block.
    pub(crate) fn keep(&self, address: u32) -> bool
        ensures { result ≡ kept_by self.now.standing address }
    {
        any_keeps(&self.standing, address)
    }

    /// Whether one of them that has another number than this keeps a block.
    pub(crate) fn keep_besides(&self, number: u64, address: u32) -> bool
        ensures { result ≡ kept_by (others self.now.standing number) address }
    {
        any_other_keeps(&self.standing, number, address)
    }

    /// The metadata of the one with this number, where it stands.
    pub(crate) fn image(&self, number: u64) -> Option<&Arc<Frozen>>
        ensures { option_map arc_value (option_copied result) ≡ image_at self.now.standing number }
    {
        image_of(&self.standing, number)
    }

    /// The metadata of the one of the latest freeze, where it stands.
    pub(crate) fn latest(&self) -> Option<&Arc<Frozen>>
        ensures { option_map arc_value (option_copied result) ≡ latest_at self.now.standing self.now.freezes }
    {
        if self.freezes == 0 {
            return None;
        }
        self.image(self.freezes - 1)
    }

    /// The numbers of those that stand, ascending, empty places last.
    pub(crate) fn numbers(&self) -> [Option<u64>; 4]
        requires { length self.now.standing ≤ 4 }
        ensures { result ≡ places self.now.standing }
    {
        numbers_of(&self.standing)
    }

    /// One more begins, where there is room. Gives its number.
    pub(crate) fn begin(&mut self, image: Arc<Frozen>) -> u64
        requires { too_many self.old ≡ false }
        ensures begun { self.new ≡ begun self.old (arc_value image) }
        ensures number { result ≡ self.old.freezes }
    {
        let number = self.freezes;
        self.standing.insert(0, Snapshot { number, image }).unwrap();
        self.freezes = number + 1;
        number
    }

    /// The one with this number ends.
    pub(crate) fn end(&mut self, number: u64)
        ensures { self.new ≡ ended self.old number }
    {
        self.standing
            .retain(|snapshot| !snapshot.has_number(number));
    }
}

/// Whether one of these keeps a block.
fn any_keeps(standing: &[Snapshot], address: u32) -> bool
    ensures { result ≡ kept_by standing.now address }
{
    for snapshot in standing {
        if snapshot.marks(address) {
            return true;
        }
    }
    false
}

/// Whether one of these that has another number than this keeps a block.
fn any_other_keeps(standing: &[Snapshot], number: u64, address: u32) -> bool
    ensures { result ≡ kept_by (others standing.now number) address }
{
    for snapshot in standing {
        if !snapshot.has_number(number) && snapshot.marks(address) {
            return true;
        }
    }
    false
}

/// The metadata of the one of these with this number, where it stands.
fn image_of(standing: &[Snapshot], number: u64) -> Option<&Arc<Frozen>>
    ensures { option_map arc_value (option_copied result) ≡ image_at standing.now number }
{
    for snapshot in standing {
        if snapshot.has_number(number) {
            return Some(snapshot.image());
        }
    }
    None
}

/// The numbers of these, which are four at most, from the last one on, empty places last.
fn numbers_of(standing: &[Snapshot]) -> [Option<u64>; 4]
    requires { length standing.now ≤ 4 }
    ensures { result ≡ places standing.now }
{
    [
        number_over(standing, 0),
        number_over(standing, 1),
        number_over(standing, 2),
        number_over(standing, 3),
    ]
}

/// The number of the one of these behind which so many stand.
fn number_over(standing: &[Snapshot], older: usize) -> Option<u64>
    ensures { result ≡ number_over standing.now older }
{
    if older < standing.len() {
        Some(standing[standing.len() - 1 - older].number())
    } else {
        None
    }
}

/// Whether a data block is marked.
fn is_marked(frozen: &Frozen, address: u32) -> bool
    ensures { result ≡ (frozen_view frozen.now).block_marked address }
{
    match frozen.geometry().place_of(address) {
        Some(place) => bit_of(frozen.maps_of(place.group), Map::Blocks, place.bit),
        None => false,
    }
}
