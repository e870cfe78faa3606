ghost use Rattle.std.specs.Prelude.{◌≡◌, ℕ, ◌≤◌, ◌<◌, ◌^◌, All, IfOk, IfSome, IfNone, vec_len};
ghost use Rattle.model.specs.Layout.{inode_count};
ghost use Rattle.claims.specs.Counting.{times};
ghost use Rattle.claims.specs.Marks.{AreMarksOf, word_of, bit_of};
ghost use Rattle.claims.specs.Seats.{new_seat, after_claim, after_unit, after_none};

use crate::history::{History, Terms};
use crate::rule::{ByHistory, Draws, Marks, OnePart};
use crate::seats::Seat;
use atomic_table::Table;
use layout::Geometry;
use std::alloc::{AllocError, Global};
use std::marker::Model;

/// Numbers to be claimed, a bit for each in words of 64, and units to be drawn, from 0 on by a ticket.
#[derive(Drop)]
pub struct Claims {
    pub(crate) table: Table<(), History, Terms, ByHistory, Global>,
}

impl Model for Claims {
    ghost use Rattle.claims.specs.Seats.{Claimed};
    ghost use Rattle.claims.specs.Opened.{IsOpened};

    ghost Value = { Claimed };

    ghost view = { λ c. record {
      id = c.table.shared.table_id;
      inodes = c.table.shared.key.inodes;
      units = c.table.shared.key.units;
      seats = c.table.shared.key.seats;
      opening = c.table.shared.key.opening.items;
    } };

    ghost invariant = { λ c. IsOpened c.table.shared.table_id c.table.shared.key };
}

impl Claims {
    /// Claims of the inode numbers of a volume, and 1 to 64 seats, one for each worker. The numbers of the opening list
    /// are claimed from the start. It takes the memory of all claims and draws; `AllocError` is refused where there is
    /// none.
    pub fn new(
        alloc: Global,
        geometry: &Geometry,
        units: u32,
        seats: u32,
        opening: Vec<u32>,
    ) -> Result<(Claims, Vec<Seat>), AllocError>
        requires seats { (1 ≤ seats) × (seats ≤ 64) }
        requires opening { All (λ n. n < inode_count geometry.now) opening.items }
        requires once { (n : ℕ) → times n opening.items ≤ 1 }
        ensures inodes { IfOk result (λ made. made.0.inodes ≡ inode_count geometry.now) }
        ensures units { IfOk result (λ made. made.0.units ≡ units) }
        ensures seats { IfOk result (λ made. (made.0.seats ≡ seats) × (vec_len made.1 ≡ seats)) }
        ensures opening { IfOk result (λ made. made.0.opening ≡ opening.items) }
        ensures fresh { IfOk result (λ made. All (λ seat. seat ≡ new_seat made.0.id units) made.1.items) }
    {
        let inodes = geometry.inodes();
        of_terms(
            alloc,
            Terms {
                inodes,
                units,
                seats,
                opening,
            },
        )
    }

    /// Units to be drawn, with no number to be claimed, and 1 to 64 seats. `AllocError` is refused where there is no
    /// memory.
    pub fn of_units(
        alloc: Global,
        units: u32,
        seats: u32,
    ) -> Result<(Claims, Vec<Seat>), AllocError>
        requires seats { (1 ≤ seats) × (seats ≤ 64) }
        ensures units { IfOk result (λ made. made.0.units ≡ units) }
        ensures seats { IfOk result (λ made. (made.0.seats ≡ seats) × (vec_len made.1 ≡ seats)) }
        ensures fresh { IfOk result (λ made. All (λ seat. seat ≡ new_seat made.0.id units) made.1.items) }
    {
        of_terms(
            alloc,
            Terms {
                inodes: 0,
                units,
                seats,
                opening: Vec::new(alloc),
            },
        )
    }

    /// Claims a number for a seat. It is given to the first seat that claims it, and refused to all others; where it
    /// stands in the opening list, or was given to this seat before, it is refused too.
    pub fn claim(&self, seat: &mut Seat, inode: u32) -> bool
        requires own { seat.old.of ≡ self.now.id }
        requires number { inode < self.now.inodes }
        ensures { seat.new ≡ after_claim seat.old inode result }
    {
        let mask = mask_of(inode);
        let found = self
            .table
            .shared
            .fetch_or::<Marks>(&mut seat.seat, place_of(inode), mask);
        found & mask == 0
    }

    /// Draws a unit that nobody drew before, above those of this seat, or `None` where none is left. A seat that was
    /// told so is told so again.
    pub fn draw(&self, seat: &mut Seat) -> Option<u32>
        requires own { seat.old.of ≡ self.now.id }
        ensures unit { IfSome result (λ unit. (seat.new ≡ after_unit seat.old unit) × (unit < seat.old.units)
            × ((before : ℕ) → 0 < times before seat.old.drawn → before < unit)) }
        ensures end { IfNone result (seat.new ≡ after_none seat.old) }
    {
        if seat.ended {
            return None;
        }
        let found = self.table.shared.fetch_add::<Draws>(&mut seat.seat, 0, 1);
        if found < u64::from(seat.units) {
            Some(found as u32)
        } else {
            seat.ended = true;
            None
        }
    }
}

/// The word of a number, and its bit there.
fn place_of(number: u32) -> usize
    ensures { result ≡ word_of number }
{
    1 + (number / 64) as usize
}

fn mask_of(number: u32) -> u64
    ensures { result ≡ 2 ^ bit_of number }
{
    1 << (number % 64)
}

/// The table of these terms, and a seat for each part.
fn of_terms(alloc: Global, terms: Terms) -> Result<(Claims, Vec<Seat>), AllocError>
    requires seats { (1 ≤ terms.seats) × (terms.seats ≤ 64) }
    requires inodes { terms.inodes ≤ 65_536 }
    requires opening { All (λ n. n < terms.inodes) terms.opening.items }
    requires once { (n : ℕ) → times n terms.opening.items ≤ 1 }
    ensures inodes { IfOk result (λ made. made.0.inodes ≡ terms.inodes) }
    ensures units { IfOk result (λ made. made.0.units ≡ terms.units) }
    ensures seats { IfOk result (λ made. (made.0.seats ≡ terms.seats) × (vec_len made.1 ≡ terms.seats)) }
    ensures opening { IfOk result (λ made. made.0.opening ≡ terms.opening.items) }
    ensures fresh { IfOk result (λ made. All (λ seat. seat ≡ new_seat made.0.id terms.units) made.1.items) }
{
    let words = opening_words(alloc, terms.inodes, terms.opening.as_slice())?;
    let (table, mut whole) = Table::of_words(alloc, words.as_slice(), &terms)?;
    let mut seats = Vec::new(alloc);
    for _seat in 0..terms.seats {
        let seat = table.shared.split_seat::<OnePart>(&mut whole);
        seats.push(Seat {
            seat,
            units: terms.units,
            ended: false,
        })?;
    }
    Ok((Claims { table }, seats))
}

/// The words with the marks of these numbers, and the ticket at 0.
fn opening_words(alloc: Global, inodes: u32, opening: &[u32]) -> Result<Vec<u64>, AllocError>
    requires inodes { inodes ≤ 65_536 }
    requires opening { All (λ n. n < inodes) opening.now }
    requires once { (n : ℕ) → times n opening.now ≤ 1 }
    ensures { IfOk result (λ words. AreMarksOf inodes opening.now words.items) }
{
    let mut words = Vec::from_elem(alloc, 0u64, 1 + (inodes as usize + 63) / 64)?;
    for number in opening {
        words[place_of(*number)] |= mask_of(*number);
    }
    Ok(words)
}
