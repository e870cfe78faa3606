//! What the words say once all seats are back.
ghost use Rattle.std.specs.Prelude.{◌≡◌, ℕ, ◌+◌, ◌<◌, ◌≤◌, All, IfOk, length, vec_len};
ghost use Rattle.std.specs.Slots.{slots_items, slots_len, IsFull};
ghost use Rattle.std.specs.List.Sorted.{IsStrictlyIncreasing};
ghost use Rattle.claims.specs.Counting.{times};
ghost use Rattle.claims.specs.Marks.{mark};
ghost use Rattle.claims.specs.Seats.{AreBack, all_taken};

use crate::claims::Claims;
use crate::rule::Both;
use crate::seats::Seat;
use atomic_table::Closed;
use std::alloc::{AllocError, Global};

impl Claims {
    /// The numbers that are claimed, in order: the opening list and all that was given to a seat. All seats have to come
    /// back; what they were told then fits together. `AllocError` is refused where there is no memory for the list.
    pub fn gather(self, alloc: Global, seats: Vec<Seat>) -> Result<Vec<u32>, AllocError>
        requires count { vec_len seats ≡ self.seats }
        requires own { All (λ seat. seat.of ≡ self.id) seats.items }
        ensures back { AreBack self seats.items }
        ensures order { IfOk result (λ marked. IsStrictlyIncreasing marked.items) }
        ensures marked { IfOk result (λ marked. (n : ℕ) → times n marked.items ≡ times n self.opening + all_taken seats.items n) }
    {
        let Claims { table } = self;
        let mut seats = seats;
        let Some(last) = seats.pop() else {
            unreachable!()
        };
        let Seat {
            seat: mut whole,
            ..
        } = last;
        for other in seats {
            let Seat { seat, .. } = other;
            table.shared.join_seat::<Both>(&mut whole, seat);
        }
        let closed = table.close_with(whole);
        let marked = marked_numbers(alloc, &closed);
        closed.free();
        marked
    }
}

/// The numbers that the words mark, in order.
fn marked_numbers(alloc: Global, closed: &Closed<(), Global>) -> Result<Vec<u32>, AllocError>
    requires full { IsFull closed.now.words }
    requires some { 1 ≤ slots_len closed.now.words }
    requires few { slots_len closed.now.words ≤ 1025 }
    ensures order { IfOk result (λ marked. IsStrictlyIncreasing marked.items) }
    ensures marked { IfOk result (λ marked. (n : ℕ) → times n marked.items ≡ mark (slots_items closed.now.words) n) }
{
    let mut marked = Vec::new(alloc);
    let numbers = 64 * (closed.words.len() as u32 - 1);
    for number in 0..numbers {
        let word = closed.word(1 + (number / 64) as usize);
        if word >> (number % 64) & 1 == 1 {
            marked.push(number)?;
        }
    }
    Ok(marked)
}
