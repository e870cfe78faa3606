//! Who calls.
ghost use Rattle.std.specs.Prelude.{◌≡◌, ◌<◌, IfOk, All, vec_len};
ghost use Rattle.std.specs.List.{sum_by};

use std::alloc::{AllocError, Global};
use std::sync::ledger::{Ledger, Share};

/// The right to call a shared volume. How often it was used, since the volume was shared, is its shares' amounts: of
/// repairs, and of other calls.
#[derive(Drop)]
pub struct Seat<L: Ledger, M: Ledger> {
    pub repairs: Share<L>,
    pub others: Share<M>,
    pub ghost one_part: { (repairs.parts ≡ 1) × (others.parts ≡ 1) },
}

/// As many seats as the shares have parts.
pub(crate) fn seated<L: Ledger, M: Ledger>(
    alloc: Global,
    mut repairs: Share<L>,
    mut others: Share<M>,
    seats: u32,
) -> Result<Vec<Seat<L, M>>, AllocError>
    requires parts { (repairs.parts ≡ seats) × (others.parts ≡ seats) }
    requires unused { (repairs.amount ≡ 0) × (others.amount ≡ 0) }
    ensures len { IfOk result (λ seated. vec_len seated ≡ seats) }
    ensures unused { IfOk result (λ seated. All (λ seat. (seat.repairs.amount ≡ 0) × (seat.others.amount ≡ 0)) seated.items) }
{
    let mut seated = Vec::new(alloc);
    for _ in 0..seats {
        seated.push(seat_of(repairs.split_off(1, 0), others.split_off(1, 0)))?;
    }
    Ok(seated)
}

/// The seat of these shares.
fn seat_of<L: Ledger, M: Ledger>(repairs: Share<L>, others: Share<M>) -> Seat<L, M>
    requires { (repairs.parts ≡ 1) × (others.parts ≡ 1) }
    ensures { (result.repairs ≡ repairs) × (result.others ≡ others) }
{
    Seat { repairs, others }
}

/// All seats' shares as one of each.
pub(crate) fn whole<L: Ledger, M: Ledger>(mut seats: Vec<Seat<L, M>>) -> (Share<L>, Share<M>)
    requires { 0 < vec_len seats }
    ensures parts { (result.0.parts ≡ vec_len seats) × (result.1.parts ≡ vec_len seats) }
    ensures repairs { result.0.amount ≡ sum_by (λ seat. seat.repairs.amount) seats.items }
    ensures others { result.1.amount ≡ sum_by (λ seat. seat.others.amount) seats.items }
{
    let Seat {
        repairs: mut all_repairs,
        others: mut all_others,
    } = seats.pop().unwrap();
    while let Some(seat) = seats.pop() {
        let Seat { repairs, others } = seat;
        all_repairs.merge(repairs);
        all_others.merge(others);
    }
    (all_repairs, all_others)
}
