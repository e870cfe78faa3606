use crate::history::History;
use std::marker::Model;

/// A worker's right to claim numbers and to draw units, from one `Claims`. It takes no memory of its own.
#[derive(Drop)]
pub struct Seat {
    pub(crate) seat: atomic_table::Seat<(), History>,
    pub(crate) units: u32,
    pub(crate) ended: bool,
}

impl Model for Seat {
    ghost use Rattle.std.specs.Prelude.{◌≡◌, []};
    ghost use Rattle.claims.specs.Counting.{one_if};
    ghost use Rattle.claims.specs.Seats.{Seated};

    ghost Value = { Seated };

    ghost view = { λ s. record { of = s.seat.table_id; units = s.units; taken = s.seat.me.0.taken; met = s.seat.me.0.met; drawn = s.seat.me.0.drawn; ended = s.ended } };

    ghost invariant = { λ s. (s.seat.me.1 ≡ []) × (s.seat.me.0.units ≡ s.units) × (s.seat.me.0.parts ≡ 1) × (s.seat.me.0.nones ≡ one_if s.ended) };
}
