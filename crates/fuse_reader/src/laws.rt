//! Laws of turns.
ghost use Rattle.std.specs.Prelude.{◌≡◌, ◌⊎◌, ◌<◌, ◌≤◌, ◌-◌, ◌^◌, ℕ, List, length};
ghost use Rattle.frozen.specs.Kept.{Kept};
ghost use Rattle.fuse_wire.specs.declared.errors.Errno.TheVariants.{Stale};
ghost use Rattle.fuse_nodes.specs.Table.{Table, id_of, known};
ghost use Rattle.fuse_reader.specs.Desks.{ByTurns};
ghost use Rattle.fuse_reader.specs.Said.{Refused, Said};
ghost use Rattle.fuse_reader.specs.Turns.{on_node};

/// A request on a node acts on the inode that the kernel was told of by this node, or is refused with ESTALE, whatever turns came
/// since.
pub fn a_request_acts_on_the_inode_that_was_told()
    ensures { (kept : Kept) (image : List (List ℕ)) (t u : Table) (i : ℕ) (f : ℕ → Said) → 2 < i → i < length t → length t ≤ 2 ^ 32
        → (known t i).generation < 2 ^ 32 - 1 → ByTurns kept image t u
        → (on_node u (record { 0 = id_of t i }) f ≡ f i) ⊎ (on_node u (record { 0 = id_of t i }) f ≡ Refused Stale) }
{}
