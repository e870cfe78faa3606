//! What follows from how a flush writes a block, and from what the medium holds.
ghost use Rattle.std.specs.Prelude.{◌≡◌, ℕ, ◌<◌, ◌+◌, Bool, List, [], slice_index};
ghost use Rattle.model.specs.Layout.{Geometry, IsGeometry, inode_block, inode_byte};
ghost use Rattle.model.specs.View.{IsSpare, free_inode, inode_at};
ghost use Rattle.model.specs.Cells.{SetInode};
ghost use Rattle.ordering.specs.Cuts.{Pending};
ghost use Rattle.queue_model.specs.Flush.{TakesChange};
ghost use Rattle.model.specs.View.{View};
ghost use Rattle.model.specs.Image.{IsImage, block_at, image_view};
ghost use Rattle.ordering.specs.Ghosts.{Ghost};
ghost use Rattle.queue_model.specs.Course.{IsGood};
ghost use Rattle.device.specs.Media.{MayBeLeft, Medium};
ghost use Rattle.power_cut.specs.Volumes.{IsSafelyLeft};
ghost use Rattle.softdep.specs.OnMedium.{IsOnMedium};
ghost use Rattle.softdep.specs.Queued.{Queued};
ghost use Rattle.softdep.specs.Writing.{WritesTaken};

/// Of the bytes of a record that stand for nothing, a flush leaves none where it takes an update that frees the record,
/// and else each as it was. Where the record is free then, no byte of it is left.
pub fn a_flush_clears_a_freed_record()
    ensures freed { (geo : Geometry) → IsGeometry geo → (n : ℕ) (q : List Pending) (cut : List Bool) (old new : List ℕ)
        → WritesTaken geo (inode_block geo n) q cut old new
        → TakesChange q cut (SetInode n free_inode) → (k : ℕ) → IsSpare geo.version k → slice_index new (inode_byte n + k) ≡ 0 }
    ensures left { (geo : Geometry) → IsGeometry geo → (n : ℕ) (q : List Pending) (cut : List Bool) (old new : List ℕ)
        → WritesTaken geo (inode_block geo n) q cut old new
        → (TakesChange q cut (SetInode n free_inode) → ⊥) → (k : ℕ) → IsSpare geo.version k
        → slice_index new (inode_byte n + k) ≡ slice_index old (inode_byte n + k) }
    ensures zero { (geo : Geometry) → IsGeometry geo → (n : ℕ) (q : List Pending) (cut : List Bool) (old new : List ℕ)
        → WritesTaken geo (inode_block geo n) q cut old new
        → TakesChange q cut (SetInode n free_inode) → inode_at geo.version new (inode_byte n) ≡ free_inode → (k : ℕ) → k < 128
        → slice_index new (inode_byte n + k) ≡ 0 }
{}

/// Whatever a loss of power leaves of a medium that holds what a queue was given is an image of the volume, and that of a closed
/// cut of what was given, which holds what is durable: it obeys the rules and has the safe files.
pub fn what_a_power_cut_leaves_is_safe()
    ensures image { (mounted : View) (queue : Queued) (m : Medium) (image : List (List ℕ)) → IsOnMedium mounted queue m → MayBeLeft m image
        → IsImage queue.geometry image }
    ensures safe { (mounted : View) (queue : Queued) (m : Medium) (ghost : Ghost) (image : List (List ℕ)) → IsOnMedium mounted queue m
        → IsGood queue.geometry mounted queue.written queue.durable ghost → MayBeLeft m image
        → IsSafelyLeft queue.geometry mounted
        (record { written = queue.written; cut = queue.durable; durable = block_at m.durable; loose = []; ghost = ghost })
        (image_view queue.geometry image) }
{}
