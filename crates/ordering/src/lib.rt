//! The order of updates: each kind of update keeps the invariant of every closed cut.
#![tactic(auto)]

ghost use Rattle.std.specs.Prelude.{◌≡◌, ℕ, Bool, true, false, List, [], ◌∷◌, IsTrue, IsFalse, ◌↔◌};
ghost use Rattle.std.specs.List.{Contains};
ghost use Rattle.model.specs.Layout.{Geometry, is_number};
ghost use Rattle.model.specs.View.{View, Inode};
ghost use Rattle.model.specs.Cells.{SetInode, SetNumber, SetBlock, SetBytes};
ghost use Rattle.model.specs.Rules.{ObeysRules};
ghost use Rattle.ordering.specs.Cuts.{Cell, Pending, EachCut, IsAfter, IsClosed, cell_of, seen, users_view};
ghost use Rattle.ordering.specs.Ghosts.{Ghost, Gone, at_rest};
ghost use Rattle.ordering.specs.Agrees.{AllAgree};
ghost use Rattle.ordering.specs.Kinds.{Keeps, MayFill, MayWrite, MayRaise, MayLower, MayClearNumber, MayClearBlock, number_cleared, block_cleared, settled};
ghost use Rattle.ordering.specs.Rewrites.{MayRewriteFile, MayGrowDirectory, MayCreate, MayFree, moved, freed, entered};
ghost use Rattle.ordering.specs.Rewrites.{MayAppendSlot, MayMoveSlot};
ghost use Rattle.ordering.specs.OneSlot.{MayRemove, MayEnter, MayRename, removed};
ghost use Rattle.ordering.specs.OneSlot.{MayRemoveDirectory, MayEnterDirectory, removed_directory, now_entered};
ghost use Rattle.ordering.specs.Cuts.{rest};
ghost use Rattle.model.specs.Reach.{IsReachable};
ghost use Rattle.ordering.specs.Histories.{Step, Comes_to, IsSafeCut};
ghost use Rattle.ordering.specs.Create.{MayCreateFile, creation};
ghost use Rattle.ordering.specs.ClosedSets.{IsClosedSet};
ghost use Rattle.ordering.specs.Rewrites.{Comes};
ghost use Rattle.ordering.specs.Cuts.{Record, Block};
ghost use Rattle.model.specs.Uses.{IsClaim};
ghost use Rattle.ordering.specs.Remove.{removal, MayRemoveName};

/// A block's bit is set.
pub fn set_block_bit()
    ensures { (geo : Geometry) (disk : View) (q : List Pending) (ghost : Ghost) (after : List Cell) (b : ℕ)
        → IsFalse ((users_view disk q).block_marked b) → Keeps geo disk q ghost (record { change = SetBlock b true; after = after }) ghost }
{}

/// A number's bit is set.
pub fn set_number_bit()
    ensures { (geo : Geometry) (disk : View) (q : List Pending) (ghost : Ghost) (after : List Cell) (n : ℕ) → IsTrue (is_number geo n)
        → IsFalse ((users_view disk q).number_marked n) → Keeps geo disk q ghost (record { change = SetNumber n true; after = after }) ghost }
{}

/// A number's bit is cleared.
pub fn clear_number_bit()
    ensures { (geo : Geometry) (disk : View) (q : List Pending) (ghost : Ghost) (after : List Cell) (n : ℕ)
        → MayClearNumber (users_view disk q) ghost after n
        → Keeps geo disk q ghost (record { change = SetNumber n false; after = after }) (number_cleared n ghost) }
{}

/// A block's bit is cleared.
pub fn clear_block_bit()
    ensures { (geo : Geometry) (disk : View) (q : List Pending) (ghost : Ghost) (after : List Cell) (b : ℕ)
        → MayClearBlock geo (users_view disk q) ghost after b
        → Keeps geo disk q ghost (record { change = SetBlock b false; after = after }) (block_cleared b ghost) }
{}

/// A free block is filled.
pub fn fill()
    ensures { (geo : Geometry) (disk : View) (q : List Pending) (ghost : Ghost) (after : List Cell) (b : ℕ) (bytes : List ℕ)
        → MayFill geo (users_view disk q) ghost after b → Keeps geo disk q ghost (record { change = SetBytes b bytes; after = after }) ghost }
{}

/// A block of a file is written in place.
pub fn write()
    ensures { (geo : Geometry) (disk : View) (q : List Pending) (ghost : Ghost) (after : List Cell) (n p b : ℕ) (bytes : List ℕ)
        → MayWrite geo (users_view disk q) n p b → Keeps geo disk q ghost (record { change = SetBytes b bytes; after = after }) ghost }
{}

/// A record gets no fewer links, or another size over the same blocks.
pub fn raise()
    ensures { (geo : Geometry) (disk : View) (q : List Pending) (ghost : Ghost) (after : List Cell) (n : ℕ) (inode : Inode)
        → MayRaise geo (users_view disk q) n inode → Keeps geo disk q ghost (record { change = SetInode n inode; after = after }) ghost }
{}

/// A record gets fewer links.
pub fn lower()
    ensures { (geo : Geometry) (disk : View) (q : List Pending) (ghost : Ghost) (after : List Cell) (n : ℕ) (inode : Inode)
        → MayLower geo (users_view disk q) ghost after n inode
        → Keeps geo disk q ghost (record { change = SetInode n inode; after = after }) (settled n ghost) }
{}

/// A file grows, shrinks, or moves a block.
pub fn rewrite_file()
    ensures { (geo : Geometry) (disk : View) (q : List Pending) (ghost : Ghost) (held : ℕ → Bool) (given_up : ℕ → ℕ → ℕ → Bool)
        (after : List Cell) (n : ℕ) (inode : Inode) → MayRewriteFile geo disk q ghost (moved held given_up ghost) after n inode
        → Keeps geo disk q ghost (record { change = SetInode n inode; after = after }) (moved held given_up ghost) }
{}

/// A number gets its first record, a file's.
pub fn create_file()
    ensures { (geo : Geometry) (disk : View) (q : List Pending) (ghost : Ghost) (after : List Cell) (n : ℕ) (inode : Inode)
        → MayCreate geo disk q ghost after n inode → Keeps geo disk q ghost (record { change = SetInode n inode; after = after }) ghost }
{}

/// A number gets its first record, a directory's that is yet to be entered.
pub fn create_directory()
    ensures { (geo : Geometry) (disk : View) (q : List Pending) (ghost : Ghost) (after : List Cell) (n : ℕ) (inode : Inode)
        → MayCreate geo disk q ghost after n inode
        → Keeps geo disk q ghost (record { change = SetInode n inode; after = after }) (entered n ghost) }
{}

/// A record is freed.
pub fn free()
    ensures { (geo : Geometry) (disk : View) (q : List Pending) (ghost : Ghost) (held : ℕ → Bool) (given_up : ℕ → ℕ → ℕ → Bool)
        (after : List Cell) (n : ℕ) (inode : Inode) → MayFree geo disk q ghost (freed held given_up n ghost) after n inode
        → Keeps geo disk q ghost (record { change = SetInode n inode; after = after }) (freed held given_up n ghost) }
{}

/// A directory gets empty blocks.
pub fn grow_directory()
    ensures { (geo : Geometry) (disk : View) (q : List Pending) (ghost : Ghost) (after : List Cell) (n : ℕ) (inode : Inode)
        → MayGrowDirectory geo disk q ghost after n inode → Keeps geo disk q ghost (record { change = SetInode n inode; after = after }) ghost }
{}

/// A table of a file or directory gets a pointer that is not in use.
pub fn append_slot()
    ensures { (geo : Geometry) (disk : View) (q : List Pending) (ghost : Ghost) (after : List Cell) (n m x : ℕ) (bytes : List ℕ)
        → MayAppendSlot geo (users_view disk q) after n m x bytes
        → Keeps geo disk q ghost (record { change = SetBytes x bytes; after = after }) ghost }
{}

/// A file's block moves, in the table that holds its pointer.
pub fn move_slot()
    ensures { (geo : Geometry) (disk : View) (q : List Pending) (ghost : Ghost) (held : ℕ → Bool) (given_up : ℕ → ℕ → ℕ → Bool)
        (after : List Cell) (n m x p : ℕ) (bytes : List ℕ)
        → MayMoveSlot geo disk q ghost (moved held given_up ghost) after n m x p bytes
        → Keeps geo disk q ghost (record { change = SetBytes x bytes; after = after }) (moved held given_up ghost) }
{}

/// A name of a file goes.
pub fn remove_name()
    ensures { (geo : Geometry) (disk : View) (q : List Pending) (ghost : Ghost) (after : List Cell) (block : ℕ) (bytes : List ℕ) (d s i : ℕ)
        (name : List ℕ) (safe : ℕ → Bool) → MayRemove geo (users_view disk q) ghost safe after block bytes d s i name
        → Keeps geo disk q ghost (record { change = SetBytes block bytes; after = after }) (removed i d s block safe ghost) }
{}

/// A name of a file comes.
pub fn enter_name()
    ensures { (geo : Geometry) (disk : View) (q : List Pending) (ghost : Ghost) (after : List Cell) (block : ℕ) (bytes : List ℕ) (d s i : ℕ) (name : List ℕ)
        → MayEnter geo (users_view disk q) ghost after block bytes d s i name
        → Keeps geo disk q ghost (record { change = SetBytes block bytes; after = after }) ghost }
{}

/// An entry gets another name.
pub fn rename()
    ensures { (geo : Geometry) (disk : View) (q : List Pending) (ghost : Ghost) (after : List Cell) (block : ℕ) (bytes : List ℕ) (d s i : ℕ) (old new : List ℕ)
        → MayRename geo (users_view disk q) after block bytes d s i old new
        → Keeps geo disk q ghost (record { change = SetBytes block bytes; after = after }) ghost }
{}

/// The entry of an empty directory goes.
pub fn remove_directory()
    ensures { (geo : Geometry) (disk : View) (q : List Pending) (ghost : Ghost) (after : List Cell) (block : ℕ) (bytes : List ℕ) (d s i b : ℕ) (name : List ℕ)
        → MayRemoveDirectory geo (users_view disk q) ghost after block bytes d s i b name
        → Keeps geo disk q ghost (record { change = SetBytes block bytes; after = after }) (removed_directory i d s block b ghost) }
{}

/// The entry of a directory comes that had none.
pub fn enter_directory()
    ensures { (geo : Geometry) (disk : View) (q : List Pending) (ghost : Ghost) (after : List Cell) (block : ℕ) (bytes : List ℕ) (d s i b : ℕ) (name : List ℕ)
        → MayEnterDirectory geo disk q ghost after block bytes d s i b name
        → Keeps geo disk q ghost (record { change = SetBytes block bytes; after = after }) (now_entered i ghost) }
{}

/// The invariant holds with nothing pending.
pub fn with_nothing_pending()
    ensures { (geo : Geometry) (disk : View) (held safe : ℕ → Bool) → ObeysRules geo disk → ((f : ℕ) → IsTrue (safe f) → IsReachable geo disk f)
        → AllAgree geo disk [] (at_rest held safe) }
{}

/// A flush of a closed cut keeps the invariant.
pub fn flush()
    ensures { (geo : Geometry) (disk : View) (q : List Pending) (ghost : Ghost) (cut : List Bool) → IsClosed q cut → AllAgree geo disk q ghost
        → AllAgree geo (seen disk q cut) (rest q cut) ghost }
{}

/// A flush changes nothing that users see.
pub fn flush_is_unseen()
    ensures { (disk : View) (q : List Pending) (cut : List Bool) → IsClosed q cut → users_view (seen disk q cut) (rest q cut) ≡ users_view disk q }
{}

/// An update is after what it was issued after.
pub fn after_what_it_was_issued_after()
    ensures { (disk : View) (q : List Pending) (u : Pending) (c : Cell) → Contains u.after c → IsAfter disk (u ∷ q) (cell_of u.change) c }
{}

/// And after what that is after.
pub fn after_through_another()
    ensures { (disk : View) (q : List Pending) (u : Pending) (c d : Cell) → Contains u.after c → IsAfter disk q c d → IsAfter disk (u ∷ q) (cell_of u.change) d }
{}

/// What is after a cell stays so until that cell is written again.
pub fn after_stays()
    ensures { (disk : View) (q : List Pending) (u : Pending) (c d : Cell) → (d ≡ cell_of u.change → ⊥) → IsAfter disk q c d → IsAfter disk (u ∷ q) c d }
{}

/// Each kind of update keeps the invariant.
pub fn each_step_keeps_the_invariant()
    ensures { (geo : Geometry) (disk : View) (q : List Pending) (ghost : Ghost) (u : Pending) (ghost' : Ghost) → Step geo disk q ghost u ghost'
        → Keeps geo disk q ghost u ghost' }
{}

/// Whatever a volume comes to, each closed cut obeys the rules and has the safe files.
pub fn each_cut_is_safe()
    ensures { (geo : Geometry) (disk : View) (q : List Pending) (ghost : Ghost) → Comes_to geo disk q ghost → (cut : List Bool) → IsClosed q cut
        → IsSafeCut geo (seen disk q cut) ghost }
{}

/// A file is created by three updates.
pub fn create_command()
    ensures { (geo : Geometry) (disk : View) (q : List Pending) (held safe : ℕ → Bool) (n block : ℕ) (bytes : List ℕ) (d s : ℕ) (name : List ℕ) (after : List Cell)
        → MayCreateFile geo (users_view disk q) n block bytes d s name after → AllAgree geo disk q (at_rest held safe)
        → AllAgree geo disk (creation n block bytes after q) (at_rest held safe) }
{}

/// A cut is closed exactly where it takes with each update the earlier ones that it stands on.
pub fn closed_cuts_are_closed_sets()
    ensures { (q : List Pending) (cut : List Bool) → IsClosed q cut ↔ IsClosedSet q cut }
{}

/// After a directory grew, a cut with the contents of the new block claims it only with the new record.
pub fn growth_gives_credit()
    ensures { (geo : Geometry) (disk : View) (q : List Pending) (ghost : Ghost) (after : List Cell) (n : ℕ) (inode : Inode) (k b : ℕ)
        → Comes geo disk q ghost after inode k b → AllAgree geo disk q ghost
        → EachCut disk (record { change = SetInode n inode; after = after } ∷ q) (λ set view. IsTrue (set (Block b)) → (m j : ℕ)
        → IsClaim geo view m j b → IsTrue (set (Record n))) }
{}

/// A name of a file is removed by two updates, where a link is left.
pub fn remove_command()
    ensures { (geo : Geometry) (disk : View) (q : List Pending) (ghost : Ghost) (safe : ℕ → Bool) (block : ℕ) (bytes : List ℕ) (d s i : ℕ)
        (name : List ℕ) (fewer : Inode) → ((g : Gone) → IsFalse (ghost.gone g))
        → MayRemoveName geo (users_view disk q) ghost safe block bytes d s i name fewer → AllAgree geo disk q ghost
        → AllAgree geo disk (removal i fewer block bytes q) (settled i (removed i d s block safe ghost)) }
{}
