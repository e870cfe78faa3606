//! What an image of the volume means: its records, maps, uses, slots and paths, and the rules that an image obeys
//! after any stop. It has definitions and their laws, and no code of the volume.
#![tactic(auto)]

ghost use Rattle.std.specs.Prelude.{◌≡◌, ◌<◌, ◌+◌, ◌/◌, ◌↔◌, ℕ, Bool, true, List, IsTrue};
ghost use Rattle.model.specs.Layout.{Geometry, IsGeometry, inode_count, is_data_address, is_number, inode_byte, inode_block};
ghost use Rattle.model.specs.View.{View, Inode, view_of, inode_at};
ghost use Rattle.model.specs.Fresh.{fresh_view};
ghost use Rattle.model.specs.Reach.{HasEntries, entries_of, entries_in};
ghost use Rattle.model.specs.Rules.{ObeysRules};
ghost use Rattle.model.specs.Metadata.{SameMetadata};
ghost use Rattle.model.specs.Cells.{SetBytes, SetInode, put_at, updated};
ghost use Rattle.model.specs.Slots.{slot};
ghost use Rattle.model.specs.Shape.{is_table};
ghost use Rattle.model.specs.Uses.{IsClaim, use_at};
ghost use Rattle.model.specs.Unlink.{Unlinks};

/// Each inode has one number of entries.
pub fn entries_are_one_number()
    ensures exists { (geo : Geometry) (view : View) (i : ℕ) → (n : ℕ) × HasEntries geo view i n }
    ensures unique { (geo : Geometry) (view : View) (i m n : ℕ) → HasEntries geo view i m → HasEntries geo view i n → m ≡ n }
{}

/// The fresh image obeys the rules.
pub fn fresh_image_obeys()
    ensures { (geo : Geometry) → IsGeometry geo → ObeysRules geo (fresh_view geo) }
{}

/// The rules look at metadata alone.
pub fn metadata_decides()
    ensures { (geo : Geometry) (view other : View) → SameMetadata geo view other → ObeysRules geo view ↔ ObeysRules geo other }
{}

/// New bytes of a data block that no inode claims as a table change no use, and only the slots that stand
/// in it; and the entries in a set of directories change by those of the one directory that claims it.
pub fn one_block_changes_its_slots()
    ensures uses { (geo : Geometry) (view : View) (a : ℕ) (bytes : List ℕ) → ((i m : ℕ) → IsTrue (is_table geo m) → IsClaim geo view i m a → ⊥)
        → (i k : ℕ) → use_at geo view i k ≡ use_at geo (updated view (SetBytes a bytes)) i k }
    ensures slots { (geo : Geometry) (view : View) (a : ℕ) (bytes : List ℕ) → ((i m : ℕ) → IsTrue (is_table geo m) → IsClaim geo view i m a → ⊥)
        → (d s : ℕ) → (IsClaim geo view d (s / 16) a → ⊥) → slot geo view d s ≡ slot geo (updated view (SetBytes a bytes)) d s }
    ensures entries { (geo : Geometry) (view : View) (a : ℕ) (bytes : List ℕ) → ((i m : ℕ) → IsTrue (is_table geo m) → IsClaim geo view i m a → ⊥)
        → (set : ℕ → Bool) (i d : ℕ) → d < inode_count geo → set d ≡ true → ((e k : ℕ) → IsClaim geo view e k a → e ≡ d)
        → entries_of geo view set i + entries_in geo (updated view (SetBytes a bytes)) i d ≡ entries_of geo (updated view (SetBytes a bytes)) set i + entries_in geo view i d }
{}

/// A write of a data block is an update of that cell alone, and so is a write of a block of records that changes one
/// of them.
pub fn writes_are_updates_of_a_cell()
    ensures bytes { (geo : Geometry) → IsGeometry geo → (block : ℕ → List ℕ) (a : ℕ) (bytes : List ℕ) → is_data_address geo a ≡ true
        → view_of geo (put_at block a bytes) ≡ updated (view_of geo block) (SetBytes a bytes) }
    ensures inode { (geo : Geometry) → IsGeometry geo → (block : ℕ → List ℕ) (n : ℕ) (bytes : List ℕ) (inode : Inode)
        → is_number geo n ≡ true → inode_at geo.version bytes (inode_byte n) ≡ inode
        → ((m : ℕ) → (m ≡ n → ⊥) → inode_block geo m ≡ inode_block geo n
        → inode_at geo.version bytes (inode_byte m) ≡ inode_at geo.version (block (inode_block geo n)) (inode_byte m))
        → view_of geo (put_at block (inode_block geo n) bytes) ≡ updated (view_of geo block) (SetInode n inode) }
{}

/// A view that lost entries of files obeys the rules if the one before did.
pub fn unlinking_keeps_the_rules()
    ensures { (geo : Geometry) (before after : View) → Unlinks geo before after → ObeysRules geo before → ObeysRules geo after }
{}
