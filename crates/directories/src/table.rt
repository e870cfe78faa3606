ghost use Rattle.std.specs.Prelude.{◌≡◌, ℕ, List, [], IfOk, OnOk, IsOkUnless};
ghost use Rattle.model.specs.Layout.{Geometry};
ghost use Rattle.model.specs.View.{View};
ghost use Rattle.model.specs.Tables.{Puts};
ghost use Rattle.directories.specs.Named.{IsNamed, numbers_in};
ghost use Rattle.directories.specs.Pieces.{Numbers, both_sets, no_number};

use layout::Refusal;
use std::alloc::Global;
use std::collections::BTreeMap;
use std::marker::Model;

/// The numbers that the slots of directories name, in order of the slots, by directory.
#[derive(Drop)]
pub struct Named {
    by_directory: BTreeMap<u32, Vec<u32>>,
}

impl Model for Named {
    ghost use Rattle.std.specs.Prelude.{ℕ, List};
    ghost use Rattle.directories.specs.Named.{table_of};

    ghost Value = { List (ℕ × List ℕ) };

    ghost view = { λ n. table_of n.by_directory };
}

impl Named {
    /// The table of no directory.
    pub fn new(alloc: Global) -> Named
        ensures part { (geo : Geometry) (view : View) (first : ℕ) → IsNamed geo view first no_number result }
        ensures empty { result ≡ [] }
    {
        Named {
            by_directory: BTreeMap::new(alloc),
        }
    }

    /// The numbers that the slots of this directory name; none where it is not in the table.
    pub fn of(&self, directory: u32) -> &[u32]
        ensures { result.now ≡ numbers_in self.now directory }
    {
        match self.by_directory.get(&directory) {
            Some(numbers) => numbers.as_slice(),
            None => &[],
        }
    }

    /// Enters a directory with the numbers that its slots name.
    pub(crate) fn enter(&mut self, directory: u32, numbers: Vec<u32>) -> Result<(), Refusal>
        ensures entered { OnOk result (Puts directory numbers.items self.old self.new) }
        ensures error { IsOkUnless result Refusal.NoMemory }
    {
        self.by_directory.insert(directory, numbers)?;
        Ok(())
    }
}

/// The table of the directories of both: those of the smaller table are moved to the larger one.
pub fn merge(left: Named, right: Named) -> Result<Named, Refusal>
    ensures merged { IfOk result (λ whole. (geo : Geometry) (view : View) (first : ℕ) (numbers others : Numbers) → IsNamed geo view first numbers left
        → IsNamed geo view first others right → IsNamed geo view first (both_sets numbers others) whole) }
    ensures error { IsOkUnless result Refusal.NoMemory }
{
    let (mut larger, mut smaller) = if left.by_directory.len() < right.by_directory.len() {
        (right, left)
    } else {
        (left, right)
    };
    larger.by_directory.append(&mut smaller.by_directory)?;
    Ok(larger)
}
