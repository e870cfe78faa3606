ghost use Rattle.std.specs.Prelude.{◌≡◌, List, ℕ, [], IfOk, OnOk, IsOkUnless};
ghost use Rattle.std.specs.Map.{keys_of};
ghost use Rattle.std.specs.Option.{option_copied};
ghost use Rattle.model.specs.Layout.{Geometry};
ghost use Rattle.model.specs.View.{View};
ghost use Rattle.directories.specs.Pieces.{Numbers, both_sets, no_number};
ghost use Rattle.model.specs.Tables.{Puts, value_in};
ghost use Rattle.phase_names.specs.Entries.{parent_in, told_by};
ghost use Rattle.phase_names.specs.Told.{IsPart, Told};

use crate::look::Look;
use layout::Refusal;
use sets::Members;
use std::alloc::{AllocError, Global};
use std::collections::BTreeMap;
use std::marker::Model;

/// What the slots of the directories among some numbers tell, by directory.
#[derive(Drop)]
pub struct Part {
    looks: BTreeMap<u32, Look>,
}

impl Model for Part {
    ghost use Rattle.std.specs.Prelude.{ℕ, List};
    ghost use Rattle.phase_names.specs.Told.{Told};

    ghost Value = { List (ℕ × Told) };

    ghost view = { λ p. p.looks.entries };
}

impl Part {
    /// The part of no number.
    pub fn new(alloc: Global) -> Part
        ensures part { (geo : Geometry) (view : View) → IsPart geo view no_number result }
        ensures empty { result ≡ [] }
    {
        Part {
            looks: BTreeMap::new(alloc),
        }
    }

    /// The numbers of its directories, in order.
    pub(crate) fn numbers(&self, alloc: Global) -> Result<Vec<u32>, AllocError>
        ensures { IfOk result (λ numbers. numbers.items ≡ keys_of self.now) }
    {
        self.looks.keys().copied().collect(alloc)
    }

    /// What the slots of a directory tell, if it is one of the reached.
    pub(crate) fn reached(&self, reached: &Members, directory: u32) -> Option<&Look>
        ensures { option_copied result ≡ told_by self.now reached.now directory }
    {
        if reached.has(directory) {
            self.looks.get(&directory)
        } else {
            None
        }
    }

    /// The number that slot 1 of a directory names, 0 where it names none or the directory is not in the part.
    pub(crate) fn parent_of(&self, directory: u32) -> u32
        ensures { result ≡ parent_in self.now directory }
    {
        match self.looks.get(&directory) {
            Some(look) => look.parent(),
            None => 0,
        }
    }

    /// Adds what the slots of a directory tell.
    pub(crate) fn add(&mut self, directory: u32, look: Look) -> Result<(), Refusal>
        ensures added { OnOk result (Puts directory look self.old self.new) }
        ensures error { IsOkUnless result Refusal.NoMemory }
    {
        self.looks.insert(directory, look)?;
        Ok(())
    }
}

/// The part of the numbers of both: the directories of the smaller part are moved to the larger one.
pub fn merge(left: Part, right: Part) -> Result<Part, Refusal>
    ensures merged { IfOk result (λ whole. (geo : Geometry) (view : View) (numbers others : Numbers) → IsPart geo view numbers left → IsPart geo view others right
        → IsPart geo view (both_sets numbers others) whole) }
    ensures error { IsOkUnless result Refusal.NoMemory }
{
    let (mut larger, mut smaller) = if left.looks.len() < right.looks.len() {
        (right, left)
    } else {
        (left, right)
    };
    larger.looks.append(&mut smaller.looks)?;
    Ok(larger)
}
