ghost use Rattle.std.specs.Prelude.{[], ◌≡◌, ℕ, ◌==◌, true, false, IfOk, OnOk, slice_index_or, if◌then◌else◌};
ghost use Rattle.sets.specs.Members.{AreMarks, is_among};

use std::alloc::{AllocError, Global};
use std::collections::BTreeSet;
use std::marker::Model;

/// A set of numbers, with a mark for each number up to the greatest of them, which tells whether it is in the set. So a
/// question takes no search, and the set a byte for each number up to the greatest.
#[derive(Drop)]
pub struct Members {
    numbers: Vec<u32>,
    marks: Vec<bool>,
}

impl Model for Members {
    ghost use Rattle.std.specs.Prelude.{ℕ, List};
    ghost use Rattle.sets.specs.Members.{AreMarks};

    ghost Value = { List ℕ };

    ghost view = { λ m. m.numbers.items };

    ghost invariant = { λ m. AreMarks m.numbers.items m.marks.items };
}

impl Members {
    /// The set of these numbers.
    pub fn new(alloc: Global, numbers: Vec<u32>) -> Result<Members, AllocError>
        ensures { IfOk result (λ members. members ≡ numbers.items) }
    {
        let mut marks = no_marks(alloc, &numbers)?;
        mark_all(&mut marks, &numbers)?;
        Ok(Members { numbers, marks })
    }

    /// The numbers of this set.
    pub fn of_set(alloc: Global, set: &BTreeSet<u32>) -> Result<Members, AllocError>
        ensures { IfOk result (λ members. members ≡ set.now.keys) }
    {
        Members::new(alloc, in_list(alloc, set)?)
    }

    /// Whether the number is in the set.
    pub fn has(&self, number: u32) -> bool
        ensures { result ≡ is_among self.now number }
    {
        match self.marks.get(number as usize) {
            Some(is_member) => *is_member,
            None => false,
        }
    }
}

/// The numbers of a set, in order.
fn in_list(alloc: Global, set: &BTreeSet<u32>) -> Result<Vec<u32>, AllocError>
    ensures { IfOk result (λ numbers. numbers.items ≡ set.now.keys) }
{
    set.iter().copied().collect(alloc)
}

/// Marks of no number: as many as these numbers want if the last is the greatest. The marks of a list in order then never grow.
fn no_marks(alloc: Global, numbers: &[u32]) -> Result<Vec<bool>, AllocError>
    ensures { IfOk result (λ marks. AreMarks [] marks.items) }
{
    let count = match numbers.last() {
        Some(last) => *last as usize + 1,
        None => 0,
    };
    Vec::from_elem(alloc, false, count)
}

/// Marks these numbers.
fn mark_all(marks: &mut Vec<bool>, numbers: &[u32]) -> Result<(), AllocError>
    ensures marked { OnOk result (AreMarks [] marks.old.items → AreMarks numbers.now marks.new.items) }
{
    for number in numbers {
        mark(marks, *number)?;
    }
    Ok(())
}

/// Marks a number.
fn mark(marks: &mut Vec<bool>, number: u32) -> Result<(), AllocError>
    ensures { OnOk result ((n : ℕ) → slice_index_or marks.new.items n false ≡ (if n == number then true else slice_index_or marks.old.items n false)) }
{
    let index = number as usize;
    if index >= marks.len() {
        marks.resize(index + 1, false)?;
    }
    marks[index] = true;
    Ok(())
}
