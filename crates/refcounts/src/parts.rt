//! Numbers in lists by their groups.
ghost use Rattle.std.specs.Prelude.{◌≡◌, ◌<◌, ◌++◌, ◌∷◌, [], ℕ, IfOk, OnOk, length};
ghost use Rattle.refcounts.specs.Parts.{Grow, numbers_at};

use layout::Geometry;
use std::alloc::{AllocError, Global};
use std::marker::Model;

/// What the reachable directories of a piece name, in lists by the group of what is named: each number as often
/// as good slots name it, the dots among them.
#[derive(Drop)]
pub struct Part {
    by_group: Vec<Vec<u32>>,
}

impl Model for Part {
    ghost use Rattle.std.specs.Prelude.{List, ℕ, map};

    ghost Value = { List (List ℕ) };

    ghost view = { λ p. map (λ numbers. numbers.items) p.by_group.items };
}

impl Part {
    /// An empty list for each of so many groups.
    pub fn none(alloc: Global, groups: u32) -> Result<Part, AllocError>
        ensures groups { IfOk result (λ part. length part ≡ groups) }
        ensures none { IfOk result (λ part. (g : ℕ) → numbers_at part g ≡ []) }
    {
        let mut by_group = Vec::new(alloc);
        for _group in 0..groups {
            by_group.push(Vec::new(alloc))?;
        }
        Ok(Part { by_group })
    }

    /// The numbers of this group; none where there is no such group.
    pub(crate) fn of(&self, group: u32) -> &[u32]
        ensures { result.now ≡ numbers_at self.now group }
    {
        match self.by_group.get(group as usize) {
            Some(numbers) => numbers.as_slice(),
            None => &[],
        }
    }

    /// Adds a number to the list of this group. Where there is no such list, it is left out.
    fn add(&mut self, group: u32, number: u32) -> Result<(), AllocError>
        ensures groups { length self.new ≡ length self.old }
        ensures own { OnOk result (group < length self.old → numbers_at self.new group ≡ numbers_at self.old group ++ number ∷ []) }
        ensures others { OnOk result ((g : ℕ) → (g ≡ group → ⊥) → numbers_at self.new g ≡ numbers_at self.old g) }
    {
        let index = group as usize;
        if index < self.by_group.len() {
            self.by_group[index].push(number)?;
        }
        Ok(())
    }

    /// Adds these numbers, each to the list of its group.
    pub(crate) fn add_all(&mut self, geometry: &Geometry, numbers: &[u32]) -> Result<(), AllocError>
        ensures groups { length self.new ≡ length self.old }
        ensures added { OnOk result (Grow geometry.now numbers.now self.old self.new) }
    {
        for number in numbers {
            self.add(*number / geometry.inodes_a_group(), *number)?;
        }
        Ok(())
    }
}
