//! What is ready, block by block: for each block a stack of numbers, and the least block whose stack is not empty.
ghost use Rattle.std.specs.Prelude.{◌≡◌, ℕ, ◌+◌, ◌<◌, ◌≤◌, List, [], ◌∷◌, OnOk, IfOk, MatchOption};
ghost use Rattle.std.specs.List.{Contains};
ghost use Rattle.lists.specs.Stacks.{stack_at, count_of, room_of, is_empty};
ghost use Rattle.lists.specs.Ready.{IsLeast, IsNext, NothingStands, NothingStandsFrom};

use crate::Stacks;
use marks::Marks;
use std::alloc::{AllocError, Global};
use std::marker::Model;

/// The ready numbers of each block.
#[derive(Drop)]
pub struct Ready {
    stacks: Stacks,
    /// The blocks whose stacks are not empty.
    marks: Marks,
}

impl Model for Ready {
    ghost use Rattle.lists.specs.Stacks.{Links};
    ghost use Rattle.lists.specs.Ready.{AreMarked};

    ghost Value = { Links };

    ghost view = { λ ready. ready.stacks };

    ghost invariant = { λ ready. AreMarked ready.stacks ready.marks };
}

impl Ready {
    /// Nothing for so many blocks, and room for no number.
    pub fn new(alloc: Global, blocks: u32) -> Result<Ready, AllocError>
        ensures count { IfOk result (λ ready. count_of ready ≡ blocks) }
        ensures empty { IfOk result (λ ready. (b : ℕ) → stack_at ready b ≡ []) }
        ensures room { IfOk result (λ ready. room_of ready ≡ 0) }
    {
        Ok(Ready {
            stacks: Stacks::new(alloc, blocks)?,
            marks: Marks::new(alloc, blocks)?,
        })
    }

    /// Makes room for the numbers below this one. Refused, too, where it is 2^32 or more.
    pub fn make_room(&mut self, room: usize) -> Result<(), AllocError>
        ensures room { OnOk result (room ≤ room_of self.new) }
        ensures grown { room_of self.old ≤ room_of self.new }
        ensures few { room_of self.new < 4_294_967_296 }
        ensures count { count_of self.new ≡ count_of self.old }
        ensures stacks { (b : ℕ) → stack_at self.new b ≡ stack_at self.old b }
    {
        self.stacks.make_room(room)
    }

    /// Adds a number to those of a block.
    pub fn push(&mut self, block: u32, number: u32)
        requires block { block < count_of self.old }
        requires room { number < room_of self.old }
        requires new { (b : ℕ) → Contains (stack_at self.old b) number → ⊥ }
        ensures pushed { stack_at self.new block ≡ number ∷ stack_at self.old block }
        ensures others { (b : ℕ) → (b ≡ block → ⊥) → stack_at self.new b ≡ stack_at self.old b }
        ensures count { count_of self.new ≡ count_of self.old }
        ensures room { room_of self.new ≡ room_of self.old }
    {
        self.stacks.push(block, number);
        self.marks.mark(block);
    }

    /// Takes one number of a block away: the last one that was added.
    pub fn pop(&mut self, block: u32) -> Option<u32>
        requires { block < count_of self.old }
        ensures popped { MatchOption result (stack_at self.old block ≡ []) (λ number. stack_at self.old block ≡ number ∷ stack_at self.new block) }
        ensures none { MatchOption result (self.new ≡ self.old) (λ number. (b : ℕ) → Contains (stack_at self.new b) number → ⊥) }
        ensures others { (b : ℕ) → (b ≡ block → ⊥) → stack_at self.new b ≡ stack_at self.old b }
        ensures count { count_of self.new ≡ count_of self.old }
        ensures room { room_of self.new ≡ room_of self.old }
    {
        let number = self.stacks.pop(block);
        if self.stacks.is_empty(block) {
            self.marks.unmark(block);
        }
        number
    }

    /// Whether a block has no number.
    pub fn is_empty(&self, block: u32) -> bool
        requires { block < count_of self.now }
        ensures { result ≡ is_empty (stack_at self.now block) }
    {
        self.stacks.is_empty(block)
    }

    /// The least block that has a number.
    pub fn least(&self) -> Option<u32>
        ensures { MatchOption result (NothingStands self.now) (λ block. IsLeast self.now block) }
    {
        self.marks.least()
    }

    /// The least block that has a number, of this one and those above it.
    pub fn next(&self, from: u32) -> Option<u32>
        ensures { MatchOption result (NothingStandsFrom self.now from) (λ block. IsNext self.now from block) }
    {
        self.marks.next(from)
    }
}
