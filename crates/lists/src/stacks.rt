//! Stacks of numbers, each number in at most one of them, so that a push takes no memory.
ghost use Rattle.std.specs.Prelude.{◌≡◌, ℕ, ◌+◌, ◌<◌, ◌≤◌, List, [], ◌∷◌, OnOk, IfOk, MatchOption};
ghost use Rattle.std.specs.List.{Contains};
ghost use Rattle.lists.specs.Stacks.{stack_at, count_of, room_of, is_empty};

use std::alloc::{AllocError, Global};
use std::marker::Model;

/// Stacks of numbers.
#[derive(Drop)]
pub struct Stacks {
    /// For each stack one more than the number on its top, or 0.
    tops: Vec<u32>,
    /// For each number one more than the one below it, or 0.
    below: Vec<u32>,
}

impl Model for Stacks {
    ghost use Rattle.lists.specs.Stacks.{Links, AreStacks};

    ghost Value = { Links };

    ghost view = { λ stacks. record { tops = stacks.tops.items; below = stacks.below.items } };

    ghost invariant = { λ stacks. AreStacks (record { tops = stacks.tops.items; below = stacks.below.items }) };
}

impl Stacks {
    /// So many stacks, with room for no number.
    pub fn new(alloc: Global, count: u32) -> Result<Stacks, AllocError>
        ensures count { IfOk result (λ stacks. count_of stacks ≡ count) }
        ensures empty { IfOk result (λ stacks. (k : ℕ) → stack_at stacks k ≡ []) }
        ensures room { IfOk result (λ stacks. room_of stacks ≡ 0) }
    {
        Ok(Stacks {
            tops: vec![in alloc; 0; count as usize]?,
            below: Vec::new(alloc),
        })
    }

    /// Makes room for the numbers below this one. Refused, too, where it is 2^32 or more.
    pub fn make_room(&mut self, room: usize) -> Result<(), AllocError>
        ensures room { OnOk result (room ≤ room_of self.new) }
        ensures grown { room_of self.old ≤ room_of self.new }
        ensures few { room_of self.new < 4_294_967_296 }
        ensures count { count_of self.new ≡ count_of self.old }
        ensures stacks { (k : ℕ) → stack_at self.new k ≡ stack_at self.old k }
    {
        if room <= self.below.len() {
            return Ok(());
        }
        if room > u32::MAX as usize {
            return Err(AllocError);
        }
        self.below.resize(room, 0)
    }

    /// Puts a number onto a stack.
    pub fn push(&mut self, stack: u32, number: u32)
        requires stack { stack < count_of self.old }
        requires room { number < room_of self.old }
        requires new { (k : ℕ) → Contains (stack_at self.old k) number → ⊥ }
        ensures pushed { stack_at self.new stack ≡ number ∷ stack_at self.old stack }
        ensures others { (k : ℕ) → (k ≡ stack → ⊥) → stack_at self.new k ≡ stack_at self.old k }
        ensures count { count_of self.new ≡ count_of self.old }
        ensures room { room_of self.new ≡ room_of self.old }
    {
        self.below[number as usize] = self.tops[stack as usize];
        self.tops[stack as usize] = number + 1;
    }

    /// Takes the top of a stack.
    pub fn pop(&mut self, stack: u32) -> Option<u32>
        requires { stack < count_of self.old }
        ensures popped { MatchOption result (stack_at self.old stack ≡ []) (λ number. stack_at self.old stack ≡ number ∷ stack_at self.new stack) }
        ensures none { MatchOption result (self.new ≡ self.old) (λ number. (k : ℕ) → Contains (stack_at self.new k) number → ⊥) }
        ensures others { (k : ℕ) → (k ≡ stack → ⊥) → stack_at self.new k ≡ stack_at self.old k }
        ensures count { count_of self.new ≡ count_of self.old }
        ensures room { room_of self.new ≡ room_of self.old }
    {
        let top = self.tops[stack as usize];
        if top == 0 {
            return None;
        }
        self.tops[stack as usize] = self.below[(top - 1) as usize];
        Some(top - 1)
    }

    /// Whether a stack has no number.
    pub fn is_empty(&self, stack: u32) -> bool
        requires { stack < count_of self.now }
        ensures { result ≡ is_empty (stack_at self.now stack) }
    {
        self.tops[stack as usize] == 0
    }
}
