//! Lists of numbers that share one table: a number is put in front of a list without changing any other.
ghost use Rattle.std.specs.Prelude.{◌≡◌, ℕ, ◌+◌, ◌<◌, ◌≤◌, List, [], ◌∷◌, OnOk, MatchOption};
ghost use Rattle.lists.specs.Chains.{numbers, IsChain};

use std::alloc::{AllocError, Global};
use std::marker::Model;

/// The most links that a table has.
const MOST_LINKS: usize = u32::MAX as usize;

/// A list of a table: the empty one, or one that begins with a link.
#[derive(Clone, Copy, Debug, PartialEq, Eq)]
pub struct Chain {
    /// One more than the place of its first link, or 0.
    first: u32,
}

impl Model for Chain {
    ghost use Rattle.std.specs.Prelude.{ℕ};

    ghost Value = { ℕ };

    ghost view = { λ chain. chain.first };

    ghost inverse = { λ first. record { first = first } };
}

impl Chain {
    /// The list without a number.
    pub fn empty() -> Chain
        ensures { result ≡ 0 }
    {
        Chain { first: 0 }
    }
}

/// A number, and the list behind it.
#[derive(Clone, Copy, Debug, PartialEq, Eq)]
pub struct Link {
    pub number: u32,
    pub rest: Chain,
}

/// The table of the lists. What was put into it stays until all is forgotten.
#[derive(Drop)]
pub struct Chains {
    links: Vec<Link>,
}

impl Model for Chains {
    ghost use Rattle.lists.specs.Chains.{Links, spare, AreOrdered};

    ghost Value = { Links };

    ghost view = { λ chains. record { links = chains.links.items; room = spare chains.links } };

    ghost invariant = { λ chains. AreOrdered chains.links.items };
}

impl Chains {
    /// A table with no list but the empty one.
    pub fn new(alloc: Global) -> Chains
        ensures { result.links ≡ [] }
    {
        Chains {
            links: Vec::new(alloc),
        }
    }

    /// Makes room for so many more numbers. Refused, too, where there would be 2^32 or more.
    pub fn reserve(&mut self, more: usize) -> Result<(), AllocError>
        ensures room { OnOk result (more ≤ self.new.room) }
        ensures kept { self.new.links ≡ self.old.links }
        ensures grown { self.old.room ≤ self.new.room }
    {
        if more > MOST_LINKS.saturating_sub(self.links.len()) {
            return Err(AllocError);
        }
        self.links.reserve(more)
    }

    /// The list with a number in front of another.
    pub fn put(&mut self, number: u32, rest: Chain) -> Chain
        requires room { 0 < self.old.room }
        requires chain { IsChain self.old rest }
        ensures numbers { numbers self.new result ≡ number ∷ numbers self.old rest }
        ensures chain { IsChain self.new result }
        ensures others { (c : ℕ) → IsChain self.old c → IsChain self.new c × (numbers self.new c ≡ numbers self.old c) }
        ensures room { self.old.room ≡ self.new.room + 1 }
    {
        self.links.push_reserved(Link { number, rest });
        Chain {
            first: self.links.len() as u32,
        }
    }

    /// The first number of a list, and the list behind it.
    pub fn first(&self, chain: Chain) -> Option<Link>
        requires { IsChain self.now chain }
        ensures numbers { MatchOption result (numbers self.now chain ≡ []) (λ link. numbers self.now chain ≡ link.number ∷ numbers self.now link.rest) }
        ensures rest { MatchOption result (chain ≡ 0) (λ link. IsChain self.now link.rest × (link.rest < chain)) }
    {
        if chain.first == 0 {
            return None;
        }
        Some(self.links[(chain.first - 1) as usize])
    }

    /// Forgets all lists. The memory is kept.
    pub fn clear(&mut self)
        ensures links { self.new.links ≡ [] }
        ensures room { self.old.room ≤ self.new.room }
    {
        self.links.clear();
    }
}
