ghost use Rattle.std.specs.Prelude.{◌≡◌, ◌==◌, ◌∷◌, [], MatchOption, drop, length};

use std::marker::Model;

/// The new tables that come with a block of a file, by their addresses, the nearest to the block first. There are two at
/// most, and they take no memory.
#[derive(Clone, Copy, Debug, PartialEq, Eq)]
pub struct Tables {
    addresses: Addresses,
}

/// The addresses of no table, of one or of two.
#[derive(Clone, Copy, Debug, PartialEq, Eq)]
enum Addresses {
    None,
    One(u32),
    Two(u32, u32),
}

impl Model for Tables {
    ghost use Rattle.std.specs.Prelude.{List, ℕ};

    ghost Value = { List ℕ };

    ghost use Rattle.live_places.specs.Tables.{listed, same_again, unlisted};

    ghost view = { λ t. listed t.addresses };

    ghost inverse = { λ xs. record { addresses = unlisted xs } };

    ghost inverse_ok = { λ t h. same_again t };
}

impl Tables {
    /// No table.
    pub fn none() -> Tables
        ensures { result ≡ [] }
    {
        Tables {
            addresses: Addresses::None,
        }
    }

    /// This one.
    pub fn one(table: u32) -> Tables
        ensures { result ≡ table ∷ [] }
    {
        Tables {
            addresses: Addresses::One(table),
        }
    }

    /// The one nearest to the block, and the one over it.
    pub fn two(nearest: u32, over: u32) -> Tables
        ensures { result ≡ nearest ∷ over ∷ [] }
    {
        Tables {
            addresses: Addresses::Two(nearest, over),
        }
    }

    /// Whether there is none.
    pub fn is_empty(self) -> bool
        ensures { result ≡ (length self == 0) }
    {
        match self.addresses {
            Addresses::None => true,
            _ => false,
        }
    }

    /// The nearest one, which those of `rest` are over.
    pub fn first(self) -> Option<u32>
        ensures { MatchOption result (self ≡ []) (λ nearest. self ≡ nearest ∷ drop 1 self) }
    {
        match self.addresses {
            Addresses::None => None,
            Addresses::One(nearest) | Addresses::Two(nearest, _) => Some(nearest),
        }
    }

    /// All but the nearest one.
    pub fn rest(self) -> Tables
        ensures { result ≡ drop 1 self }
    {
        match self.addresses {
            Addresses::Two(_, over) => Tables::one(over),
            _ => Tables::none(),
        }
    }
}
