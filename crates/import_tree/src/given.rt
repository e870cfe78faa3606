//! The bytes that were given for a file.
ghost use Rattle.std.specs.Prelude.{◌≡◌, ◌++◌, [], take};

use http_server::Log;
use std::marker::Model;

/// The bytes that were given for an item, part by part. It is a history that only clauses read: the bytes themselves are no more in
/// memory.
#[derive(Drop)]
pub struct Given {
    /// Each part is so many bytes of a room.
    parts: Log<usize, Vec<u8>>,
    count: usize,
}

impl Model for Given {
    ghost use Rattle.std.specs.Prelude.{ℕ, List};
    ghost use Rattle.import_tree.specs.Parts.{bytes_in};

    ghost Value = { List ℕ };

    ghost view = { λ given. bytes_in given.parts.items };
}

impl Given {
    /// No bytes.
    pub(crate) fn none() -> Given
        ensures { result ≡ [] }
    {
        Given {
            parts: Log::new(),
            count: 0,
        }
    }

    /// All of these.
    pub(crate) fn all(bytes: &Vec<u8>) -> Given
        ensures { result ≡ bytes.now.items }
    {
        Given::none().and(bytes, bytes.len())
    }

    /// These, and then so many of a room.
    pub(crate) fn and(&self, room: &Vec<u8>, count: usize) -> Given
        ensures { result ≡ self.now ++ take count room.now.items }
    {
        Given {
            parts: self.parts.and(&count, room),
            count: self.count.saturating_add(count),
        }
    }

    /// How many they are, for whom it is told.
    pub(crate) fn count(&self) -> usize {
        self.count
    }
}
