ghost use Rattle.std.specs.Prelude.{◌≡◌, ◌<◌, ◌↔◌, [], ◌∷◌, length, nat_le, IfSome, IsTrue, MatchOption, MatchResult, Some, None};
ghost use Rattle.std.specs.List.{last_or, list_all};
ghost use Rattle.std.specs.Option.{option_map_or};
ghost use Rattle.layout.specs.declared.refusal.Refusal.TheVariants.{BadName};
ghost use Rattle.machine.specs.Paths as machine;
ghost use Rattle.live_paths.specs.Parts.{parts_behind, pieces};

use crate::scan::FIRST_NAME;
use dirent::{fits_slot, name_ok};
use layout::Refusal;
use std::marker::Model;

/// How many bytes the longest path has.
const PATH_BYTES: usize = 4096;

/// A path: its parts in order, and none of `/`.
#[derive(Drop)]
pub struct Path<'a> {
    /// What stands behind the first `/`.
    tail: &'a [u8],
}

impl<'a> Model for Path<'a> {
    ghost use Rattle.std.specs.Prelude.{ℕ, List, IsTrue};
    ghost use Rattle.std.specs.List.{All};
    ghost use Rattle.machine.specs.Paths.{is_part};
    ghost use Rattle.live_paths.specs.Parts.{parts_behind};

    ghost Value = { List (List ℕ) };

    ghost view = { λ p. parts_behind p.tail.now };

    ghost invariant = { λ p. All (λ part. IsTrue (is_part part)) (parts_behind p.tail.now) };
}

impl<'a> Path<'a> {
    /// The path that these bytes are. They are refused with `BadName` where they are none.
    pub fn parse(bytes: &'a [u8]) -> Result<Path<'a>, Refusal>
        ensures { MatchResult result (λ path. machine.parts_of bytes.now ≡ Some path) (λ refusal. (machine.parts_of bytes.now ≡ None) × (refusal ≡ BadName)) }
    {
        if bytes.is_empty() {
            return Err(Refusal::BadName);
        }
        let tail = &bytes[1..];
        if bytes[0] != b'/' || bytes.len() > PATH_BYTES || !has_parts(tail) {
            return Err(Refusal::BadName);
        }
        Ok(Path { tail })
    }

    /// Whether this is `/`, which has no parts.
    pub fn is_root(&self) -> bool
        ensures root { IsTrue result ↔ (self.now ≡ []) }
        ensures test { result ≡ nat_le (length self.now) 0 }
    {
        self.tail.is_empty()
    }

    /// The last part, which is the name of what the path leads to; of `/` it is empty.
    pub fn name(&self) -> &'a [u8]
        ensures name { result.now ≡ machine.last_part self.now }
        ensures part { (self.now ≡ [] → ⊥) → IsTrue (machine.is_part result.now) }
    {
        last_piece(self.tail)
    }

    /// The first part, and the path of the parts behind it; `None` of `/`.
    pub fn split_first(&self) -> Option<(&'a [u8], Path<'a>)>
        ensures parts { MatchOption result (self.now ≡ []) (λ split. self.now ≡ split.0.now ∷ split.1) }
        ensures part { IfSome result (λ split. IsTrue (machine.is_part split.0.now)) }
    {
        if self.tail.is_empty() {
            return None;
        }
        let (first, behind) = split_first_piece(self.tail);
        match behind {
            Some(tail) => Some((first, Path { tail })),
            None => Some((first, Path { tail: &[] })),
        }
    }

    /// What stands behind the first `/`.
    pub(crate) fn tail(&self) -> &'a [u8]
        ensures { parts_behind result.now ≡ self.now }
    {
        self.tail
    }
}

/// Whether what stands behind the first `/` is nothing, or parts with a `/` between each two.
fn has_parts(tail: &[u8]) -> bool
    ensures { result ≡ list_all machine.is_part (parts_behind tail.now) }
{
    tail.is_empty() || has_good_pieces(tail)
}

/// Whether all that stands between the `/` of these bytes are parts.
fn has_good_pieces(bytes: &[u8]) -> bool
    ensures { result ≡ list_all machine.is_part (pieces bytes.now) }
{
    let mut rest = bytes;
    'pieces: loop {
        let (piece, behind) = split_first_piece(rest);
        if !is_part(piece) {
            return false;
        }
        let Some(after) = behind else {
            return true;
        };
        rest = after;
    }
}

/// Whether this may be a part of a path: a good name that is none of the dots.
fn is_part(name: &[u8]) -> bool
    ensures { result ≡ machine.is_part name.now }
{
    name_ok(name) && fits_slot(FIRST_NAME, name)
}

/// What stands behind the last `/` of these bytes; all of them where there is none.
fn last_piece(bytes: &[u8]) -> &[u8]
    ensures { last_or None (pieces bytes.now) ≡ Some result.now }
{
    let mut rest = bytes;
    'pieces: loop {
        let (piece, behind) = split_first_piece(rest);
        let Some(after) = behind else {
            return piece;
        };
        rest = after;
    }
}

/// What stands before the first `/` of these bytes, and what stands behind it; all of them where there is none.
pub(crate) fn split_first_piece(bytes: &[u8]) -> (&[u8], Option<&[u8]>)
    ensures pieces { pieces bytes.now ≡ result.0.now ∷ option_map_or (λ rest. pieces rest.now) result.1 [] }
    ensures shorter { IfSome result.1 (λ rest. length rest.now < length bytes.now) }
{
    for (at, byte) in bytes.iter().enumerate() {
        if *byte == b'/' {
            return (&bytes[..at], Some(&bytes[at + 1..]));
        }
    }
    (bytes, None)
}
