ghost use Rattle.std.specs.Prelude.{◌≡◌, ◌⊎◌, ℕ, Err, IfErr, IfOk, IsErrOf, List};
ghost use Rattle.std.specs.List.{All};
ghost use Rattle.frozen.specs.Kept.{IsKeptOf};
ghost use Rattle.machine.specs.Command.{ListNames};
ghost use Rattle.model.specs.Image.{image_view};
ghost use Rattle.reading.specs.Replies.{Replies};
ghost use Rattle.reading.specs.Trees.{IsListing, joined_path};

use crate::looking::find;
use frozen::Frozen;
use layout::Refusal;
use live_paths::{Named, names};
use std::alloc::{AllocError, Global};

/// A directory in a tree, and the names in it.
#[derive(Debug, Drop)]
pub struct Listing {
    /// Its path.
    pub path: Vec<u8>,
    /// Its number.
    pub number: u32,
    /// The names in it, but for its dots, in the order of its slots.
    pub names: Vec<Named>,
}

/// A directory that is to be listed.
#[derive(Debug, Drop)]
struct Place {
    path: Vec<u8>,
    number: u32,
}

/// A directory and each one below it, each followed by what stands below it, in the order of the names. Refused as `list` is, and
/// with `Damaged` where there are more of them than the volume has numbers, since one then stands below itself.
pub fn tree(alloc: Global, frozen: &Frozen, path: &[u8]) -> Result<Vec<Listing>, Refusal>
    ensures listed { IfOk result (λ listings. (image : List (List ℕ)) → IsKeptOf frozen.now image
        → All (IsListing frozen.now.geometry (image_view frozen.now.geometry image)) listings.items) }
    ensures refused { IfErr result (λ r. (r ≡ Refusal.Damaged) ⊎ Replies frozen.now (ListNames path.now) (Err r)) }
    ensures device { IsErrOf result Refusal.Device → ⊥ }
{
    let number = find(frozen, path)?;
    if !frozen.is_directory_at(number) {
        return Err(Refusal::NotDirectory);
    }
    let mut waiting = Vec::new(alloc);
    waiting.push(Place {
        path: path.to_vec(alloc)?,
        number,
    })?;
    let mut listings = Vec::new(alloc);
    for _turn in 0..frozen.geometry().inodes() {
        let Some(place) = waiting.pop() else {
            break;
        };
        let listing = listing_of(alloc, frozen, place)?;
        add_directories(alloc, &mut waiting, frozen, &listing)?;
        listings.push(listing)?;
    }
    if !waiting.is_empty() {
        return Err(Refusal::Damaged);
    }
    Ok(listings)
}

/// The names in a directory.
fn listing_of(alloc: Global, frozen: &Frozen, place: Place) -> Result<Listing, AllocError>
    ensures { IfOk result (λ listing. (image : List (List ℕ)) → IsKeptOf frozen.now image
        → IsListing frozen.now.geometry (image_view frozen.now.geometry image) listing) }
{
    let Place { path, number } = place;
    let names = names(alloc, frozen, number)?;
    Ok(Listing {
        path,
        number,
        names,
    })
}

/// Adds the directories among the names of a listing, the last one first.
fn add_directories(
    alloc: Global,
    waiting: &mut Vec<Place>,
    frozen: &Frozen,
    listing: &Listing,
) -> Result<(), AllocError> {
    for named in listing.names.iter().rev() {
        if frozen.is_directory_at(named.number) {
            waiting.push(Place {
                path: joined(alloc, listing.path.as_slice(), named.name.as_slice())?,
                number: named.number,
            })?;
        }
    }
    Ok(())
}

/// The path of a name in the directory of a path.
pub fn joined(alloc: Global, path: &[u8], name: &[u8]) -> Result<Vec<u8>, AllocError>
    ensures { IfOk result (λ joined. joined.items ≡ joined_path path.now name.now) }
{
    let mut joined = Vec::new(alloc);
    if path != b"/".as_slice() {
        joined.extend_from_slice(path)?;
    }
    joined.push(b'/')?;
    joined.extend_from_slice(name)?;
    Ok(joined)
}
