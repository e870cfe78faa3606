//! Paths by which the volume is asked for what the kernel means by nodes.
ghost use Rattle.std.specs.Prelude.{◌≡◌, ◌++◌, ◌∷◌, ◌⊎◌, IfErr, IfOk, None, OnOk, Some};
ghost use Rattle.fuse_wire.specs.declared.errors.Errno.TheVariants.{NoMemory, Stale};
ghost use Rattle.fuse_nodes.specs.Table.{path_of};
ghost use Rattle.fuse_writer.specs.Doings.{GivesPath};
ghost use Rattle.fuse_writer.specs.Requests.{at_path, path_in};

use crate::mounted::Mounted;
use device::Device;
use dirent::NAME_BYTES;
use fuse_nodes::Nodes;
use fuse_wire::Errno;
use std::alloc::{AllocError, Global};

/// How long a path may be.
const PATH_BYTES: usize = 4096;

/// The path of an inode, by the first name of it and of each directory above that the kernel was told. Stale where it has none.
pub(crate) fn path_of<D: Device>(mounted: &Mounted<D>, number: u32) -> Result<Vec<u8>, Errno>
    ensures { GivesPath (λ path. path.items) result (at_path mounted.now.session number) }
{
    let path = written_path(mounted.alloc, &mounted.session.nodes, number)?;
    if path.len() > PATH_BYTES {
        return Err(Errno::NameTooLong);
    }
    Ok(path)
}

/// The path of a name in a directory.
pub(crate) fn path_in<D: Device>(
    mounted: &Mounted<D>,
    directory: u32,
    name: &[u8],
) -> Result<Vec<u8>, Errno>
    ensures { GivesPath (λ path. path.items) result (path_in mounted.now.session directory name.now) }
{
    if name.len() > NAME_BYTES {
        return Err(Errno::NameTooLong);
    }
    let mut path = written_path(mounted.alloc, &mounted.session.nodes, directory)?;
    let Ok(()) = add_name(&mut path, name) else {
        return Err(Errno::NoMemory);
    };
    if path.len() > PATH_BYTES {
        return Err(Errno::NameTooLong);
    }
    Ok(path)
}

/// The path of an inode, however long it is. That of the root is empty.
fn written_path(alloc: Global, nodes: &Nodes, number: u32) -> Result<Vec<u8>, Errno>
    ensures path { IfOk result (λ path. path_of 2048 nodes.now number ≡ Some path.items) }
    ensures none { IfErr result (λ error. (error ≡ NoMemory) ⊎ ((error ≡ Stale) × (path_of 2048 nodes.now number ≡ None))) }
{
    let mut path = Vec::new(alloc);
    match nodes.put_path(number, &mut path) {
        Ok(true) => Ok(path),
        Ok(false) => Err(Errno::Stale),
        Err(AllocError) => Err(Errno::NoMemory),
    }
}

/// Adds a name behind a path.
fn add_name(path: &mut Vec<u8>, name: &[u8]) -> Result<(), AllocError>
    ensures { OnOk result (path.new.items ≡ path.old.items ++ 47 ∷ name.now) }
{
    path.push(b'/')?;
    path.extend_from_slice(name)?;
    Ok(())
}
