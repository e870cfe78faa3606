use crate::expect::same;
use census::{Census, take_census};
use device::{Byte, MemDevice};
use frozen::load;
use layout::{DOUBLE, Geometry, Refusal, SINGLE};
use std::alloc::Global;
use std::test::Fail;

/// What is counted on the image, of this version of the layout, of two groups of 16 blocks and 16 inodes that is fresh but for these
/// bytes. The maps stand in blocks 1 and 17, the records in 2, 3, 18 and 19; number 2 and block 4 are marked.
fn counted(alloc: Global, version: u32, bytes: &[Byte]) -> Result<Census, Refusal> {
    let geometry = Geometry::new(2, 16, 16)?.with_version(version)?;
    let mut device = MemDevice::formatted(alloc, &geometry, bytes)?;
    Ok(take_census(&load(alloc, &mut device)?))
}

/// What is written of a count.
fn written(alloc: Global, census: &Census) -> Result<String, Fail> {
    let mut text = String::new(alloc);
    census.write(&mut text)?;
    Ok(text)
}

/// What is written of a fresh image, behind the line that tells its version.
const FRESH: &str =
    "groups 2\nblocks-a-group 16\ninodes-a-group 16\nblocks 33\nblock-bytes 1024\nnumbers-used 1\nnumbers-free 29\ndata-blocks-used 1\ndata-blocks-free 25\nfiles 0\ndirectories 1\nlongest-free-run 13\n";

#[test]
fn a_fresh_image_is_counted(rt: HostRuntime) -> Result<(), Fail> {
    for (version, first) in [(SINGLE, "format 1\n"), (DOUBLE, "format 2\n")] {
        let census = counted(rt.alloc(), version, &[])?;
        let text = written(rt.alloc(), &census)?;
        same(&rt, version, text.as_str().strip_prefix(first), Some(FRESH));
    }
    Ok(())
}

/// Block 10 is marked, and there is a file of number 16 that nothing names.
const CHANGES: &[Byte] = &[(1, 160, 65), (17, 32, 1), (18, 0, 1)];

#[test]
fn what_is_lost_is_counted_too(rt: HostRuntime) -> Result<(), Fail> {
    let census = counted(rt.alloc(), DOUBLE, CHANGES)?;
    let numbers = (census.numbers_used, census.numbers_free);
    same(&rt, "numbers", numbers, (2, 28));
    same(
        &rt,
        "blocks",
        (census.blocks_used, census.blocks_free),
        (2, 24),
    );
    same(&rt, "inodes", (census.files, census.directories), (1, 1));
    same(&rt, "longest", census.longest_free_run, 13);
    Ok(())
}
