//! Room on the heaps of threads: a heap grows by a few blocks at a time, each time by a call of the system, unless it was asked for
//! all at once before. What is asked for here is let go of at once; where there is no memory for it, it goes on without.
use layout::Geometry;
use std::alloc::Global;

/// How many bytes of a heap a block takes, with its counts and what the allocator keeps of it.
const BYTES_A_BLOCK: usize = 1_100;

/// How many bytes more a worker may take for blocks that it reads ahead.
const AHEAD_BYTES: usize = 4_194_304;

/// So many bytes of this thread's heap, or none where there is no memory for them.
pub(crate) fn reserved(alloc: Global, bytes: usize) -> Vec<u8> {
    match Vec::with_capacity(alloc, bytes) {
        Ok(room) => room,
        Err(_) => Vec::new(alloc),
    }
}

/// How many bytes of its heap each of so many workers takes for its share of the blocks that each volume has, and for those that it
/// reads ahead. It is asked for here once: the C library gives the first large room from outside the heaps, and from then on what is
/// not larger from them.
pub(crate) fn share_of(alloc: Global, geometry: &Geometry, workers: usize) -> usize {
    let groups = geometry.groups() as usize / workers.max(1) + 1;
    let share = groups * geometry.header_blocks() as usize * BYTES_A_BLOCK + AHEAD_BYTES;
    drop(reserved(alloc, share));
    share
}
