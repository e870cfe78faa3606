//! Bits of the protocol's numbers.

/// The first request and its reply: several reads may wait at once.
pub const ASYNC_READ: u32 = 1;

/// Writes may have more than 4 KiB.
pub const BIG_WRITES: u32 = 1 << 5;

/// Lookups and listings of one directory may come at once.
pub const PARALLEL_DIROPS: u32 = 1 << 18;

/// A listing may tell what each name leads to.
pub const DO_READDIRPLUS: u32 = 1 << 13;

/// The kernel chooses which listing it asks for.
pub const READDIRPLUS_AUTO: u32 = 1 << 14;

/// The reply says how many pages a request may have.
pub const MAX_PAGES: u32 = 1 << 22;

/// An open file: what the kernel kept of its contents from before stays good.
pub const KEEP_CACHE: u32 = 1 << 1;

/// An open directory: the kernel may keep its listing.
pub const CACHE_DIR: u32 = 1 << 3;

/// A rename: the new name may not be there already.
pub const NO_REPLACE: u32 = 1;

/// A rename: both names are there, and change places.
pub const EXCHANGE: u32 = 2;
