//! All memory that a process may take.

use mt_base::memory::OutOfMemory;
use std::alloc::Global;

/// The greatest block that is asked for, in bytes.
const LARGEST: usize = 1 << 20;

/// How often the greatest size is halved to come to a small one.
const HALVINGS: u32 = 9;

/// Up to this size blocks of every size are asked for, in bytes.
const SMALL: usize = 2_048;

/// How many sizes of small blocks there are, in steps of 16 bytes.
const STEPS: usize = 16;

/// How many blocks are taken at most.
pub(crate) const BLOCKS: usize = 4_000;

/// Blocks that were taken before something is tried, and those that it gave back, which were taken
/// again.
#[derive(Drop)]
pub(crate) struct TakenBlocks {
    pub(crate) taken: Vec<Vec<u8>>,
    pub(crate) again: Vec<Vec<u8>>,
}

impl TakenBlocks {
    /// Room for blocks.
    pub(crate) fn build(alloc: Global) -> Result<TakenBlocks, OutOfMemory> {
        Ok(TakenBlocks {
            taken: Vec::with_capacity(alloc, BLOCKS)?,
            again: Vec::with_capacity(alloc, BLOCKS)?,
        })
    }
}

/// Takes blocks of a size until one is refused, or until there is no room to keep one more.
fn take_blocks(alloc: Global, taken: &mut Vec<Vec<u8>>, size: usize) {
    for _ in taken.len()..taken.capacity() {
        let Ok(block) = Vec::with_capacity(alloc, size) else {
            return;
        };
        if taken.push(block).is_err() {
            return;
        }
    }
}

/// Takes blocks of smaller and smaller sizes.
pub(crate) fn take_all(alloc: Global, taken: &mut Vec<Vec<u8>>) {
    for halvings in 0..HALVINGS {
        take_blocks(alloc, taken, LARGEST >> halvings);
    }
    for less in 0..SMALL {
        take_blocks(alloc, taken, SMALL - less);
    }
}

/// Takes small blocks, of each size in steps of 16 bytes.
pub(crate) fn take_small(alloc: Global, taken: &mut Vec<Vec<u8>>) {
    for step in 0..STEPS {
        take_blocks(alloc, taken, 16 * step + 8);
    }
}

/// Whether a request for so many bytes is refused.
fn is_refused(alloc: Global, size: usize) -> bool {
    Vec::<u8>::with_capacity(alloc, size).is_err()
}

/// Whether requests of all these sizes are refused.
pub(crate) fn is_all_refused(alloc: Global) -> bool {
    for size in 1..SMALL {
        if !is_refused(alloc, size) {
            return false;
        }
    }
    for halvings in 0..HALVINGS {
        if !is_refused(alloc, LARGEST >> halvings) {
            return false;
        }
    }
    true
}
