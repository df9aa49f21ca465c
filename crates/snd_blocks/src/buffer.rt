//! What is kept of the blocks that were read last.

ghost use Rattle.std.specs.Prelude.{◌≡◌};

use arrayvec::ArrayVec;

/// The most bytes of a block, and of the blocks that are read at a time.
pub(crate) const MOST_BYTES: usize = 8192;

/// The samples of the blocks that were read last, so that they are not read and decoded again for each of their
/// frames. It stands for one file, as long as the data of that file stay as they are.
#[derive(Drop)]
pub struct BlockCache {
    // the number of the first block, and how many there are
    pub(crate) first: u64,
    pub(crate) count: u64,
    // where the bytes of blocks are read
    pub(crate) bytes: [u8; MOST_BYTES],
    // those of one block behind those of another
    pub(crate) samples: ArrayVec<i32, 16384>,
}

impl BlockCache {
    ghost use Rattle.snd_blocks.specs.Cache.{count_cached};

    /// A cache that holds no block, for any file.
    pub fn new() -> BlockCache
        ensures { count_cached result ≡ 0 }
    {
        BlockCache {
            first: 0,
            count: 0,
            bytes: [0; MOST_BYTES],
            samples: ArrayVec::new(),
        }
    }
}
