// What the calls take and give.
ghost use Rattle.std.specs.Prelude.{◌≡◌};
ghost use Rattle.cms_tree.specs.declared.types.TreeFault.TheVariants.{Memory};
ghost use Rattle.cms_tree.specs.declared.types.ResumeFault.TheVariants as resume;

use cms_journal::BlockSize;
use std::alloc::{AllocError, AllocFailed};

/// How a tree stands over its data blocks.
#[derive(Clone, Copy, Debug)]
pub struct Shape {
    /// levels of pointer blocks: none over one data block, else as few as have room for all
    pub levels: u8,
    /// pointer blocks on all levels
    pub pointers: u32,
}

/// Where a tree stands, and what is known of it.
#[derive(Clone, Copy)]
pub struct TreeAt {
    /// the unit's number
    pub unit: u8,
    /// the unit's block size
    pub bsize: BlockSize,
    /// blocks of the volume: a pointer is allowed from 6 to this
    pub volume: u32,
    /// the block in which the root's number stands
    pub holder: u32,
    /// the block at the tree's root
    pub root: u32,
    /// data blocks, at least one
    pub count: u32,
    /// bytes of a pointer: 4 or 12
    pub psize: u8,
    /// the one block in which the first data block must stand, wherever that is
    pub first: Option<u32>,
}

/// Why a tree was not read.
#[derive(Clone, Copy, Debug)]
pub enum TreeFault {
    /// the device failed
    Device,
    /// the first pointer in preorder that isn't allowed, in the block `holder`
    Pointer { holder: u32, value: u32 },
    /// there is no memory
    Memory,
}

impl From<AllocError> for TreeFault {
    ghost from_gives = { λ _ e. e ≡ Memory };

    fn from(_: AllocError) -> Self {
        TreeFault::Memory
    }
}

impl<T: Drop> From<AllocFailed<T>> for TreeFault {
    ghost from_gives = { λ _ e. e ≡ Memory };

    fn from(_: AllocFailed<T>) -> Self {
        TreeFault::Memory
    }
}

/// Why a climb was not resumed.
#[derive(Clone, Copy, Debug)]
pub enum ResumeFault {
    /// the device failed
    Device,
    /// there is no memory
    Memory,
}

impl From<AllocError> for ResumeFault {
    ghost from_gives = { λ _ e. e ≡ resume.Memory };

    fn from(_: AllocError) -> Self {
        ResumeFault::Memory
    }
}

/// The blocks of a tree that was read.
#[derive(Drop)]
pub struct Walked {
    /// all its blocks in preorder
    pub blocks: Vec<u32>,
    /// its pointer blocks, bottom level first and each from left to right
    pub pointers: Vec<u32>,
    /// its data blocks in order
    pub leaves: Vec<u32>,
}

/// What a pointer of 12 bytes says of a data block, in files whose records have lengths of their own.
#[derive(Clone, Copy)]
pub struct Mark {
    /// the number of the last record that begins up to the block's end, counted from 1
    pub last: u32,
    /// the place in the block at which its first record begins, `FFFFFFFF` where none begins in it
    pub place: u32,
}
