// Bytes and lists of blocks, which contracts see as lists.
ghost use Rattle.std.specs.Prelude.{◌≡◌, List, ℕ, [], ◌∷◌, ◌++◌, ◌<◌, slice_index_or, slice_set, length, take, ◌/◌, ◌*◌, All, replicate, IfOk, OnOk, OnErr};
ghost use Rattle.std.specs.List.{concat};
ghost use Rattle.cms_journal.specs.Blocks.{cut};

use std::alloc::{AllocError, Global};
use std::marker::Model;

/// Bytes of any number, seen as a list.
#[derive(Drop)]
pub struct Bytes {
    bytes: Vec<u8>,
}

impl Model for Bytes {
    ghost Value = { List ℕ };

    ghost view = { λ b. b.bytes.items };
}

impl Bytes {
    /// A copy of these bytes.
    pub fn of(alloc: Global, bytes: &[u8]) -> Result<Self, AllocError>
        ensures { IfOk result (λ b. b ≡ bytes.now) }
    {
        Ok(Bytes {
            bytes: bytes.to_vec(alloc)?,
        })
    }

    /// So many zeros.
    pub fn zeros(alloc: Global, count: usize) -> Result<Self, AllocError>
        ensures { IfOk result (λ b. b ≡ replicate count 0) }
    {
        Ok(Bytes {
            bytes: vec![in alloc; 0; count]?,
        })
    }

    /// The bytes themselves.
    pub fn bytes(&self) -> &[u8]
        ensures { result.now ≡ self.now }
    {
        &self.bytes
    }

    /// How many there are.
    pub fn len(&self) -> usize
        ensures { result ≡ length self.now }
    {
        self.bytes.len()
    }
}

/// The blocks of a unit, seen as a list of their bytes.
#[derive(Drop)]
pub struct Blocks {
    blocks: Vec<Bytes>,
}

impl Model for Blocks {
    ghost Value = { List (List ℕ) };

    ghost view = { λ b. b.blocks.items };
}

impl Blocks {
    /// No blocks.
    pub fn new(alloc: Global) -> Self
        ensures { result ≡ [] }
    {
        Blocks {
            blocks: Vec::new(alloc),
        }
    }

    /// The whole blocks with which these bytes begin; a rest that is shorter than a block is left off.
    pub fn cut(alloc: Global, bytes: &[u8], size: usize) -> Result<Self, AllocError>
        requires { 0 < size }
        ensures blocks { IfOk result (λ blocks. blocks ≡ cut size bytes.now) }
        ensures joined { IfOk result (λ blocks. concat blocks
            ≡ take (length bytes.now / size * size) bytes.now) }
        ensures sizes { IfOk result (λ blocks. All (λ block. length block ≡ size) blocks) }
        ensures count { IfOk result (λ blocks. length blocks ≡ length bytes.now / size) }
    {
        let mut blocks = Blocks::new(alloc);
        for place in 0..bytes.len() / size {
            blocks.push(Bytes::of(alloc, &bytes[place * size..(place + 1) * size])?)?;
        }
        Ok(blocks)
    }

    /// So many blocks of zeros.
    pub fn zeros(alloc: Global, count: u32, size: usize) -> Result<Self, AllocError>
        ensures { IfOk result (λ blocks. blocks ≡ replicate count (replicate size 0)) }
    {
        let mut blocks = Blocks::new(alloc);
        for _ in 0..count {
            blocks.push(Bytes::zeros(alloc, size)?)?;
        }
        Ok(blocks)
    }

    /// The same blocks once more.
    pub fn copy(&self, alloc: Global) -> Result<Self, AllocError>
        ensures { IfOk result (λ blocks. blocks ≡ self.now) }
    {
        let mut blocks = Blocks::new(alloc);
        for block in &self.blocks {
            blocks.push(Bytes::of(alloc, block.bytes())?)?;
        }
        Ok(blocks)
    }

    /// How many there are.
    pub fn len(&self) -> usize
        ensures { result ≡ length self.now }
    {
        self.blocks.len()
    }

    /// The bytes of the block at a place, from 0.
    pub fn get(&self, place: usize) -> &[u8]
        requires { place < length self.now }
        ensures { result.now ≡ slice_index_or self.now place [] }
    {
        self.blocks[place].bytes()
    }

    /// Puts a block in the place of another.
    pub fn set(&mut self, place: usize, block: Bytes)
        requires { place < length self.old }
        ensures { self.new ≡ slice_set self.old place block }
    {
        self.blocks[place] = block;
    }

    /// Adds a block at the end.
    pub fn push(&mut self, block: Bytes) -> Result<(), AllocError>
        ensures ok { OnOk result (self.new ≡ self.old ++ block ∷ []) }
        ensures err { OnErr result (self.new ≡ self.old) }
    {
        self.blocks.push(block)?;
        Ok(())
    }
}
