// What a world's journal is made of.
use crate::{Blocks, Bytes};

/// A call of the world failed, and raised the count that it belongs to.
#[derive(Clone, Copy, PartialEq, Eq)]
pub struct Failed;

/// How a unit is attached.
#[derive(Clone, Copy, Debug, PartialEq, Eq)]
pub enum Access {
    /// An image that is there, which isn't written.
    ReadOnly,
    /// An image that is there, which may be written.
    ReadWrite,
    /// A new image of so many blocks of zeros, which may be written.
    New(u32),
}

/// A unit that was attached.
#[derive(Clone, Copy)]
pub struct Unit {
    /// Its number: the units are numbered from 0 in the order in which they were attached.
    pub number: u8,
    /// How many whole blocks it has; they are numbered from 1.
    pub blocks: u32,
}

/// What happened in a call of the world.
#[derive(Drop)]
pub enum Event {
    /// These bytes of the script were read, none at its end.
    Read(Bytes),
    /// The clock gave these seconds since 1970-01-01 00:00:00 UTC.
    Now(i64),
    /// These bytes were typed.
    Typed(Bytes),
    /// To the unit of this number, at this block, from 1, these bytes were written.
    Wrote(u8, u32, Bytes),
    /// All that was written to the unit of this number is sure to stay.
    Synced(u8),
    /// An image of this name couldn't be attached with this block size and this access.
    Missed(Bytes, u32, Access),
}

/// A unit as it was when it was attached.
#[derive(Drop)]
pub struct Attached {
    /// The name of its image.
    pub name: Bytes,
    /// The bytes of each of its blocks.
    pub bsize: u32,
    /// It may be written.
    pub writable: bool,
    /// The blocks that it had, of which the first is block 1.
    pub start: Blocks,
}
