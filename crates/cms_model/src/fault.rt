// Why an image is no volume.
use cms_fields::{EntryFault, LabelFault};
use thiserror::Error;

/// Why bytes hold no records with lengths of their own. The place is that of a record's two-byte length, or of what is
/// left behind the last record, counted in bytes from 0.
#[derive(Clone, Copy, Debug)]
pub enum VarFault {
    /// the length is 0
    Zero(u32),
    /// the length, or the record behind it, passes the end
    PastEnd(u32),
    /// a whole block or more is left behind the last record
    Left(u32),
}

/// Why a unit's image could not be opened as a volume.
#[derive(Clone, Copy, Debug, Error)]
pub enum OpenFault {
    /// the device failed
    #[error("Device")]
    Device,
    /// the label fails this test first
    #[error("Label")]
    Label(LabelFault),
    /// the entry of this number fails this test first
    #[error("Entry")]
    Entry(u32, EntryFault),
    /// a pointer that isn't allowed, in the block `holder`
    #[error("Pointer")]
    Pointer { holder: u32, value: u32 },
    /// this block is met a second time
    #[error("Crossed")]
    Crossed(u32),
    /// this block is met, and the allocation map doesn't mark it
    #[error("MapMissing")]
    MapMissing(u32),
    /// the data of the file of this number hold no records
    #[error("Var")]
    Var(u32, VarFault),
    /// the name of the entry of this number stands before
    #[error("Twice")]
    Twice(u32),
    /// the directory's own entry (0) or the allocation map's (1) doesn't describe it
    #[error("System")]
    System(u32),
    /// there is no memory
    #[error("Memory")]
    Memory,
}
