// What a file is to be.
use cms_fields::Stamp;
use cms_names::Format;

/// What a file is to be that is drafted.
#[derive(Clone, Copy)]
pub struct DraftShape {
    pub format: Format,
    /// the length of each record at F, of the longest at V: 1 to 65,535
    pub length: u32,
    /// the mode number, 0 to 6
    pub number: u8,
    pub stamp: Stamp,
    /// the records, at least one
    pub count: u32,
    /// the bytes that are stored: at V with the two of each record's length
    pub bytes: u64,
}
