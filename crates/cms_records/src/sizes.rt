// What is told of records of varying lengths.

/// What is told of records that each stand behind their length.
#[derive(Clone, Copy, Debug)]
pub struct VarSizes {
    /// the length of the longest, in bytes
    pub longest: u32,
    /// the bytes that all of them fill, with their lengths
    pub stored: u32,
}
