// The limits of files.

/// The most bytes that a file's records have as they are stored.
pub const MOST_BYTES: u32 = 67_108_864;

/// The most records of a file.
pub const MOST_RECORDS: u32 = 1_048_576;

/// The most bytes of a record.
pub const LONGEST_RECORD: u32 = 65_535;

/// The most files of a minidisk.
pub const MOST_FILES: u32 = 16_384;
