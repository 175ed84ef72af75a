// The forms of host files, and why one is refused.

/// How a host file shows the records of a file.
#[derive(Clone, Copy, Debug)]
pub enum Form {
    /// each record a line in UTF-8
    Text,
    /// the records' bytes, joined
    Binary,
    /// each record behind its length, two bytes with the high one first
    Records,
}

/// How a host file's bytes are taken as records. A size is that of every record, 1 to 65,535 bytes, in a file of format F;
/// without one each record has its own, in a file of format V.
#[derive(Clone, Copy, Debug)]
pub enum Layout {
    /// each line a record, filled with blanks to the size; an empty line is one blank at least
    Text(Option<u32>),
    /// so many bytes a record, the last one filled with zeros
    Binary(u32),
    /// each record behind its length
    Records(Option<u32>),
}

/// Why a host file stands for no records. Lines and records are counted from 1.
#[derive(Clone, Copy, Debug)]
pub enum FormFault {
    /// this line has bytes that aren't a character to U+00FF in UTF-8
    BadCharacter(u32),
    /// this line has a carriage return that isn't right before its line feed
    CarriageReturn(u32),
    /// this line is longer than its record may be: the size, or 65,535 characters
    LongLine(u32),
    /// this record has the length 0, or another one than the size
    BadLength(u32),
    /// the file ends within this record or its length
    Cut(u32),
    /// more than 1,048,576 records, or more than 67,108,864 bytes as they are stored
    TooLarge,
    /// no record
    Empty,
}
