// What fails in a world of files.
use std::io;

/// What failed, for a person who reads it.
#[derive(Drop)]
pub enum Trouble {
    /// an image couldn't be attached, for the system's reason
    Image(io::Error),
    /// an image is in use: by another program, or under another name
    InUse,
    /// a block of an image couldn't be read or written
    Device,
    /// the script couldn't be read
    Input,
    /// what was typed couldn't be written
    Output,
    /// the clock couldn't be read
    Clock,
}
