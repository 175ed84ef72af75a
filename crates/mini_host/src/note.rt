// What is said on standard error, as values.
use cms_model::OpenFault;
use cms_world::ImageName;
use mini_forms::FormFault;

/// Why something that a word asks for isn't done, or how it failed.
#[derive(Clone, Copy, Debug)]
pub enum Refusal {
    /// no file of the image fits the word
    NothingFits,
    /// there is no such plain file or image
    NotThere,
    /// there is no such folder
    NoFolder,
    /// a file of this name is there
    IsThere,
    /// another program has the image
    InUse,
    /// it is the image itself
    IsImage,
    /// none of the block sizes fits block 3, or two do: it must be given
    NoBlockSize,
    /// the image holds no volume: the first test that it fails
    NoVolume(OpenFault),
    /// the image has no block of this number
    NoBlock(u32),
    /// the host file's name is no name of a file: one must be given
    NoName,
    /// a record has a line feed or a carriage return: another form must be asked for
    NotLines,
    /// the host file stands for no records
    BadForm(FormFault),
    /// the host file wasn't the same when it was read a second time
    Changed,
    /// the volume has too few free blocks
    NoRoom { needed: u32, free: u32 },
    /// the volume has the most files that it may have
    TooManyFiles,
    /// the image failed; what is behind this word isn't done
    ImageFailed,
    /// a host file failed; what is behind this word isn't done
    HostFailed,
    /// the output failed
    OutputFailed,
    /// the clock failed
    ClockFailed,
    /// an image was made, and holds no volume
    MadeEmpty,
}

/// One line of standard error: the word that it is about, and what is said of it.
#[derive(Drop)]
pub struct Note {
    /// an image, a host file or a name, as it was given
    pub word: ImageName,
    /// what is said
    pub refusal: Refusal,
}
