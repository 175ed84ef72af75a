// What a command is asked for.
use crate::names::NamePattern;
use cms_journal::BlockSize;
use cms_names::Name;
use cms_text::Series;
use cms_world::ImageName;
use mini_forms::{Form, Layout};

/// An image, and the size of its blocks where it was said.
#[derive(Drop)]
pub struct Image {
    pub name: ImageName,
    pub size: Option<BlockSize>,
}

/// Where files of an image go.
#[derive(Drop)]
pub enum Target {
    /// to standard output, one behind another
    Output,
    /// into this host file, one behind another
    File(ImageName),
    /// each into a host file of its own, in this folder
    Folder(ImageName),
}

/// How files of an image are got.
#[derive(Drop)]
pub struct Get {
    pub image: Image,
    pub form: Form,
    /// host files that are there are replaced
    pub replaces: bool,
    /// each file is said on standard output
    pub says: bool,
    pub target: Target,
    pub names: Series<NamePattern>,
}

/// How host files are put into an image.
#[derive(Drop)]
pub struct Put {
    pub image: Image,
    pub layout: Layout,
    /// the mode number of new files, 0 to 6
    pub number: u8,
    /// the name of the one host file
    pub name: Option<Name>,
    /// files that are there are replaced
    pub replaces: bool,
    /// each file is said on standard output
    pub says: bool,
    /// the seconds that are added to the clock, at most 53,940 either way
    pub offset: i32,
    /// host files; `-` alone is standard input
    pub files: Series<ImageName>,
}

/// A command with what it is to do.
#[derive(Drop)]
pub enum Request {
    List {
        image: Image,
        long: bool,
        names: Series<NamePattern>,
    },
    Info(Image),
    Get(Get),
    Put(Put),
    Erase {
        image: Image,
        says: bool,
        offset: i32,
        names: Series<NamePattern>,
    },
    Rename {
        image: Image,
        says: bool,
        offset: i32,
        from: Name,
        to: Name,
    },
    Make {
        image: ImageName,
        size: BlockSize,
        /// 8 to 1,048,576
        blocks: u32,
        /// in EBCDIC, filled with blanks
        label: [u8; 6],
        offset: i32,
    },
    Check(Image),
    Dump {
        image: Image,
        /// numbers from 1
        blocks: Series<u32>,
    },
}
