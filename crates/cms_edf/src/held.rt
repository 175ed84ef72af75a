// A volume as it is held in memory, and what is asked of it.
ghost use Rattle.std.specs.Prelude.{◌≡◌, ◌<◌, ◌≤◌, Some, IsSome, OnOk, length, map, position, slice_get};
ghost use Rattle.indexmap.specs.IndexMap.{keys, values};
ghost use Rattle.cms_model.specs.Minidisks.{same_name};
ghost use Rattle.cms_held.specs.HeldVolumes.{names_in};
ghost use Rattle.cms_held.specs.Kept.{Keeps};
ghost use Rattle.cms_edf.specs.FilesTold.{info_of, infos_in, leaves_in, space_of, stored_in};

use cms_fields::{Entry, Label, Stamp};
pub use cms_held::HeldTree;
use cms_journal::BlockSize;
use cms_map::Map;
use cms_names::{Format, Name};
use indexmap::IndexMap;
use std::alloc::AllocError;
use std::marker::Model;

/// A file of an open volume: all of it but its data.
#[derive(Drop)]
pub struct HeldFile {
    pub(crate) entry: Entry,
    pub(crate) tree: HeldTree,
    pub(crate) length: u32,
    pub(crate) size: u32,
    // where at V the first record begins in the data block that its records fill in part, or u32::MAX
    pub(crate) start: u32,
}

impl Model for HeldFile {
    ghost use Rattle.cms_held.specs.HeldVolumes as volumes;

    ghost Value = { volumes.HeldFile };

    ghost view = { λ f. record { entry = f.entry; tree = f.tree; length = f.length; size = f.size; start = f.start } };
}

impl HeldFile {
    /// What the directory says of the file.
    pub fn entry(&self) -> &Entry
        ensures { result.now ≡ self.now.entry }
    {
        &self.entry
    }

    /// Its data blocks, in order.
    pub fn leaves(&self) -> &[u32]
        ensures { result.now ≡ self.now.tree.leaves }
    {
        &self.tree.leaves
    }

    // Its blocks.
    pub(crate) fn tree(&self) -> &HeldTree
        ensures { result.now ≡ self.now.tree }
    {
        &self.tree
    }

    /// The length of each of its records at F, of the longest at V, 1 to 65,535.
    pub fn length(&self) -> u32
        ensures { result ≡ self.now.length }
    {
        self.length
    }

    /// The number of its stored bytes, at most 67,108,864: at V with the two bytes of each record's length.
    pub fn size(&self) -> u32
        ensures { result ≡ self.now.size }
    {
        self.size
    }

    /// Where at V the first record begins in the data block that its records fill in part: 4,294,967,295 where none does, where they fill
    /// whole blocks, and at F.
    pub fn start(&self) -> u32
        ensures { result ≡ self.now.start }
    {
        self.start
    }

    // What is told of it.
    fn info(&self) -> FileInfo
        ensures { result ≡ info_of self.now }
    {
        let entry = &self.entry;
        FileInfo {
            name: entry.name,
            number: entry.number,
            format: entry.format,
            length: self.length,
            count: entry.count,
            blocks: entry.blocks,
            stamp: entry.stamp,
        }
    }
}

/// What is told of a file.
#[derive(Clone, Copy, PartialEq, Eq)]
pub struct FileInfo {
    pub name: Name,
    /// the mode number, 0 to 6
    pub number: u8,
    pub format: Format,
    /// the length of each record at F, of the longest at V, 1 to 65,535
    pub length: u32,
    /// records, 1 to 1,048,576
    pub count: u32,
    /// data blocks, without the pointer blocks over them
    pub blocks: u32,
    pub stamp: Stamp,
}

/// The room of a volume.
#[derive(Clone, Copy)]
pub struct Space {
    /// the volume id, in EBCDIC
    pub volid: [u8; 6],
    /// the bytes of a block: 512, 1,024, 2,048 or 4,096
    pub bsize: u32,
    /// the volume's blocks
    pub total: u32,
    /// those of them that are free: neither in use nor lost
    pub free: u32,
}

/// A volume as it is held in memory: all of it but the files' data.
#[derive(Drop)]
pub struct Held {
    pub(crate) unit: u8,
    pub(crate) bsize: BlockSize,
    pub(crate) blocks: u32,
    pub(crate) label: Label,
    pub(crate) label_bytes: Vec<u8>,
    // the directory's data blocks, with room for one more where a plan was made, and its pointer blocks
    pub(crate) directory: Vec<u32>,
    pub(crate) directory_nodes: Vec<u32>,
    pub(crate) map_tree: HeldTree,
    pub(crate) map: Map,
    pub(crate) files: IndexMap<Name, HeldFile>,
    pub(crate) lost: u32,
}

impl Model for Held {
    ghost use Rattle.std.specs.Prelude.{◌≡◌, ◌-◌, length, min, vec_capacity, vec_len};
    ghost use Rattle.indexmap.specs.IndexMap.{values, spare};
    ghost use Rattle.cms_held.specs.HeldVolumes as volumes;
    ghost use Rattle.cms_edf.specs.Soundness.{IsSound};

    ghost Value = { volumes.Held };

    ghost view = { λ h. record {
      volume = record {
        unit = h.unit;
        disk = record { bsize = h.bsize; count = h.blocks };
        label = h.label;
        label_bytes = h.label_bytes.items;
        directory = record { leaves = h.directory.items; pointers = h.directory_nodes.items };
        map = h.map_tree;
        bits = h.map;
        files = values h.files;
        lost = h.lost;
      };
      spare = min (spare h.files) (vec_capacity h.directory - vec_len h.directory);
    } };

    ghost invariant = { λ h. IsSound h.bsize h.blocks h.label (length h.label_bytes.items)
        (record { leaves = h.directory.items; pointers = h.directory_nodes.items }) h.map_tree h.map
        h.files.entries (values h.files) };
}

impl Held {
    /// The number of files, at most 16,384.
    pub fn count(&self) -> u32
        ensures count { result ≡ length self.now.volume.files }
        ensures kept { Keeps self.now.volume }
    {
        self.files.len() as u32
    }

    /// What is told of the file at a place, from 0 below their number.
    pub fn info(&self, nth: u32) -> FileInfo
        requires { nth < length self.now.volume.files }
        ensures info { slice_get (infos_in self.now.volume) nth ≡ Some result }
        ensures kept { Keeps self.now.volume }
    {
        self.files[nth as usize].info()
    }

    /// The place of the file of a name, from 0; none exactly where no file has that name.
    pub fn find(&self, name: &Name) -> Option<u32>
        ensures place { result ≡ position (same_name name.now) (names_in self.now.volume.files) }
        ensures kept { Keeps self.now.volume }
    {
        match self.files.get_index_of(name) {
            Some(place) => Some(place as u32),
            None => None,
        }
    }

    // The place of a name that a file has.
    pub(crate) fn place(&self, name: &Name) -> u32
        requires { IsSome (position (same_name name.now) (names_in self.now.volume.files)) }
        ensures { position (same_name name.now) (names_in self.now.volume.files) ≡ Some result }
    {
        self.find(name).unwrap()
    }

    // Room for one more file, and for one more data block of the directory.
    pub(crate) fn reserve(&mut self) -> Result<(), AllocError>
        ensures volume { self.new.volume ≡ self.old.volume }
        ensures spare { OnOk result (1 ≤ self.new.spare) }
        ensures places { self.old.spare ≤ self.new.spare }
        ensures kept { Keeps self.new.volume }
    {
        self.files.reserve(1)?;
        self.directory.reserve(1)
    }

    /// The volume id, the size of blocks, and how many there are and are free.
    pub fn space(&self) -> Space
        ensures { result ≡ space_of self.now.volume }
    {
        Space {
            volid: self.label.volid,
            bsize: self.bsize.bytes(),
            total: self.label.blocks,
            free: self.map.free_count(),
        }
    }

    /// The number of lost blocks: marked in the map and in no tree.
    pub fn lost(&self) -> u32
        ensures { result ≡ self.now.volume.lost }
    {
        self.lost
    }

    /// The data blocks, in order, of the file at a place, from 0 below their number.
    pub fn leaves(&self, nth: u32) -> &[u32]
        requires { nth < length self.now.volume.files }
        ensures leaves { slice_get (leaves_in self.now.volume) nth ≡ Some result.now }
        ensures kept { Keeps self.now.volume }
    {
        self.files[nth as usize].leaves()
    }

    /// The number of stored bytes of the file at a place, from 0 below the number of files: at most 67,108,864, at V with the two bytes of
    /// each record's length.
    pub fn stored(&self, nth: u32) -> u32
        requires { nth < length self.now.volume.files }
        ensures stored { slice_get (stored_in self.now.volume) nth ≡ Some result }
        ensures kept { Keeps self.now.volume }
    {
        self.files[nth as usize].size()
    }

    /// The files by their names, in the order of the directory.
    pub fn by_name(&self) -> &IndexMap<Name, HeldFile>
        ensures names { keys result.now ≡ names_in self.now.volume.files }
        ensures files { values result.now ≡ self.now.volume.files }
        ensures kept { Keeps self.now.volume }
    {
        &self.files
    }
}
