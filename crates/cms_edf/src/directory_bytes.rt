// The bytes of a directory, put together entry by entry.
ghost use Rattle.std.specs.Prelude.{◌≡◌, ◌≤◌, ◌<◌, ◌+◌, ◌-◌, ◌*◌, ◌^◌, ◌++◌, true, length, replicate, OnOk};
ghost use Rattle.cms_fields.specs.Stamps.{is_stamp};
ghost use Rattle.cms_fields.specs.Entries.{entry_bytes};
ghost use Rattle.cms_tree.specs.Builds.{root_of};
ghost use Rattle.cms_held.specs.Systems.{file_at, system_entry};
ghost use Rattle.cms_held.specs.Written.{CanWrite, ReadsBack, directory_name, map_name, system_name};

use crate::held::HeldTree;
use crate::system::{ENTRY_SIZE, FIXED, POINTER_SIZE, SystemFile};
use cms_fields::{Entry, Stamp, write_entry, write_stamp};
use cms_journal::BlockSize;
use cms_text::bytes::{put, put_word};
use cms_text::coded;
use cms_tree::shape;
use std::alloc::AllocError;

/// The mode A1.
const MODE: [u8; 2] = [0xC1, 0xF1];

// The name of a system file of this number.
fn system_name(number: u32, letters: &[u8; 8]) -> [u8; 16]
    ensures { result ≡ system_name number letters.now }
{
    let mut name = [0; 16];
    put_word(&mut name, 0, number);
    put(&mut name, 8, &coded(letters));
    name
}

// The entry of a system file, with records of a length.
fn system_entry(name: &[u8; 16], size: u32, file: &SystemFile, stamp: &Stamp) -> [u8; 64]
    requires { is_stamp stamp.now ≡ true }
    ensures { result ≡ system_entry name.now size file.now stamp.now }
{
    let mut date = [0; 6];
    let flags = write_stamp(stamp, &mut date);
    let mut entry = [0; 64];
    put(&mut entry, 0, name);
    put(&mut entry, 24, &MODE);
    put(&mut entry, 30, &[FIXED]);
    put(&mut entry, 31, &[flags]);
    put_word(&mut entry, 32, size);
    put_word(&mut entry, 40, file.root);
    put_word(&mut entry, 44, file.blocks);
    put_word(&mut entry, 48, file.count);
    put(&mut entry, 52, &[file.levels, POINTER_SIZE]);
    put(&mut entry, 54, &date);
    entry
}

/// The block at the root of a tree.
pub fn root(leaves: &[u32], pointers: &[u32]) -> u32
    requires { 1 ≤ length leaves.now }
    ensures { result ≡ root_of leaves.now pointers.now }
{
    if pointers.is_empty() {
        leaves[leaves.len() - 1]
    } else {
        pointers[pointers.len() - 1]
    }
}

// Where the tree of a system file of so many records stands.
fn file_at(bsize: BlockSize, tree: &HeldTree, count: u32) -> SystemFile
    requires some { 1 ≤ length tree.now.leaves }
    requires few { length tree.now.leaves < 2 ^ 32 }
    ensures { result ≡ file_at bsize tree.now count }
{
    let blocks = tree.leaves().len() as u32;
    SystemFile {
        root: root(tree.leaves(), tree.pointers()),
        blocks,
        count,
        levels: shape(blocks, bsize.bytes() / u32::from(POINTER_SIZE)).levels,
    }
}

/// The entries of the system files.
#[derive(Clone, Copy)]
pub struct SystemFields {
    pub directory: [u8; 64],
    pub map: [u8; 64],
}

/// The directory's own entry, where it stands so, and the map's, with the stamp.
pub fn system_fields(
    bsize: BlockSize,
    own: &SystemFile,
    map: &HeldTree,
    stamp: &Stamp,
) -> SystemFields
    requires stamp { is_stamp stamp.now ≡ true }
    requires map { 1 ≤ length map.now.leaves }
    requires map_few { length map.now.leaves < 2 ^ 32 }
    ensures directory { result.directory
        ≡ system_entry directory_name 64 own.now stamp.now }
    ensures map { result.map ≡ system_entry map_name bsize
        (file_at bsize map.now (length map.now.leaves)) stamp.now }
{
    let maps = file_at(bsize, map, map.leaves().len() as u32);
    let own_name = system_name(1, b"DIRECTOR");
    let map_name = system_name(2, b"ALLOCMAP");
    SystemFields {
        directory: system_entry(&own_name, ENTRY_SIZE, own, stamp),
        map: system_entry(&map_name, bsize.bytes(), &maps, stamp),
    }
}

/// Appends the bytes with which a directory begins: its own entry and the map's.
pub fn append_systems(fields: &SystemFields, into: &mut Vec<u8>) -> Result<(), AllocError>
    ensures bytes { OnOk result (into.new.items
        ≡ into.old.items ++ (fields.now.directory ++ fields.now.map)) }
    ensures size { OnOk result (length into.new.items ≡ length into.old.items + 128) }
{
    into.extend_from_slice(&fields.directory)?;
    into.extend_from_slice(&fields.map)
}

/// What is written for an entry of a file is read back as the entry. No byte of it is made for that.
pub fn spell_entry(entry: &Entry)
    ensures { ReadsBack entry.now }
{
    let _file = entry.name.file.padded();
    let _kind = entry.name.kind.padded();
    let (_length, _count) = (entry.length, entry.count);
    let (_root, _blocks) = (entry.root, entry.blocks);
}

/// The bytes of the entry of a file.
pub fn file_field(entry: &Entry) -> [u8; 64]
    requires { CanWrite entry.now }
    ensures { result ≡ entry_bytes entry.now }
{
    let mut bytes = [0; 64];
    write_entry(entry, &mut bytes);
    bytes
}

/// Appends zeros up to so many bytes.
pub fn fill(bytes: &mut Vec<u8>, whole: usize) -> Result<(), AllocError>
    requires { length bytes.old.items ≤ whole }
    ensures { OnOk result (bytes.new.items
        ≡ bytes.old.items ++ replicate (whole - length bytes.old.items) 0) }
{
    bytes.resize(whole, 0)
}
