// The directory's entries of itself and of the map.
ghost use Rattle.std.specs.Prelude.{◌≡◌, ◌≤◌, ◌<◌, ◌+◌, ◌*◌, ◌/◌, ◌^◌, length, IfOk, IfErr};
ghost use Rattle.cms_journal.specs.Journal.{IsBlockSize};
ghost use Rattle.cms_fields.specs.Numbers.{is_shape};
ghost use Rattle.cms_model.specs.Sizes.{levels};
ghost use Rattle.cms_model.specs.declared.fault.OpenFault.TheVariants.{Device};
ghost use Rattle.cms_model.specs.Systems.{system_fields, is_system, is_directory, is_map, directory_of, map_of};
ghost use Rattle.cms_fields.specs.Limits.{most_files};

use cms_fields::MOST_FILES;
use cms_journal::BlockSize;
use cms_model::OpenFault;
use cms_text::bytes::word_at;
use cms_tree::shape;
use std::marker::Model;

/// Bytes of an entry.
pub const ENTRY_SIZE: u32 = 64;

/// Bytes of a pointer of fixed records.
pub const POINTER_SIZE: u8 = 4;

/// Fixed records, in EBCDIC.
pub const FIXED: u8 = 0xC6;

/// Where a system file stands: its root, data blocks, count of records and levels of pointer blocks.
#[derive(Clone, Copy)]
pub struct SystemFile {
    pub root: u32,
    pub blocks: u32,
    pub count: u32,
    pub levels: u8,
}

impl Model for SystemFile {
    ghost use Rattle.cms_model.specs.Systems as systems;

    ghost Value = { systems.SystemFile };

    ghost view = { λ s. record { root = s.root; blocks = s.blocks; count = s.count; levels = s.levels } };

    ghost inverse = { λ s. record { root = s.root; blocks = s.blocks; count = s.count; levels = s.levels } };
}

// What the bytes of an entry say.
#[tactic(auto, unfolding(cms_model::specs::Systems::system_fields))]
fn system_fields(bytes: &[u8]) -> SystemFile
    requires { 64 ≤ length bytes.now }
    ensures is { result ≡ system_fields bytes.now }
    ensures few { result.blocks < 2 ^ 32 }
{
    SystemFile {
        root: word_at(bytes, 40),
        blocks: word_at(bytes, 44),
        count: word_at(bytes, 48),
        levels: bytes[52],
    }
}

// Whether these are the levels of a tree over so many data blocks.
#[tactic(auto, using(crate::proofs::Shapes::shape_decides, crate::proofs::Shapes::none_decides))]
fn is_shape(fan: u32, count: u32, levels: u8) -> bool
    requires { 2 ≤ fan }
    ensures { result ≡ is_shape fan count levels }
{
    if count == 0 {
        levels == 0
    } else {
        levels == shape(count, fan).levels
    }
}

// Fixed records of this length, with data blocks and levels by the formulas.
#[tactic(auto, unfolding(cms_model::specs::Systems::is_system))]
fn is_system(bsize: u32, size: u32, bytes: &[u8]) -> bool
    requires long { 64 ≤ length bytes.now }
    requires bsize { IsBlockSize bsize }
    requires size { size ≤ 4096 }
    ensures { result ≡ is_system bsize size bytes.now }
{
    bytes[30] == FIXED
        && word_at(bytes, 32) == size
        && u64::from(word_at(bytes, 44))
            == (u64::from(word_at(bytes, 48)) * u64::from(size)).div_ceil(u64::from(bsize))
        && is_shape(bsize / 4, word_at(bytes, 44), bytes[52])
}

// The directory's own entry.
#[tactic(auto, unfolding(cms_model::specs::Systems::is_directory))]
fn is_directory(bsize: u32, origin: u32, bytes: &[u8]) -> bool
    requires long { 64 ≤ length bytes.now }
    requires bsize { IsBlockSize bsize }
    ensures { result ≡ is_directory bsize origin bytes.now }
{
    let count = word_at(bytes, 48);
    is_system(bsize, ENTRY_SIZE, bytes)
        && (count >= 2 && count <= MOST_FILES + 2)
        && (bytes[52] >= 1 || word_at(bytes, 40) == origin)
}

// The map's entry, on a volume of so many blocks.
#[tactic(auto, unfolding(cms_model::specs::Systems::is_map))]
fn is_map(bsize: u32, total: u32, bytes: &[u8]) -> bool
    requires long { 64 ≤ length bytes.now }
    requires bsize { IsBlockSize bsize }
    ensures { result ≡ is_map bsize total bytes.now }
{
    is_system(bsize, bsize, bytes) && word_at(bytes, 48) == total.div_ceil(8).div_ceil(bsize)
}

/// The directory, by its own entry, whose first block is at `origin`.
#[tactic(auto, unfolding(cms_model::specs::Systems::directory_of))]
pub fn directory_in(bsize: BlockSize, origin: u32, bytes: &[u8]) -> Result<SystemFile, OpenFault>
    requires long { 64 ≤ length bytes.now }
    ensures is { result ≡ directory_of bsize origin bytes.now }
    ensures device { IfErr result (λ e. e ≡ Device → ⊥) }
    ensures shape { IfOk result (λ s. (1 ≤ s.blocks) × (s.levels ≡ levels (bsize / 4) s.blocks)) }
    ensures count { IfOk result (λ s. (2 ≤ s.count) × (s.count ≤ most_files + 2)
        × (s.count * 64 ≤ s.blocks * bsize)) }
    ensures few { IfOk result (λ s. s.blocks < 2 ^ 32) }
    ensures size { IsBlockSize bsize }
{
    let size = bsize.bytes();
    if is_directory(size, origin, bytes) {
        Ok(system_fields(bytes))
    } else {
        Err(OpenFault::System(0))
    }
}

/// The map of a volume of so many blocks, by its entry.
#[tactic(auto, unfolding(cms_model::specs::Systems::map_of))]
pub fn map_in(bsize: BlockSize, total: u32, bytes: &[u8]) -> Result<SystemFile, OpenFault>
    requires long { 64 ≤ length bytes.now }
    requires some { 1 ≤ total }
    ensures is { result ≡ map_of bsize total bytes.now }
    ensures device { IfErr result (λ e. e ≡ Device → ⊥) }
    ensures shape { IfOk result (λ s. (1 ≤ s.blocks) × (s.levels ≡ levels (bsize / 4) s.blocks)) }
    ensures room { IfOk result (λ s. total ≤ 8 * (s.blocks * bsize)) }
    ensures few { IfOk result (λ s. s.blocks < 2 ^ 32) }
{
    let size = bsize.bytes();
    if is_map(size, total, bytes) {
        Ok(system_fields(bytes))
    } else {
        Err(OpenFault::System(1))
    }
}
