// The label of a volume.
ghost use Rattle.std.specs.Prelude.{◌≡◌, ℕ, ◌≤◌, Ok, length, true};
ghost use Rattle.cms_names.specs.Names.{is_between};
ghost use Rattle.cms_fields.specs.Labels.{label_fields, label_of, with_label, has_identifier, is_origin, SpellsSame};

use cms_journal::BlockSize;
use cms_text::bytes::{put, put_word, word_at};

/// What a label says of its volume, by VM/SP's published description of the CMS disk label; its
/// place and layout are this product's own.
#[derive(Clone, Copy, Debug)]
pub struct Label {
    /// the volume id, in EBCDIC
    pub volid: [u8; 6],
    /// bytes of a block
    pub bsize: u32,
    /// the block in which the directory begins, 4 or 5
    pub origin: u32,
    /// blocks of the volume, 6 to 1,048,576
    pub blocks: u32,
    /// blocks in use
    pub in_use: u32,
}

/// The first test that a label fails, in this order.
#[derive(Clone, Copy, Debug)]
pub enum LabelFault {
    /// it doesn't begin with CMS1
    Id,
    /// its block size isn't the unit's
    BlockSize,
    /// its directory begins neither in block 4 nor in block 5
    Origin,
    /// its count of blocks is below 6 or above the unit's
    Count,
    /// its entries don't have 64 bytes
    EntrySize,
}

/// CMS1.
pub const IDENTIFIER: u32 = 0xC3D4_E2F1;

/// Bytes of an entry.
pub const ENTRY_SIZE: u32 = 64;

#[tactic(auto, unfolding(crate::specs::Labels::has_identifier))]
fn has_identifier(bytes: &[u8]) -> bool
    requires { 80 ≤ length bytes.now }
    ensures { result ≡ has_identifier bytes.now }
{
    word_at(bytes, 0) == IDENTIFIER
}

#[tactic(auto, unfolding(crate::specs::Labels::is_origin))]
fn is_origin(block: u32) -> bool
    ensures { result ≡ is_origin block }
{
    block == 4 || block == 5
}

#[tactic(auto, unfolding(crate::specs::Labels::label_fields))]
fn label_fields(bytes: &[u8]) -> Label
    requires { 80 ≤ length bytes.now }
    ensures { result ≡ label_fields bytes.now }
{
    let mut volid = [0; 6];
    volid.copy_from_slice(&bytes[4..10]);
    Label {
        volid,
        bsize: word_at(bytes, 12),
        origin: word_at(bytes, 16),
        blocks: word_at(bytes, 28),
        in_use: word_at(bytes, 32),
    }
}

/// The label that the bytes of block 3 spell, on a unit of this block size and so many blocks. It
/// looks at the first 80 bytes alone.
#[tactic(auto, unfolding(crate::specs::Labels::label_of, crate::specs::Labels::label_fields))]
pub fn read_label(bytes: &[u8], bsize: BlockSize, blocks: u32) -> Result<Label, LabelFault>
    requires { 80 ≤ length bytes.now }
    ensures { result ≡ label_of bsize blocks bytes.now }
{
    let label = label_fields(bytes);
    if !has_identifier(bytes) {
        return Err(LabelFault::Id);
    }
    if label.bsize != bsize.bytes() {
        return Err(LabelFault::BlockSize);
    }
    if !is_origin(label.origin) {
        return Err(LabelFault::Origin);
    }
    if label.blocks < 6 || label.blocks > blocks {
        return Err(LabelFault::Count);
    }
    if word_at(bytes, 36) != ENTRY_SIZE {
        return Err(LabelFault::EntrySize);
    }
    Ok(label)
}

/// Writes into the bytes of block 3 what an update or a relabel changes: the volume id, the
/// directory's origin and the count of blocks in use. All other bytes stay. Where the bytes spelled
/// a label of this block size and count of blocks, they then spell this one.
pub fn write_label(label: &Label, into: &mut [u8])
    requires { 80 ≤ length into.old }
    ensures written { into.new ≡ with_label label.now into.old }
    ensures spells { SpellsSame label.now into.old → is_origin label.now.origin ≡ true
        → (blocks : ℕ) → label.now.blocks ≤ blocks
        → label_of label.now.bsize blocks into.new ≡ Ok label.now }
{
    put(into, 4, &label.volid);
    put_word(into, 16, label.origin);
    put_word(into, 32, label.in_use);
}
