// The label and the files' entries of any volume.
ghost use Rattle.std.specs.Prelude.{◌≡◌, ◌⊎◌, ◌≤◌, ◌<◌, ◌+◌, ◌*◌, ◌^◌, [], ℕ, true, length, take, IfOk, IfErr};
ghost use Rattle.cms_fields.specs.Labels.{label_of};
ghost use Rattle.cms_fields.specs.Entries.{entry_of};
ghost use Rattle.cms_model.specs.Lists.{cut};
ghost use Rattle.cms_model.specs.Volumes.{as_read, blamed, entries_of, first_twice};
ghost use Rattle.cms_model.specs.declared.fault.OpenFault.TheVariants as failed;
ghost use Rattle.cms_held.specs.HeldVolumes.{IsFaultOf};
ghost use Rattle.cms_fields.specs.Limits.{most_files};

use crate::blocks::push;
use cms_fields::{Entry, Label, read_entry, read_label};
use cms_journal::BlockSize;
use cms_model::OpenFault;
use cms_names::{Format, Name};
use cms_text::bytes::after;
use std::alloc::{AllocError, Global};
use std::collections::HashSet;

/// The label that the bytes spell.
pub fn label_of(bytes: &[u8], bsize: BlockSize, blocks: u32) -> Result<Label, OpenFault>
    requires { 80 ≤ length bytes.now }
    ensures is { result ≡ blamed failed.Label (label_of bsize blocks bytes.now) }
    ensures origin { IfOk result (λ label. (label.origin ≡ 4) ⊎ (label.origin ≡ 5)) }
    ensures within { IfOk result (λ label. (6 ≤ label.blocks) × (label.blocks ≤ blocks)) }
    ensures device { IfErr result (λ e. e ≡ failed.Device → ⊥) }
{
    match read_label(bytes, bsize, blocks) {
        Ok(label) => Ok(label),
        Err(fault) => Err(OpenFault::Label(fault)),
    }
}

// The entry of a number that the first 64 bytes spell.
fn entry_at(bsize: BlockSize, number: u32, bytes: &[u8]) -> Result<Entry, OpenFault>
    requires long { 64 ≤ length bytes.now }
    ensures is { result ≡ blamed (failed.Entry number) (entry_of bsize (take 64 bytes.now)) }
    ensures device { IfErr result (λ e. e ≡ failed.Device → ⊥) }
{
    match read_entry(&bytes[..64], bsize) {
        Ok(entry) => Ok(entry),
        Err(fault) => Err(OpenFault::Entry(number, fault)),
    }
}

// An entry as it is read: at V the length of records that it tells is passed over.
fn as_read(entry: Entry) -> Entry
    ensures { result ≡ as_read entry }
{
    match entry.format {
        Format::F => entry,
        Format::V => Entry { length: 0, ..entry },
    }
}

/// So many entries as they are read, the first of them with number 2.
pub fn entries_of(
    alloc: Global,
    bsize: BlockSize,
    count: u32,
    bytes: &[u8],
) -> Result<Vec<Entry>, OpenFault>
    requires long { count * 64 ≤ length bytes.now }
    requires few { count ≤ most_files }
    ensures count { IfOk result (λ v. length v.items ≡ count) }
    ensures entries { IfOk result (λ v. entries_of bsize 2 (cut count 64 bytes.now) ≡ Ok v.items) }
    ensures fault { IfErr result (IsFaultOf (entries_of bsize 2 (cut count 64 bytes.now))) }
    ensures device { IfErr result (λ e. e ≡ failed.Device → ⊥) }
{
    let mut entries = Vec::new(alloc);
    for place in 0..count {
        let entry = entry_at(bsize, place + 2, after(bytes, place as usize * 64))?;
        push(&mut entries, as_read(entry))?;
    }
    Ok(entries)
}

/// The number of the first entry whose name stands before it, where the first has number 2.
pub fn name_twice(alloc: Global, entries: &[Entry]) -> Result<Option<u32>, AllocError>
    requires { length entries.now ≤ most_files }
    ensures { IfOk result (λ first. first ≡ first_twice 2 [] entries.now) }
{
    let mut names: HashSet<Name> = HashSet::new(alloc);
    for place in 0..entries.len() {
        match names.insert(entries[place].name) {
            Ok(true) => {}
            Ok(false) => return Ok(Some(place as u32 + 2)),
            Err(_) => return Err(AllocError),
        }
    }
    Ok(None)
}
