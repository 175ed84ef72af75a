// Records that each stand behind their length, in two bytes.
ghost use Rattle.std.specs.Prelude.{◌≡◌, ℕ, ◌+◌, ◌*◌, ◌≤◌, ◌<◌, ◌++◌, [], ◌∷◌, length, drop, take, IfOk, OnOk, OnErr};
ghost use Rattle.std.specs.Iterator.{YieldsFirstRef, item_count};
ghost use Rattle.cms_text.specs.Bytes.{half};
ghost use Rattle.cms_fields.specs.Limits.{most_bytes, longest_record};
ghost use Rattle.cms_model.specs.Records.{varying, with_length};
ghost use Rattle.cms_records.specs.Views.{BeginWith, front, longest_in, first_size};

use byteorder::{BigEndian, ByteOrder};
use cms_journal::BlockSize;
use cms_model::VarFault;
use cms_text::bytes::half_at;
use std::alloc::AllocError;
use std::marker::Model;

/// Records of varying lengths, seen as the list of those that are left.
#[derive(Drop)]
pub struct VarView<'a> {
    bytes: &'a [u8],
    left: u32,
}

impl<'a> Model for VarView<'a> {
    ghost use Rattle.std.specs.Prelude.{ℕ, List};
    ghost use Rattle.cms_records.specs.Views.{front, BeginWith};

    ghost Value = { List (List ℕ) };

    ghost view = { λ v. front v.left v.bytes.now };

    ghost invariant = { λ v. BeginWith v.left v.bytes.now };
}

impl<'a> VarView<'a> {
    /// The `count` records that the bytes of whole blocks of this size hold. The bytes that are left behind them, fewer
    /// than a block, are ignored. Faults as `var_check`.
    pub fn new(bytes: &'a [u8], count: u32, bsize: BlockSize) -> Result<VarView<'a>, VarFault>
        requires { length bytes.now ≤ most_bytes }
        ensures { result ≡ varying bsize count 0 bytes.now }
    {
        match var_check(bytes, count, bsize) {
            Ok(_) => Ok(VarView { bytes, left: count }),
            Err(fault) => Err(fault),
        }
    }

    /// The `count` records with which the bytes begin, as was checked before.
    pub fn of_checked(bytes: &'a [u8], count: u32) -> VarView<'a>
        requires { BeginWith count bytes.now }
        ensures { result ≡ front count bytes.now }
    {
        VarView { bytes, left: count }
    }
}

impl<'a> Iterator for VarView<'a> {
    type Item = &'a [u8];

    ghost next_gives = { YieldsFirstRef (λ records. records) };

    ghost remaining = { item_count (λ records. records) };

    fn next(&mut self) -> Option<&'a [u8]> {
        if self.left == 0 {
            return None;
        }
        let (record, rest) = split_first(self.bytes);
        self.bytes = rest;
        self.left -= 1;
        Some(record)
    }
}

/// The length of the longest of the `count` records that these bytes of whole blocks of this size hold. The places in
/// the faults are counted in bytes from 0, and the fault is that at the first place.
pub fn var_check(bytes: &[u8], count: u32, bsize: BlockSize) -> Result<u32, VarFault>
    requires { length bytes.now ≤ most_bytes }
    ensures { result ≡ longest_in bsize count bytes.now }
{
    let mut place = 0;
    let mut longest: u32 = 0;
    for _done in 0..count {
        let size = first_size(&bytes[place as usize..], place)?;
        longest = longest.max(size);
        place += 2 + size;
    }
    if bytes.len() - place as usize >= bsize.bytes() as usize {
        return Err(VarFault::Left(place));
    }
    Ok(longest)
}

/// The length of the record with which bytes begin, at this place in the whole.
#[tactic(auto, unfolding(crate::specs::Views::first_size))]
pub fn first_size(bytes: &[u8], place: u32) -> Result<u32, VarFault>
    ensures size { result ≡ first_size place bytes.now }
    ensures within { IfOk result (λ size. 2 + size ≤ length bytes.now) }
{
    if bytes.len() < 2 {
        return Err(VarFault::PastEnd(place));
    }
    let size = u32::from(half_at(bytes, 0));
    if size < 1 {
        return Err(VarFault::Zero(place));
    }
    if bytes.len() < 2 + size as usize {
        return Err(VarFault::PastEnd(place));
    }
    Ok(size)
}

// The record with which bytes begin, and what stands behind it.
fn split_first<'a>(bytes: &'a [u8]) -> (&'a [u8], &'a [u8])
    requires length { 2 ≤ length bytes.now }
    requires within { 2 + half bytes.now 0 ≤ length bytes.now }
    ensures first { result.0.now ≡ take (half bytes.now 0) (drop 2 bytes.now) }
    ensures rest { result.1.now ≡ drop (2 + half bytes.now 0) bytes.now }
{
    bytes[2..].split_at(usize::from(half_at(bytes, 0)))
}

/// Appends a record behind its length: 1 to 65,535 bytes. Without memory nothing is appended.
pub fn put_var(into: &mut Vec<u8>, text: &[u8]) -> Result<(), AllocError>
    requires some { 1 ≤ length text.now }
    requires short { length text.now ≤ longest_record }
    ensures ok { OnOk result (into.new.items ≡ into.old.items ++ with_length text.now) }
    ensures err { OnErr result (into.new.items ≡ into.old.items) }
{
    let mut size = [0; 2];
    BigEndian::write_u16(&mut size, text.len() as u16);
    into.reserve(2 + text.len())?;
    into.extend_from_slice(&size)?;
    into.extend_from_slice(text)
}
