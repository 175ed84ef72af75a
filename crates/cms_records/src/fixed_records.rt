// Records that all have one length.
ghost use Rattle.std.specs.Prelude.{◌≡◌, ℕ, ◌+◌, ◌*◌, ◌≤◌, ◌<◌, ◌++◌, [], length, OnOk, OnErr, slice_index_or};
ghost use Rattle.std.specs.Iterator.{YieldsFirstRef, item_count};
ghost use Rattle.cms_model.specs.Lists.{cut};
ghost use Rattle.cms_records.specs.Views.{fitted};

use std::alloc::AllocError;
use std::marker::Model;

/// Records of one length that stand one after another, seen as the list of those that are left.
#[derive(Drop)]
pub struct FixedView<'a> {
    bytes: &'a [u8],
    size: u32,
    count: u32,
}

impl<'a> Model for FixedView<'a> {
    ghost use Rattle.std.specs.Prelude.{ℕ, ◌*◌, ◌≤◌, List, length};
    ghost use Rattle.cms_model.specs.Lists.{cut};

    ghost Value = { List (List ℕ) };

    ghost view = { λ v. cut v.count v.size v.bytes.now };

    ghost invariant = { λ v. v.size * v.count ≤ length v.bytes.now };
}

impl<'a> FixedView<'a> {
    /// The first `count` records of `size` bytes each. What stands behind them is ignored.
    pub fn new(bytes: &'a [u8], size: u32, count: u32) -> FixedView<'a>
        requires { size * count ≤ length bytes.now }
        ensures records { result ≡ cut count size bytes.now }
        ensures count { length result ≡ count }
    {
        FixedView { bytes, size, count }
    }

    /// The record at a place, from 0.
    pub fn get(&self, k: u32) -> &'a [u8]
        requires { k < length self.now }
        ensures { result.now ≡ slice_index_or self.now k [] }
    {
        let size = self.size as usize;
        let start = k as usize * size;
        &self.bytes[start..start + size]
    }
}

impl<'a> Iterator for FixedView<'a> {
    type Item = &'a [u8];

    ghost next_gives = { YieldsFirstRef (λ records. records) };

    ghost remaining = { item_count (λ records. records) };

    fn next(&mut self) -> Option<&'a [u8]> {
        if self.count == 0 {
            return None;
        }
        let (record, rest) = self.bytes.split_at(self.size as usize);
        self.bytes = rest;
        self.count -= 1;
        Some(record)
    }
}

/// Appends the text, cut to `size` bytes or filled to them with `fill`. Without memory nothing is appended.
pub fn fit(into: &mut Vec<u8>, text: &[u8], size: u32, fill: u8) -> Result<(), AllocError>
    ensures ok { OnOk result (into.new.items ≡ into.old.items ++ fitted text.now size fill) }
    ensures err { OnErr result (into.new.items ≡ into.old.items) }
{
    let size = size as usize;
    let end = into.len().checked_add(size).ok_or(AllocError)?;
    into.reserve(size)?;
    into.extend_from_slice(&text[..size.min(text.len())])?;
    into.resize(end, fill)
}
