// Records in bytes, through all the calls.
use crate::texts::{bytes, number_at};
use cms_cases::{Report, word};
use cms_journal::BlockSize;
use cms_records::{FixedView, VarFault, VarView, fit, put_var, var_check};
use std::alloc::Global;
use std::process::Abort;

/// `bytes/COUNT/BYTES`: the longest of so many records in the bytes, or the first fault. `zeros/COUNT`: the same of no record in so many
/// zeros. `put`: how many bytes two records have that are put, and some of these; `read`: the longest of them, the first one's length, the
/// second, and what comes behind it twice. `cut`: two records of one length. `fitted`: a text that is fitted to the sizes 0, 2, 3 and 5.
pub const ROWS: &str = "\
bytes/2/00 05 C8 C5 D3 D3 D6 00 01 C1 => Ok(5)
bytes/1/00 05 C8 C5 D3 D3 D6 00 01 C1 => Ok(5)
zeros/511 => Ok(0)
zeros/512 => Err(Left(0))
bytes/3/00 05 C8 C5 D3 D3 D6 00 01 C1 => Err(PastEnd(10))
bytes/1/C1 => Err(PastEnd(0))
bytes/1/05 C8 C5 D3 D3 D6 00 01 C1 => Err(PastEnd(0))
bytes/1/D3 D6 00 01 C1 => Err(PastEnd(0))
bytes/2/00 01 C1 00 00 00 => Err(Zero(3))
bytes/2/00 01 C1 00 => Err(PastEnd(3))
put => (516, Some([1, 253]), Some([0, 3, 201, 209, 210]))
read => (Ok(509), 509, Some([201, 209, 210]), None, None)
cut => ([1, 2, 3], [4, 5, 6])
fitted => [7, 8, 7, 8, 9, 7, 8, 9, 64, 64]";

// Two records whose second length spans two blocks of 512 bytes.
fn two_records<R: Abort>(rt: &R, alloc: Global) -> Vec<u8> {
    let mut bytes = Vec::new(alloc);
    put_var(&mut bytes, &[0xC8; 509]).expect(rt, "memory");
    put_var(&mut bytes, &[0xC9, 0xD1, 0xD2]).expect(rt, "memory");
    bytes
}

fn tell_put(into: &mut Report, bytes: &[u8]) {
    into.value(&(bytes.len(), bytes.get(..2), bytes.get(511..)))
}

// The longest of records, and the records.
fn tell_view(into: &mut Report, longest: Result<u32, VarFault>, view: &mut VarView<'_>) {
    let first = view.next().unwrap_or(b"").len();
    let second = view.next();
    into.value(&(longest, first, second, view.next(), view.next()))
}

// The longest of two records in two blocks, and the records.
fn tell_records(into: &mut Report, bytes: &[u8]) {
    if bytes.len() > 1024 {
        return into.push_str("too long");
    }
    let longest = var_check(bytes, 2, BlockSize::new(512));
    match VarView::new(bytes, 2, BlockSize::new(512)) {
        Ok(mut view) => tell_view(into, longest, &mut view),
        Err(fault) => into.value(&fault),
    }
}

// Both records, in two blocks.
fn two_blocks<R: Abort>(rt: &R, alloc: Global) -> Vec<u8> {
    let mut bytes = two_records(rt, alloc);
    bytes.resize(1024, 0).expect(rt, "memory");
    bytes
}

fn fitted<R: Abort>(rt: &R, alloc: Global) -> Vec<u8> {
    let mut bytes = Vec::new(alloc);
    for size in &[0, 2, 3, 5] {
        fit(&mut bytes, &[7, 8, 9], *size, 0x40).expect(rt, "memory");
    }
    bytes
}

fn tell_cut(into: &mut Report) {
    let view = FixedView::new(&[1, 2, 3, 4, 5, 6, 7], 3, 2);
    into.value(&(view.get(0), view.get(1)))
}

// The longest of so many records in bytes that are few.
fn longest(bytes: &[u8], count: u32) -> Result<u32, VarFault> {
    if bytes.len() > 1000 {
        return Err(VarFault::Left(0));
    }
    var_check(bytes, count, BlockSize::new(512))
}

fn tell_zeros(into: &mut Report, count: u32) {
    let zeros = [0; 512];
    let count = count.min(512) as usize;
    into.value(&longest(&zeros[..count], 0))
}

// Tells what is put, read, fitted and cut.
fn tell_made<R: Abort>(into: &mut Report, rt: &R, alloc: Global, what: &str) {
    match what {
        "put" => tell_put(into, &two_records(rt, alloc)),
        "read" => tell_records(into, &two_blocks(rt, alloc)),
        "fitted" => into.value(&fitted(rt, alloc)),
        _ => tell_cut(into),
    }
}

/// Tells what a case comes to.
pub fn tell<R: Abort>(into: &mut Report, rt: &R, alloc: Global, case: &str) {
    match word(case, 0) {
        "zeros" => tell_zeros(into, number_at(case, 1)),
        "bytes" => into.value(&longest(&bytes(rt, alloc, word(case, 2)), number_at(case, 1))),
        what => tell_made(into, rt, alloc, what),
    }
}
