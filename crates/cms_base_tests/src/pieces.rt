// Records whose bytes come in pieces.
use crate::texts::{bytes, number_at};
use cms_cases::{Report, number, word};
use cms_journal::BlockSize;
use cms_records::{RecordState, VarFault, VarScan, VarSizes, put_var};
use std::alloc::Global;
use std::process::Abort;

/// `varying`, `long`, `fixed`: how far each piece is fed, or the fault.
/// `refused`: what is said of a length of 0 whose first byte came before, and of the piece that is fed in its place.
/// `start/LENGTH LENGTH ..`: where the first record begins in the last data block of 512 bytes of records of these lengths.
/// `sizes/COUNT/PIECE/PIECE`: the sizes of so many records in two pieces, which stand in whole blocks of 512 bytes.
pub const ROWS: &str = "\
varying => (Ok(Fed { next: 5, whole: true }), Ok(Fed { next: 6, whole: false }), Ok(Fed { next: 2, whole: true }), Err(Zero(8)))
long => Err(PastEnd(0))
fixed => (Ok(Fed { next: 2, whole: true }), Ok(Fed { next: 3, whole: false }))
refused => (Err(Zero(3)), Ok(Fed { next: 2, whole: true }))
start/1 => 0
start/600 => 4294967295
start/600 1 3 => 90
start/510 1 => 0
start/509 1 => 4294967295
start/509 600 => 4294967295
start/600 600 1 => 180
sizes/2/00 03 C1 C2 C3 00 01 C4 => Ok(VarSizes { longest: 3, stored: 8 })
sizes/2/00 03 C1 C2 C3 00/01 C4 => Ok(VarSizes { longest: 3, stored: 8 })
sizes/2/00/03 C1 C2 C3 00 01 C4 => Ok(VarSizes { longest: 3, stored: 8 })
sizes/3/00 03 C1 C2 C3 00 01 C4 => Err(PastEnd(8))
sizes/3/00 03 C1 C2 C3 00 01 C4/00 00 => Err(Zero(8))
sizes/3/00 03 C1 C2 C3 00 01 C4/00 09 C1 => Err(PastEnd(8))
sizes/2/00 03 C1 C2 C3 00 01 C4/512 zeros => Err(Left(8))";

// Records of 3 bytes and of 1, of which the second length is cut, and one of no bytes.
fn tell_varying<R: Abort>(into: &mut Report, rt: &R, alloc: Global) {
    let mut state = RecordState::new(alloc, None, 3).expect(rt, "memory");
    let first = state.feed(&[0, 3, 0xC1, 0xC2, 0xC3, 0], 0);
    let cut = state.feed(&[0, 3, 0xC1, 0xC2, 0xC3, 0], 5);
    let second = state.feed(&[1, 0xC4, 0, 0], 0);
    into.value(&(first, cut, second, state.feed(&[1, 0xC4, 0, 0], 2)))
}

// A record above the longest.
fn tell_long<R: Abort>(into: &mut Report, rt: &R, alloc: Global) {
    let mut state = RecordState::new(alloc, None, 3).expect(rt, "memory");
    into.value(&state.feed(&[0, 4, 0xC1], 0))
}

// One record of 2 bytes, and the first byte of the next.
fn tell_fixed<R: Abort>(into: &mut Report, rt: &R, alloc: Global) {
    let mut state = RecordState::new(alloc, Some(2), 2).expect(rt, "memory");
    let first = state.feed(&[0, 0, 1], 0);
    into.value(&(first, state.feed(&[0, 0, 1], 2)))
}

// A length of which the second byte is refused, and another second byte.
fn tell_refused<R: Abort>(into: &mut Report, rt: &R, alloc: Global) {
    let mut state = RecordState::new(alloc, None, 3).expect(rt, "memory");
    let _first = state.feed(&[0, 1, 0xC1, 0], 0);
    let _cut = state.feed(&[0, 1, 0xC1, 0], 3);
    let bad = state.feed(&[0, 0xC4], 0);
    into.value(&(bad, state.feed(&[1, 0xC4], 0)))
}

const FILL: [u8; 700] = [7; 700];

// Where the first record begins in the last data block of records of these lengths, from 1 to 700.
fn tell_start<R: Abort>(into: &mut Report, rt: &R, alloc: Global, lengths: &str) {
    let mut bytes = Vec::new(alloc);
    let mut count = 0_u32;
    for length in lengths.split(' ') {
        let length = number(length).clamp(1, 700) as usize;
        put_var(&mut bytes, &FILL[..length]).expect(rt, "memory");
        count = count.saturating_add(1);
    }
    let mut scan = VarScan::new(count, BlockSize::new(512));
    if bytes.len() <= 10_000 {
        let _fed = scan.feed(&bytes);
    }
    into.value(&scan.last_start())
}

// So many records in two pieces, in whole blocks of 512 bytes.
fn sizes(count: u32, first: &[u8], second: &[u8]) -> Result<VarSizes, VarFault> {
    let mut scan = VarScan::new(count, BlockSize::new(512));
    if first.len() > 1000 || second.len() > 1000 {
        return Err(VarFault::Left(0));
    }
    scan.feed(first)?;
    scan.feed(second)?;
    scan.end()
}

fn piece<R: Abort>(rt: &R, alloc: Global, text: &str) -> Vec<u8> {
    match text {
        "512 zeros" => vec![in alloc; 0; 512].expect(rt, "memory"),
        _ => bytes(rt, alloc, text),
    }
}

fn tell_sizes<R: Abort>(into: &mut Report, rt: &R, alloc: Global, case: &str) {
    into.value(&sizes(
        number_at(case, 1),
        &piece(rt, alloc, word(case, 2)),
        &piece(rt, alloc, word(case, 3)),
    ))
}

// Tells how far pieces are fed.
fn tell_fed<R: Abort>(into: &mut Report, rt: &R, alloc: Global, what: &str) {
    match what {
        "varying" => tell_varying(into, rt, alloc),
        "long" => tell_long(into, rt, alloc),
        "fixed" => tell_fixed(into, rt, alloc),
        _ => tell_refused(into, rt, alloc),
    }
}

/// Tells what a case comes to.
pub fn tell<R: Abort>(into: &mut Report, rt: &R, alloc: Global, case: &str) {
    match word(case, 0) {
        "start" => tell_start(into, rt, alloc, word(case, 1)),
        "sizes" => tell_sizes(into, rt, alloc, case),
        what => tell_fed(into, rt, alloc, what),
    }
}
