// Lines that are typed.
use crate::plain_world::{PlainWorld, in_pieces};
use crate::texts::blank_number;
use cms_cases::{Report, number};
use cms_line::type_line;
use std::alloc::Global;
use std::process::Abort;

/// How much a world takes at once, the call that fails, and the lengths of lines that are typed behind one another: how many of them are
/// typed whole, the calls, and how many bytes are typed.
pub const TYPED: &str = "99999 0 of 0 => 1,1,1
99999 0 of 1 => 1,1,2
99999 0 of 255 => 1,1,256
99999 0 of 1023 => 1,1,1024
99999 0 of 1024 => 1,1,1025
99999 0 of 65535 => 1,1,65536
99999 0 of 65536 => 1,2,65537
99999 0 of 70000 => 1,2,70001
1 0 of 0 3 3000 => 3,3006,3006
2 0 of 0 3 3000 => 3,1504,3006
7 0 of 0 3 3000 => 3,431,3006
4096 0 of 0 3 3000 => 3,3,3006
99999 1 of 70000 => 0,1,0
99999 2 of 70000 => 0,2,65536";

/// The line of codes, of which those that the code page lacks are typed as periods.
pub const CODES: &str = r#"codes => Ok("Aa0 *...\n")"#;

const LINE: [u8; 8] = [0xC1, 0x81, 0xF0, 0x40, 0x5C, 0x00, 0x15, 0xFF];

// Types a line of so many `A`, and says whether it is typed whole; adds what should be typed.
fn type_letters<R: Abort>(
    rt: &R,
    alloc: Global,
    world: &mut PlainWorld<'_>,
    wanted: &mut Vec<u8>,
    length: usize,
) -> bool {
    let line = vec![in alloc; 0xC1; length].expect(rt, "memory");
    let end = wanted.len().saturating_add(length);
    wanted.resize(end, b'A').expect(rt, "memory");
    wanted.push(b'\n').expect(rt, "memory");
    type_line(world, &line).is_ok()
}

// Types lines of these lengths, and says how many are typed whole.
fn type_lines<R: Abort>(
    rt: &R,
    alloc: Global,
    world: &mut PlainWorld<'_>,
    wanted: &mut Vec<u8>,
    lengths: &str,
) -> u32 {
    let mut whole = 0_u32;
    for length in lengths.split(' ') {
        if type_letters(rt, alloc, world, wanted, number(length) as usize) {
            whole = whole.wrapping_add(1);
        }
    }
    whole
}

// Adds how many lines are typed whole, the calls, and how many bytes are typed, of those that should be.
fn push_counts(into: &mut Report, whole: u32, world: &PlainWorld<'_>, wanted: &[u8]) {
    if !wanted.starts_with(&world.typed) {
        return into.push_str("other bytes");
    }
    into.value(&whole);
    into.push(',');
    into.value(&world.calls);
    into.push(',');
    into.value(&world.typed.len())
}

/// Adds what comes of typing lines of `A`.
pub fn push_typed<R: Abort>(into: &mut Report, rt: &R, alloc: Global, case: &str) {
    let (how, lengths) = case.split_once(" of ").unwrap_or((case, ""));
    let size = blank_number(how, 0) as usize;
    let failing = blank_number(how, 1) as usize;
    let mut world = in_pieces(alloc, b"", size, failing);
    let mut wanted = Vec::new(alloc);
    let whole = type_lines(rt, alloc, &mut world, &mut wanted, lengths);
    push_counts(into, whole, &world, &wanted)
}

/// Adds what is typed of the line of codes.
pub fn push_codes(into: &mut Report, alloc: Global) {
    let mut world = in_pieces(alloc, b"", 99, 0);
    let _ = type_line(&mut world, &LINE);
    into.value(&str::from_utf8(&world.typed))
}
