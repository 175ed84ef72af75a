// Files as they are handed about.
use crate::texts::bytes;
use cms_cases::Report;
use cms_model::Stored;
use std::alloc::Global;
use std::process::Abort;

/// Bytes that are stored.
pub const ROWS: &str = "00 02 C1 C2 => [0, 2, 193, 194]";

fn tell_stored(into: &mut Report, stored: &Stored) {
    into.value(&stored.bytes())
}

/// Tells what they are then.
pub fn tell<R: Abort>(into: &mut Report, rt: &R, alloc: Global, case: &str) {
    tell_stored(into, &Stored::take(bytes(rt, alloc, case)))
}
