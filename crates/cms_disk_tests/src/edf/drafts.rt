// Files that are planned.
ghost use Rattle.std.specs.Prelude.{IfSome};
ghost use Rattle.cms_edf.specs.FileDrafts.{CanDraft};

use crate::edf::volumes::open;
use cms_cases::{Report, number, word};
use cms_disk::DiskFault;
use cms_edf::{DraftShape, Held, plan_draft};
use cms_images::{NOON, file_named, image_named, world_with};
use cms_journal::BlockSize;
use cms_names::Format;
use std::alloc::Global;
use std::process::Abort;

/// An image, the letter of a file's name, and the length and the number of its records; and why it isn't planned. What is needed may be
/// all that is free; an old file's block isn't free before the label is written; and limits come before the room.
pub const ROWS: &str = "\
empty/A/2048/1 => Full { need: 6, free: 3 }
empty/A/512/1 => planned
one file/B/512/1 => planned
two files/A/512/1 => Full { need: 2, free: 1 }
empty/A/65/1048577 => Limit(2)
empty/A/65535/1025 => Limit(3)
empty/A/64/1048576 => Full { need: 132106, free: 3 }";

/// What a file is to be with so many records of that length or, at V, of no more, if a file may be that.
pub fn shaped(format: Format, length: u32, count: u32, bytes: u64) -> Option<DraftShape>
    ensures { IfSome result CanDraft }
{
    let sized = match format {
        Format::F => bytes == u64::from(length) * u64::from(count),
        Format::V => bytes >= 3 * u64::from(count),
    };
    if !sized || !NOON.is_valid() || length == 0 || length > 65_535 || count == 0 {
        return None;
    }
    Some(DraftShape {
        format,
        length,
        number: 1,
        stamp: NOON,
        count,
        bytes,
    })
}

// Plans the file of a case in its volume.
#[tactic(auto, unfolding(cms_fields::specs::Stamps::is_stamp, cms_fields::specs::Stamps::days_of_month))]
fn tell_plan(into: &mut Report, alloc: Global, held: &mut Held, case: &str) {
    let (length, count) = (number(word(case, 2)), number(word(case, 3)));
    let bytes = u64::from(length).saturating_mul(u64::from(count));
    let Some(asked) = shaped(Format::F, length, count, bytes) else {
        return into.push_str("no file");
    };
    let Some(name) = file_named(word(case, 1)) else {
        return into.push_str("no name");
    };
    match plan_draft(alloc, held, &name, &asked, &NOON) {
        Ok(draft) => {
            drop(draft);
            into.push_str("planned")
        }
        Err(why) => into.value(&DiskFault::from(why)),
    }
}

/// Tells what a case comes to.
pub fn tell<R: Abort>(into: &mut Report, rt: &R, alloc: Global, case: &str) {
    let image = image_named(alloc, word(case, 0)).expect(rt, "memory");
    let mut world = world_with(alloc, &image, 0, false).expect(rt, "memory");
    match open(alloc, &mut world, BlockSize::new(512)) {
        Ok(mut held) => {
            tell_plan(into, alloc, &mut held, case);
            drop(held)
        }
        Err(fault) => into.value(&fault),
    }
    drop(world)
}
