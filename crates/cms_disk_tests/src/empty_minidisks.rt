// Empty minidisks that are made on the units of a world in memory.
use crate::disk::{info_of, minidisk};
use cms_cases::{Report, number, word};
use cms_disk::{DiskFault, Minidisk};
use cms_images::{Made, NOON, formatted, image_left, image_named, world_of, world_with};
use cms_world::{Access, MemWorld, World};
use std::alloc::Global;
use std::process::Abort;

// TEST01, in EBCDIC.
const TEST01: [u8; 6] = [0xE3, 0xC5, 0xE2, 0xE3, 0xF0, 0xF1];

/// What a minidisk is made on, the call of the world that fails, and whether its write is lost or has landed: what is answered, the files
/// and the free blocks where there is a minidisk; whether the bytes then are those of an `empty` volume on zeros; and what is accessed.
pub const ROWS: &str = "\
zeros => (0, 3), empty, (0, 3)
one file/2/lost => InDoubt, used, (1, 2)
one file/2/landed => InDoubt, used, Open(Label(Id))
one file/3/lost => InDoubt, used, Open(Label(Id))
one file/4/lost => Device, used, Open(Label(Id))
one file/4/landed => Device, used, Open(Label(Id))
one file/5/lost => Device, used, Open(Label(Id))
one file/5/landed => Device, used, Open(Label(Id))
one file/6/lost => Device, used, Open(Label(Id))
one file/7/lost => InDoubt, used, Open(Label(Id))
one file/7/landed => InDoubt, used, (0, 3)
one file/8/lost => InDoubt, used, (0, 3)
one file/9/lost => (0, 3), used, (0, 3)";

// Attaches the disk, and makes a minidisk on it; none where it isn't attached.
#[tactic(auto, unfolding(cms_fields::specs::Stamps::is_stamp, cms_fields::specs::Stamps::days_of_month))]
fn make_on(alloc: Global, world: &mut MemWorld) -> Option<Result<Minidisk, DiskFault>> {
    if world.units() > 0 {
        return None;
    }
    let unit = world.attach("disk", 512, Access::ReadWrite).ok()?;
    if unit.blocks < 8 {
        return None;
    }
    let info = info_of(unit, Access::ReadWrite);
    Some(Minidisk::make(alloc, world, &info, TEST01, &NOON))
}

// Adds the files and the free blocks of a minidisk.
fn push_counts(into: &mut Report, disk: &Minidisk) {
    into.value(&(disk.count(), disk.space().free))
}

fn push_made(into: &mut Report, alloc: Global, world: &mut MemWorld) {
    match make_on(alloc, world) {
        Some(Ok(disk)) => {
            push_counts(into, &disk);
            drop(disk)
        }
        Some(Err(fault)) => into.value(&fault),
        None => into.push_str("no unit"),
    }
}

// Adds what is accessed in an image.
fn push_accessed(into: &mut Report, alloc: Global, image: Vec<u8>) {
    let mut world = world_of(image);
    match minidisk(alloc, &mut world, Access::ReadOnly) {
        Ok(disk) => {
            push_counts(into, &disk);
            drop(disk)
        }
        Err(fault) => into.value(&fault),
    }
    drop(world)
}

const SMALL: Made = Made {
    bsize: 512,
    total: 9,
    map: 1,
    pointers: 0,
};

// Adds whether what is left of the first unit of a world is an empty volume on zeros, and what is accessed in it.
fn push_left<R: Abort>(into: &mut Report, rt: &R, alloc: Global, world: &MemWorld) {
    let empty = formatted(alloc, &SMALL).expect(rt, "memory");
    let image = image_left(alloc, world, world.events(), u64::MAX).expect(rt, "memory");
    into.push_str(if image == empty {
        ", empty, "
    } else {
        ", used, "
    });
    push_accessed(into, alloc, image)
}

/// Tells what a case comes to.
pub fn tell<R: Abort>(into: &mut Report, rt: &R, alloc: Global, case: &str) {
    let image = image_named(alloc, word(case, 0)).expect(rt, "memory");
    let (failing, lands) = (number(word(case, 1)), word(case, 2) == "landed");
    let mut world = world_with(alloc, &image, failing, lands).expect(rt, "memory");
    push_made(into, alloc, &mut world);
    push_left(into, rt, alloc, &world);
    drop(world)
}
