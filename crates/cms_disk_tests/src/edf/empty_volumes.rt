// Empty volumes that are made on the units of a world in memory.
use crate::edf::volumes::{TEST01, push_opened, push_state};
use cms_cases::{Report, number, word};
use cms_edf::{Doubt, Held, make, plan_make, wipe};
use cms_images::{Made, NOON, calls_of, formatted, image_left, image_named, world_with, zeros};
use cms_journal::BlockSize;
use cms_world::{Access, MemWorld, World};
use std::alloc::Global;
use std::process::Abort;

/// Volumes that are made on zeros: the bytes of a block, the blocks, and how many data blocks the map has and pointer blocks over these;
/// and what is made, whether its bytes are as they should be, and what opens then, each as the volume id, the bytes of a block, the
/// blocks, those that are free, and the files.
pub const SHAPES: &str = "\
zeros/512/8/1/0 => TEST01 (512, 8, 2, 0), byte for byte, TEST01 (512, 8, 2, 0)
zeros/512/9/1/0 => TEST01 (512, 9, 3, 0), byte for byte, TEST01 (512, 9, 3, 0)
zeros/1024/9/1/0 => TEST01 (1024, 9, 3, 0), byte for byte, TEST01 (1024, 9, 3, 0)
zeros/2048/9/1/0 => TEST01 (2048, 9, 3, 0), byte for byte, TEST01 (2048, 9, 3, 0)
zeros/4096/8/1/0 => TEST01 (4096, 8, 2, 0), byte for byte, TEST01 (4096, 8, 2, 0)
zeros/4096/9/1/0 => TEST01 (4096, 9, 3, 0), byte for byte, TEST01 (4096, 9, 3, 0)
zeros/512/4096/1/0 => TEST01 (512, 4096, 4090, 0), byte for byte, TEST01 (512, 4096, 4090, 0)
zeros/512/4097/2/1 => TEST01 (512, 4097, 4089, 0), byte for byte, TEST01 (512, 4097, 4089, 0)
zeros/512/8192/2/1 => TEST01 (512, 8192, 8184, 0), byte for byte, TEST01 (512, 8192, 8184, 0)
zeros/512/20000/5/1 => TEST01 (512, 20000, 19989, 0), byte for byte, TEST01 (512, 20000, 19989, 0)";

/// What is asked of a volume with HELLO TEXT that another one is made over.
///
/// - `calls`: what is made, and the letters of all calls of the world.
/// - `blocks`: the nine blocks after so many events: `o` as they were, `n` as they will be, `z` zeros.
/// - `crash`: what opens after a crash behind so many events, by a choice: the old volume, none, or the empty one.
/// - `failing`: where this call of the world fails, and a write is lost or has landed: what is answered, how many events there are, and
///   what opens then.
pub const ROWS: &str = "\
calls => TEST01 (512, 9, 3, 0), awswwsws
blocks/0 => ooooooooo
blocks/1 => oozoooooo
blocks/2 => oozoooooo
blocks/3 => oozoonooo
blocks/4 => ooznonooo
blocks/5 => ooznonooo
blocks/6 => oonnonooo
blocks/7 => oonnonooo
crash/0/0 => TEST01 (512, 9, 2, 1)
crash/0/1 => TEST01 (512, 9, 2, 1)
crash/0/2 => TEST01 (512, 9, 2, 1)
crash/0/3 => TEST01 (512, 9, 2, 1)
crash/1/0 => TEST01 (512, 9, 2, 1)
crash/1/1 => Label(Id)
crash/1/2 => TEST01 (512, 9, 2, 1)
crash/1/3 => Label(Id)
crash/2/0 => Label(Id)
crash/2/1 => Label(Id)
crash/2/2 => Label(Id)
crash/2/3 => Label(Id)
crash/3/0 => Label(Id)
crash/3/1 => Label(Id)
crash/3/2 => Label(Id)
crash/3/3 => Label(Id)
crash/4/0 => Label(Id)
crash/4/1 => Label(Id)
crash/4/2 => Label(Id)
crash/4/3 => Label(Id)
crash/5/0 => Label(Id)
crash/5/1 => Label(Id)
crash/5/2 => Label(Id)
crash/5/3 => Label(Id)
crash/6/0 => Label(Id)
crash/6/1 => TEST01 (512, 9, 3, 0)
crash/6/2 => Label(Id)
crash/6/3 => TEST01 (512, 9, 3, 0)
crash/7/0 => TEST01 (512, 9, 3, 0)
crash/7/1 => TEST01 (512, 9, 3, 0)
crash/7/2 => TEST01 (512, 9, 3, 0)
crash/7/3 => TEST01 (512, 9, 3, 0)
failing/2/lost => Wiping(Either), 0 events, TEST01 (512, 9, 2, 1)
failing/2/landed => Wiping(Either), 1 events, Label(Id)
failing/3/lost => Wiping(Either), 1 events, Label(Id)
failing/3/landed => Wiping(Either), 1 events, Label(Id)
failing/4/lost => Making(Old), 2 events, Label(Id)
failing/4/landed => Making(Old), 3 events, Label(Id)
failing/5/lost => Making(Old), 3 events, Label(Id)
failing/5/landed => Making(Old), 4 events, Label(Id)
failing/6/lost => Making(Old), 4 events, Label(Id)
failing/6/landed => Making(Old), 4 events, Label(Id)
failing/7/lost => Making(Either), 5 events, Label(Id)
failing/7/landed => Making(Either), 6 events, TEST01 (512, 9, 3, 0)
failing/8/lost => Making(Either), 6 events, TEST01 (512, 9, 3, 0)
failing/8/landed => Making(Either), 6 events, TEST01 (512, 9, 3, 0)
failing/9/lost => TEST01 (512, 9, 3, 0), 7 events, TEST01 (512, 9, 3, 0)";

// Why no volume is made.
#[derive(Clone, Copy)]
enum Refusal {
    Unattached,
    Memory,
    Wiping(Doubt),
    Making(Doubt),
}

// How a report names it.
fn refusal_name(why: Refusal) -> &'static str {
    match why {
        Refusal::Unattached => "Unattached",
        Refusal::Memory => "Memory",
        Refusal::Wiping(Doubt::Old) => "Wiping(Old)",
        Refusal::Wiping(Doubt::Either) => "Wiping(Either)",
        Refusal::Making(Doubt::Old) => "Making(Old)",
        Refusal::Making(Doubt::Either) => "Making(Either)",
    }
}

// Attaches the disk, wipes it, and makes an empty volume.
#[tactic(auto, unfolding(cms_fields::specs::Stamps::is_stamp, cms_fields::specs::Stamps::days_of_month))]
fn make_on(alloc: Global, world: &mut MemWorld, size: BlockSize) -> Result<Held, Refusal> {
    if world.units() > 0 {
        return Err(Refusal::Unattached);
    }
    let Ok(unit) = world.attach("disk", size.bytes(), Access::ReadWrite) else {
        return Err(Refusal::Unattached);
    };
    if unit.blocks < 8 {
        return Err(Refusal::Unattached);
    }
    let Ok(plan) = plan_make(alloc, &unit, size, TEST01, &NOON) else {
        return Err(Refusal::Memory);
    };
    match wipe(world, unit.number, size) {
        Ok(()) => {}
        Err(why) => {
            drop(plan);
            return Err(Refusal::Wiping(why));
        }
    }
    match make(world, plan) {
        Ok(held) => Ok(held),
        Err(why) => Err(Refusal::Making(why)),
    }
}

// Adds the state of the volume that is made, or why none is.
fn push_made(into: &mut Report, alloc: Global, world: &mut MemWorld, size: BlockSize) {
    match make_on(alloc, world, size) {
        Ok(held) => {
            push_state(into, &held);
            drop(held)
        }
        Err(why) => into.push_str(refusal_name(why)),
    }
}

// Adds the state of what opens in what a crash leaves.
fn push_left<R: Abort>(
    into: &mut Report,
    rt: &R,
    alloc: Global,
    world: &MemWorld,
    at: usize,
    choice: u64,
) {
    let image = image_left(alloc, world, at, choice).expect(rt, "memory");
    push_opened(into, rt, alloc, &image, BlockSize::new(512))
}

// The shape of a volume that is made on zeros.
fn shape_of(case: &str) -> Made {
    Made {
        bsize: number(word(case, 1)),
        total: number(word(case, 2)),
        map: number(word(case, 3)),
        pointers: number(word(case, 4)),
    }
}

// Adds whether the image that was made has the bytes of a volume of a shape, and what opens in it.
fn push_held<R: Abort>(
    into: &mut Report,
    rt: &R,
    alloc: Global,
    shape: &Made,
    size: BlockSize,
    world: &MemWorld,
) {
    let image = image_left(alloc, world, world.events(), 0).expect(rt, "memory");
    let wanted = formatted(alloc, shape).expect(rt, "memory");
    into.push_str(if image == wanted {
        ", byte for byte, "
    } else {
        ", with other bytes, "
    });
    push_opened(into, rt, alloc, &image, size)
}

// Makes a volume on zeros.
fn tell_on_zeros<R: Abort>(
    into: &mut Report,
    rt: &R,
    alloc: Global,
    shape: &Made,
    size: BlockSize,
) {
    let count = (shape.bsize as usize).saturating_mul(shape.total as usize);
    let image = zeros(alloc, count).expect(rt, "memory");
    let mut world = world_with(alloc, &image, 0, false).expect(rt, "memory");
    push_made(into, alloc, &mut world, size);
    push_held(into, rt, alloc, shape, size, &world);
    drop(world)
}

// A block of an image.
fn block(image: &[u8], number: usize) -> &[u8] {
    let start = number.saturating_sub(1).saturating_mul(512);
    let end = start.saturating_add(512);
    image.get(start..end).unwrap_or(&[])
}

// Whether a block is as it was, as it will be, or zeros.
fn letter(found: &[u8], before: &[u8], after: &[u8]) -> char {
    if found == before {
        'o'
    } else if found == after {
        'n'
    } else if found.iter().all(|byte| *byte == 0) {
        'z'
    } else {
        '?'
    }
}

// Adds a letter for each of the nine blocks.
fn push_letters(into: &mut Report, found: &[u8], before: &[u8], after: &[u8]) {
    for number in 1..10 {
        into.push(letter(
            block(found, number),
            block(before, number),
            block(after, number),
        ));
    }
}

const SMALL: Made = Made {
    bsize: 512,
    total: 9,
    map: 1,
    pointers: 0,
};

// Adds how the blocks are after so many events.
fn push_blocks<R: Abort>(into: &mut Report, rt: &R, alloc: Global, world: &MemWorld, at: usize) {
    let before = image_named(alloc, "hello").expect(rt, "memory");
    let after = formatted(alloc, &SMALL).expect(rt, "memory");
    let found = image_left(alloc, world, at, u64::MAX).expect(rt, "memory");
    push_letters(into, &found, &before, &after)
}

// Makes a volume in a world with another one, and tells what is made, and the letters of all calls or how many events there are and what
// opens then.
fn tell_made<R: Abort>(into: &mut Report, rt: &R, alloc: Global, world: &mut MemWorld, case: &str) {
    push_made(into, alloc, world, BlockSize::new(512));
    if word(case, 0) == "calls" {
        return write!(into, ", {}", calls_of(world));
    }
    write!(into, ", {} events, ", world.events());
    push_left(into, rt, alloc, world, world.events(), u64::MAX)
}

// Makes a volume in a world with another one, and tells what is left at a moment.
fn tell_moment<R: Abort>(
    into: &mut Report,
    rt: &R,
    alloc: Global,
    world: &mut MemWorld,
    case: &str,
) {
    push_made(&mut Report::new(alloc), alloc, world, BlockSize::new(512));
    let at = number(word(case, 1)) as usize;
    if word(case, 0) == "blocks" {
        return push_blocks(into, rt, alloc, world, at);
    }
    let choice = u64::from(number(word(case, 2)));
    push_left(into, rt, alloc, world, at, choice)
}

// Makes a volume over another one.
fn tell_over<R: Abort>(into: &mut Report, rt: &R, alloc: Global, case: &str) {
    let failing = match word(case, 0) {
        "failing" => number(word(case, 1)),
        _ => 0,
    };
    let image = image_named(alloc, "hello").expect(rt, "memory");
    let lands = word(case, 2) == "landed";
    let mut world = world_with(alloc, &image, failing, lands).expect(rt, "memory");
    match word(case, 0) {
        "blocks" | "crash" => tell_moment(into, rt, alloc, &mut world, case),
        _ => tell_made(into, rt, alloc, &mut world, case),
    }
    drop(world)
}

/// Tells what a case comes to.
pub fn tell<R: Abort>(into: &mut Report, rt: &R, alloc: Global, case: &str) {
    if word(case, 0) != "zeros" {
        return tell_over(into, rt, alloc, case);
    }
    let shape = shape_of(case);
    match BlockSize::of(shape.bsize) {
        Some(size) => tell_on_zeros(into, rt, alloc, &shape, size),
        None => into.push_str("no size"),
    }
}
