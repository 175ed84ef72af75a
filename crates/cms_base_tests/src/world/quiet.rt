// A world that never fails.
use crate::texts::{blank_number, blank_word};
use crate::world::steps::{access, filling, push_bytes, push_done, push_other, unit_of};
use cms_cases::Report;
use cms_world::{Access, Image, ImageList, QuietWorld, World};
use std::alloc::Global;
use std::process::Abort;

/// Steps with strokes between them, each with what comes of it, in a world of three images: `a` of 1,100 bytes 7, `b` of 512 bytes 9, and
/// another `a`, which is never found. The script is `TYPE`.
///
/// `attach NAME ACCESS = UNIT BLOCKS`. `many NAME COUNT = .`: the image is attached so often, as the units from 0 on. `write UNIT = .`:
/// fives are written to block 1, and synced. `block UNIT BLOCK = BYTE`: what fills the block. `read = COUNT BYTES`: how many bytes were
/// read, and what three bytes hold then. `type TEXT = COUNT`. `now = SECONDS`.
///
/// In turn: units stand over images, and a later one sees what was written to its image; units past the table are the last; a script is
/// read, and nothing is kept.
pub const ROWS: &str = "\
attach a rw = 0 2/attach b ro = 1 1/attach c rw = 2 0/attach a n9 = 3 9/write 0 = ./write 1 = ./write 2 = ./write 3 = ./\
block 0 1 = 5/block 0 2 = 7/block 0 3 = 0/block 0 0 = 0/block 1 1 = 9/block 2 1 = 0/block 3 1 = 0/block 9 1 = 0/\
attach a ro = 4 2/block 4 1 = 5/block 4 2 = 7 => true
many a 256 = ./attach b ro = 255 1/block 255 1 = 9/block 254 1 = 7 => true
read = 3 TYP/read = 1 EYP/read = 0 EYP/type R; = 2/now = 0 => true";

fn image<R: Abort>(rt: &R, alloc: Global, name: &str, byte: u8, size: usize) -> Image {
    Image {
        name: String::from_str(alloc, name).expect(rt, "memory"),
        bytes: vec![in alloc; byte; size].expect(rt, "memory"),
    }
}

fn add<R: Abort>(images: &mut ImageList, rt: &R, alloc: Global, name: &str, byte: u8, size: usize) {
    let image = image(rt, alloc, name, byte, size);
    images.push(image).expect(rt, "memory")
}

fn world<R: Abort>(rt: &R, alloc: Global) -> QuietWorld {
    let mut images = ImageList::new(alloc);
    add(&mut images, rt, alloc, "a", 7, 1100);
    add(&mut images, rt, alloc, "b", 9, 512);
    add(&mut images, rt, alloc, "a", 8, 2048);
    let script = b"TYPE".as_slice().to_vec(alloc).expect(rt, "memory");
    QuietWorld::new(images, script)
}

// The number and the blocks of a unit that is attached.
fn attach(world: &mut QuietWorld, name: &str, access: Access) -> Option<(u8, u32)> {
    match world.attach(name, 512, access) {
        Ok(unit) => Some((unit.number, unit.blocks)),
        Err(_) => None,
    }
}

// Adds a unit and its blocks.
fn push_pair(into: &mut Report, unit: u8, blocks: u32) {
    into.value(&unit);
    into.push(' ');
    into.value(&blocks)
}

fn push_attached(into: &mut Report, world: &mut QuietWorld, name: &str, access: Access) {
    match attach(world, name, access) {
        Some((unit, blocks)) => push_pair(into, unit, blocks),
        None => into.push('-'),
    }
}

// Whether the units that are attached next have the numbers from 0 up to this one.
fn attach_many(world: &mut QuietWorld, name: &str, count: u32) -> bool {
    for number in 0..count {
        match attach(world, name, Access::ReadOnly) {
            Some((unit, _)) if u32::from(unit) == number => {}
            _ => return false,
        }
    }
    true
}

fn write(world: &mut QuietWorld, unit: u8) -> bool {
    world.write_block(unit, 1, &[5; 512]).is_ok() && world.sync(unit).is_ok()
}

fn push_block(into: &mut Report, world: &mut QuietWorld, unit: u8, block: u32) {
    let mut bytes = [1; 512];
    let is_read = world.read_block(unit, block, &mut bytes).is_ok();
    match filling(&bytes) {
        Some(byte) if is_read => into.value(&byte),
        _ => into.push('-'),
    }
}

fn push_read(into: &mut Report, world: &mut QuietWorld, bytes: &mut [u8; 3]) {
    into.value(&world.read(bytes).unwrap_or(9));
    into.push(' ');
    push_bytes(into, bytes)
}

fn push_typed(into: &mut Report, world: &mut QuietWorld, bytes: &[u8]) {
    if bytes.len() > 0 {
        into.value(&world.type_out(bytes).unwrap_or(9))
    } else {
        into.push('-')
    }
}

// Adds what comes of the script, the clock and what is typed.
fn push_call(into: &mut Report, world: &mut QuietWorld, bytes: &mut [u8; 3], step: &str) {
    match blank_word(step, 0) {
        "read" => push_read(into, world, bytes),
        "type" => push_typed(into, world, blank_word(step, 1).as_bytes()),
        "now" => into.value(&world.now().unwrap_or(9)),
        _ => into.push('?'),
    }
}

// Adds what comes of a step.
fn push_step(into: &mut Report, world: &mut QuietWorld, bytes: &mut [u8; 3], step: &str) {
    let name = blank_word(step, 1);
    match blank_word(step, 0) {
        "attach" => push_attached(into, world, name, access(blank_word(step, 2))),
        "many" => push_done(into, attach_many(world, name, blank_number(step, 2))),
        "write" => push_done(into, write(world, unit_of(step))),
        "block" => push_block(into, world, unit_of(step), blank_number(step, 2)),
        _ => push_call(into, world, bytes, step),
    }
}

// The first step that doesn't come to what it says, with what it comes to; `true` where each does.
fn push_first_other(into: &mut Report, alloc: Global, world: &mut QuietWorld, steps: &str) {
    let mut bytes = [0; 3];
    for step in steps.split('/') {
        let mut found = Report::new(alloc);
        let (what, wanted) = step.split_once(" = ").unwrap_or((step, ""));
        push_step(&mut found, world, &mut bytes, what);
        if found.text() != wanted {
            return push_other(into, what, found.text());
        }
    }
    into.push_str("true")
}

/// Tells whether each step comes to what it says, or the first that doesn't.
pub fn tell<R: Abort>(into: &mut Report, rt: &R, alloc: Global, case: &str) {
    let mut world = world(rt, alloc);
    push_first_other(into, alloc, &mut world, case)
}
