// Sessions with a world in memory. A block is named by the letter that fills it, or by 0.
use crate::texts::{blank_number, blank_word};
use crate::world::steps::{access, filling, push_bytes, push_done, push_other, unit_of};
use cms_cases::{Report, word};
use cms_world::{Access, MemWorld, World};
use std::alloc::Global;
use std::process::Abort;

/// `SCRIPT/CLOCK/STEP/STEP ..`: a world with this script, whose clock says this second first, and what is done with it, each step with
/// what comes of it: a hyphen where it fails, or isn't done since what it needs doesn't hold.
///
/// | Step | What it does, and what comes of it |
/// |---|---|
/// | `image NAME LETTERS` | an image of these blocks is there; what stands behind a plus sign is no whole block |
/// | `attach NAME SIZE ACCESS = BLOCKS` | how many blocks the unit has |
/// | `write UNIT BLOCK LETTER = .`, `fill BLOCK LETTER = .` | a block is written; all of unit 0 up to this one |
/// | `sync UNIT = .`, `block UNIT BLOCK = LETTER` | a unit is synced, a block read |
/// | `read = COUNT BYTES`, `type TEXT = .`, `now = SECONDS` | of the script, with what three bytes hold then; typed; the clock |
/// | `fail CALL`, `fail CALL landed` | a call fails from now on, from 1; a write lands all the same |
/// | `events = COUNT`, `typed = TEXT`, `calls = LETTERS` | what the world has kept |
/// | `crash EVENTS CHOICE = LETTERS` | the blocks of unit 0 that a crash right behind so many events leaves |
///
/// In turn: a crash leaves each block by itself; the bits of a choice go round; an image lives on, and one that is made is there from then
/// on; the clock is held; each call has its letter; and six with a call that fails, of which each has its letter too.
pub const ROWS: &str = "\
/5/image disk abc/attach disk 512 rw = 3/write 0 1 A = ./sync 0 = ./write 0 3 x = ./write 0 2 B = ./write 0 3 C = ./\
crash 0 all = abc/crash 1 0 = abc/crash 1 1 = Abc/crash 2 0 = Abc/crash 3 1 = Abx/crash 4 1 = ABc/crash 4 2 = Abx/\
crash 5 0 = Abc/crash 5 1 = ABc/crash 5 2 = AbC/crash 5 all = ABC => true
/0/attach new 512 n65 = 65/fill 65 w = ./crash 65 1 = w{0*63}w => true
/0/image disk +gone/image disk abc+!/attach disk 1024 ro = 1/attach disk 512 rw = 3/write 1 3 C = ./attach disk 1024 rw = 1/\
attach disk 512 ro = 3/block 3 1 = a/block 3 3 = C/write 3 1 x = -/attach new 512 rw = -/attach new 512 n2 = 2/block 4 2 = 0/\
write 4 2 n = ./attach new 512 n2 = -/attach disk 512 n1 = -/attach new 512 rw = 2/block 5 1 = 0/block 5 2 = n/events = 5 => true
/9223372036854775806/fail 2/now = 9223372036854775806/now = -/now = 9223372036854775807/now = 9223372036854775807 => true
Hello/-1/read = 3 Hel/read = 2 lol/read = 0 lol/type R = ./type ;. = ./attach none 512 ro = -/attach new 512 n1 = 1/\
write 0 1 w = ./sync 0 = ./block 0 1 = w/now = -1/now = 0/typed = R;./calls = iiiooaawsrnn/events = 10 => true
/0/image disk a/fail 1 landed/attach disk 512 rw = -/write 0 1 A = -/sync 0 = -/block 0 1 = -/calls = a/events = 1 => true
/0/image disk a/fail 2/attach disk 512 rw = 1/write 0 1 A = -/sync 0 = ./block 0 1 = a/calls = awsr/events = 1 => true
/0/image disk a/fail 2 landed/attach disk 512 rw = 1/write 0 1 A = -/sync 0 = ./block 0 1 = A/calls = awsr/events = 2 => true
/0/image disk a/fail 3 landed/attach disk 512 rw = 1/write 0 1 A = ./sync 0 = -/block 0 1 = A/calls = awsr/events = 1 => true
/0/image disk a/fail 4 landed/attach disk 512 rw = 1/write 0 1 A = ./sync 0 = ./block 0 1 = -/calls = awsr/events = 2 => true
/0/image disk a/fail 5 landed/attach disk 512 rw = 1/write 0 1 A = ./sync 0 = ./block 0 1 = A/calls = awsr/events = 2 => true";

fn attach(world: &mut MemWorld, name: &str, size: u32, access: Access) -> Option<u32> {
    if world.units() < 256 && (size == 512 || size == 1024) {
        match world.attach(name, size, access) {
            Ok(unit) => Some(unit.blocks),
            Err(_) => None,
        }
    } else {
        None
    }
}

fn push_attached(into: &mut Report, world: &mut MemWorld, name: &str, size: u32, access: Access) {
    match attach(world, name, size, access) {
        Some(blocks) => into.value(&blocks),
        None => into.push('-'),
    }
}

fn write(world: &mut MemWorld, unit: u8, block: u32, letter: u8) -> bool {
    world.has_block(unit, block, 512)
        && world.is_writable(unit)
        && world.write_block(unit, block, &[letter; 512]).is_ok()
}

fn fill(world: &mut MemWorld, last: u32, letter: u8) -> bool {
    for block in 1..=last {
        if !write(world, 0, block, letter) {
            return false;
        }
    }
    true
}

fn sync(world: &mut MemWorld, unit: u8) -> bool {
    world.has_unit(unit) && world.sync(unit).is_ok()
}

// Adds the letter that fills a block.
fn push_letter(into: &mut Report, block: &[u8]) {
    into.push(match filling(block) {
        Some(0) => '0',
        Some(letter) => char::from(letter),
        None => '?',
    })
}

fn push_block(into: &mut Report, world: &mut MemWorld, unit: u8, block: u32) {
    let mut bytes = [0; 512];
    if world.has_block(unit, block, 512) && world.read_block(unit, block, &mut bytes).is_ok() {
        return push_letter(into, &bytes);
    }
    into.push('-')
}

fn push_read(into: &mut Report, world: &mut MemWorld, bytes: &mut [u8; 3]) {
    match world.read(bytes) {
        Ok(count) => into.value(&count),
        Err(_) => into.push('-'),
    }
    into.push(' ');
    push_bytes(into, bytes)
}

fn type_out(world: &mut MemWorld, bytes: &[u8]) -> bool {
    bytes.len() > 0 && world.type_out(bytes) == Ok(bytes.len())
}

fn push_time(into: &mut Report, world: &mut MemWorld) {
    match world.now() {
        Ok(seconds) => into.value(&seconds),
        Err(_) => into.push('-'),
    }
}

// Blocks of these letters.
fn blocks<R: Abort>(rt: &R, alloc: Global, letters: &str) -> Vec<u8> {
    let mut bytes = Vec::new(alloc);
    for letter in letters.as_bytes() {
        bytes
            .extend_from_slice(&[*letter; 512])
            .expect(rt, "memory");
    }
    bytes
}

// Blocks of the letters before a plus sign, and what stands behind it.
fn image<R: Abort>(rt: &R, alloc: Global, letters: &str) -> Vec<u8> {
    let (letters, rest) = letters.split_once('+').unwrap_or((letters, ""));
    let mut bytes = blocks(rt, alloc, letters);
    bytes
        .extend_from_slice(rest.as_bytes())
        .expect(rt, "memory");
    bytes
}

fn add_image<R: Abort>(rt: &R, alloc: Global, world: &mut MemWorld, name: &str, letters: &str) {
    let image = image(rt, alloc, letters);
    world.add_image(name, &image).expect(rt, "memory")
}

// Of two plans for one call the later holds.
fn fail_at<R: Abort>(rt: &R, world: &mut MemWorld, call: u32, lands: bool) {
    world.fail_at(call, !lands).expect(rt, "memory");
    world.fail_at(call, lands).expect(rt, "memory")
}

// Adds the letters of blocks.
fn push_letters(into: &mut Report, blocks: &[u8]) {
    for block in blocks.chunks(512) {
        push_letter(into, block);
    }
}

// Adds the letters of the blocks of unit 0 that a crash leaves, where there is such a unit and there are so many events.
fn push_crash<R: Abort>(
    into: &mut Report,
    rt: &R,
    alloc: Global,
    world: &MemWorld,
    at: usize,
    choice: u64,
) {
    if world.has_unit(0) && at <= world.events() {
        let left = world.crash(alloc, 0, at, choice).expect(rt, "memory");
        push_letters(into, &left)
    }
}

fn letter_of(word: &str) -> u8 {
    word.as_bytes().first().copied().unwrap_or(b'?')
}

// Adds what comes of what is done with a unit.
fn push_unit_step(into: &mut Report, world: &mut MemWorld, step: &str) {
    let unit = unit_of(step);
    let block = blank_number(step, 2);
    match blank_word(step, 0) {
        "write" => push_done(
            into,
            write(world, unit, block, letter_of(blank_word(step, 3))),
        ),
        "fill" => push_done(
            into,
            fill(world, blank_number(step, 1), letter_of(blank_word(step, 2))),
        ),
        "sync" => push_done(into, sync(world, unit)),
        "block" => push_block(into, world, unit, block),
        _ => into.push('?'),
    }
}

// Adds what the world has kept, or what comes of what is done with a unit.
fn push_kept(into: &mut Report, world: &mut MemWorld, step: &str) {
    match blank_word(step, 0) {
        "events" => into.value(&world.events()),
        "typed" => push_bytes(into, world.typed()),
        "calls" => push_bytes(into, world.calls()),
        _ => push_unit_step(into, world, step),
    }
}

// Adds what comes of a call of the world.
fn push_call(into: &mut Report, world: &mut MemWorld, bytes: &mut [u8; 3], step: &str) {
    let first = blank_word(step, 1);
    match blank_word(step, 0) {
        "attach" => push_attached(
            into,
            world,
            first,
            blank_number(step, 2),
            access(blank_word(step, 3)),
        ),
        "read" => push_read(into, world, bytes),
        "type" => push_done(into, type_out(world, first.as_bytes())),
        "now" => push_time(into, world),
        _ => push_kept(into, world, step),
    }
}

// Adds what comes of a step.
fn push_step<R: Abort>(
    into: &mut Report,
    rt: &R,
    alloc: Global,
    world: &mut MemWorld,
    bytes: &mut [u8; 3],
    step: &str,
) {
    let second = blank_word(step, 2);
    match blank_word(step, 0) {
        "image" => add_image(rt, alloc, world, blank_word(step, 1), second),
        "fail" => fail_at(rt, world, blank_number(step, 1), second == "landed"),
        "crash" => push_crash(
            into,
            rt,
            alloc,
            world,
            blank_number(step, 1) as usize,
            second.parse().unwrap_or(u64::MAX),
        ),
        _ => push_call(into, world, bytes, step),
    }
}

// The first step that doesn't come to what it says, with what it comes to; `true` where each does.
fn push_first_other<R: Abort>(
    into: &mut Report,
    rt: &R,
    alloc: Global,
    world: &mut MemWorld,
    case: &str,
) {
    let mut bytes = [b'.'; 3];
    for step in case.split('/').skip(2) {
        let mut found = Report::new(alloc);
        let (what, wanted) = step.split_once(" = ").unwrap_or((step, ""));
        push_step(&mut found, rt, alloc, world, &mut bytes, what);
        if found.text() != wanted {
            return push_other(into, what, found.text());
        }
    }
    into.push_str("true")
}

/// Tells whether each step comes to what it says, or the first that doesn't.
pub fn tell<R: Abort>(into: &mut Report, rt: &R, alloc: Global, case: &str) {
    let script = word(case, 0).as_bytes();
    let start = word(case, 1).parse().unwrap_or(0);
    let mut world = MemWorld::new(alloc, script, start).expect(rt, "memory");
    push_first_other(into, rt, alloc, &mut world, case);
    drop(world)
}
