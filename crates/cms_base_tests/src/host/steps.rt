// What a world of files asks of its system, in one log.
use crate::host::logged::{Logged, Plan};
use crate::world::steps::push_bytes;
use cms_cases::{Report, word};
use cms_host::{Deed, FileWorld, Lock};
use cms_world::{Access, World};
use std::alloc::Global;
use std::process::Abort;

/// `asked/STEPS`: what a world asks of its system at these steps, behind each a dot where it went and a hyphen where not; how many calls on
/// units failed, and how many others; and what the system tells. A step is a character: `n` and `o` attach a new image and one that is only
/// read, `t` types two letters, `w` and `g` write and read a block of the first unit, `y` syncs it, `r` reads the script, `c` the clock.
/// Before it `0`, `1` and `9` give the printer so much room, `u` and `k` make locks unknown and refused, and `x`, `d` and `z` make the next
/// sync, folders and writes fail.
///
/// In turn: an image is locked before it is made, and its folder synced in the end; what was typed is printed before a unit is written or
/// synced, before the script is read, and before an image is attached; where it can't be printed nothing is done, and a part that could
/// isn't printed again; a sync that failed is never believed again, and that is told once; writes that fail are asked for and counted;
/// where locks aren't known the session goes on, and that is told once, and where one is refused nothing is made; a new image that can't be
/// synced, or whose folder can't be, isn't attached.
///
/// `read/LOCK/STEPS`: what two units ask of their system, and what they read; and how many calls failed. A small letter reads its block, of
/// which `a` is the first of the first unit, `s` that of the second, and the letter that stands there is told, or a hyphen; a capital one
/// is written to its block; and from a digit on that block of the first unit can't be read.
///
/// In turn: blocks that follow each other are read two, four and eight at a time, up to the unit's end, and others alone; where more than
/// a block can't be read, by a bad block or the file's end, it is read alone, and a failure is that of its own block; a block that was read
/// before it was asked for is read again once it is written, and isn't once another one is; what was read of one unit is nothing for the
/// other; where locks aren't known each block is read alone, since another program may write to it.
///
/// `typed/STEP/STEP ..` and `lines/STEP/STEP ..`: output that is gathered, or taken line by line, where the printer gets so much room at a
/// number, a text is typed, of which `~` is a line feed, or all is flushed at `flush`: how many bytes of the text are taken, or whether all
/// is printed, a hyphen where not; and behind it what is printed. Output is printed once and in order, and a text that is longer than all
/// the room at once.
pub const ROWS: &str = "\
asked/no => OLSYD.OL. 0,0 OLSYDOL
asked/n9twtytrto => OLSYD..abW..abY..abR..abOL. 0,0 OLSYDabWabYabRabOL
asked/ntwyrog9w => OLSYD..----G.abW. 2,2 OLSYDabW
asked/nt1w9w => OLSYD..a-bW. 1,0 OLSYDabW
asked/nxyywgy => OLSYD.Y!--W.G.- 3,0 OLSYDW
asked/nzwy => OLSYD.W-Y. 1,0 OLSYDY
asked/uno => OLSYD!.OL. 0,0 OUSYDOU
asked/kno => OL-OL- 0,2 OO
asked/xn => OLSY- 0,1 OLS
asked/dnc => OLSYD-- 0,2 OLSY
read/taken/abcdefgh => GaGbcGdefgGh 0
read/taken/acegb => GaGcGeGgGb 0
read/taken/abcbad => GaGbcbGaGd 0
read/taken/5abcdefg => GaGbcGGdGG-Gfg 1
read/taken/678abcdefgh => GaGbcGGdGGeGG-GG-G- 3
read/taken/abCcd => GaGbWGCd 0
read/taken/abDcd => GaGbWcGD 0
read/taken/abTcd => GaGbWcGd 0
read/taken/abtuc => GaGbGtGuGc 0
read/unknown/abcd => GaGbGcGd 0
typed/5/HELLO~/flush/R;~/flush/99/flush/flush => 6[]-[HELLO]3[]-[].[~R;~].[]
typed/5/AB/{X*65537}/{X*65537} => 2[]3[ABXXX]-[]
lines/99/R;~/0/R;~ => 3[R;~]-[]";

// Plans what a character of a case says, if it does.
fn prepare(system: &Logged, step: char) -> bool {
    let mut plan = system.plan.get();
    match step {
        '0' => plan.room = 0,
        '1' => plan.room = 1,
        '9' => plan.room = 9,
        'u' => plan.lock = Lock::Unknown,
        'k' => plan.lock = Lock::Refused,
        'x' => plan.sync_fails = true,
        'd' => plan.folder_fails = true,
        'z' => plan.write_fails = true,
        _ => return false,
    }
    system.plan.set(plan);
    true
}

fn step_went(world: &mut FileWorld<Logged>, step: char) -> bool {
    let mut block = [0; 512];
    match step {
        'n' => world.attach("i", 512, Access::New(8)).is_ok(),
        'o' => world.attach("i", 512, Access::ReadOnly).is_ok(),
        't' => world.type_out(b"ab").is_ok(),
        'w' => world.write_block(0, 1, &block).is_ok(),
        'g' => world.read_block(0, 1, &mut block).is_ok(),
        'y' => world.sync(0).is_ok(),
        'r' => world.read(&mut block).is_ok(),
        _ => world.now().is_ok(),
    }
}

// Adds what a system was asked for behind so many calls, and says how many there were.
fn push_calls(into: &mut Report, system: &Logged, seen: usize) -> usize {
    push_bytes(into, system.log.get(seen..).unwrap_or(b"?"));
    system.log.len()
}

// Adds what a system did, each as the character of its call, but a lock that isn't known as `U`.
fn push_deeds(into: &mut Report, deeds: &[Deed]) {
    for deed in deeds {
        into.push(match deed {
            Deed::Opened(..) => 'O',
            Deed::Locked(..) => 'L',
            Deed::Unlockable(_) => 'U',
            Deed::Sized(..) => 'S',
            Deed::Wrote(..) => 'W',
            Deed::Synced(_) => 'Y',
            Deed::FolderSynced(_) => 'D',
            Deed::Printed(byte) => char::from(*byte),
            Deed::ScriptRead => 'R',
        });
    }
}

fn tell_asked(into: &mut Report, world: &mut FileWorld<Logged>, steps: &str) {
    let mut seen = 0;
    for step in steps.chars() {
        if !prepare(world.system(), step) {
            let went = step_went(world, step);
            seen = push_calls(into, world.system(), seen);
            into.push(if went { '.' } else { '-' });
        }
    }
    let (faults, edges) = world.failures();
    into.push(' ');
    into.value(&faults);
    into.push(',');
    into.value(&edges);
    into.push(' ');
    push_deeds(into, &world.system().deeds)
}

// Where the block of a letter stands, a small or a capital one: `a` is the first block of the first unit, `s` that of the second.
fn place_of(letter: u8) -> (u8, u32) {
    let letter = letter.to_ascii_lowercase();
    if letter < b's' {
        (0, u32::from(letter.saturating_sub(b'a' - 1)))
    } else {
        (1, u32::from(letter.saturating_sub(b's' - 1)))
    }
}

// Has a block of the first unit not be read any more.
fn make_bad(system: &Logged, digit: u8) {
    let mut plan = system.plan.get();
    plan.bad |= 1 << (digit.saturating_sub(b'1') % 8);
    system.plan.set(plan)
}

// The letter that a block begins with; a hyphen where it isn't read.
fn letter_in(world: &mut FileWorld<Logged>, unit: u8, block: u32) -> char {
    let mut bytes = [0; 512];
    let went = world.read_block(unit, block, &mut bytes).is_ok();
    if went { char::from(bytes[0]) } else { '-' }
}

// Takes a step, and says the letter that is read, if one is to be.
fn read_or_write(world: &mut FileWorld<Logged>, step: u8) -> Option<char> {
    let (unit, block) = place_of(step);
    if step.is_ascii_digit() {
        make_bad(world.system(), step);
        return None;
    }
    if step.is_ascii_uppercase() {
        let _ = world.write_block(unit, block, &[step; 512]);
        return None;
    }
    Some(letter_in(world, unit, block))
}

fn tell_read(into: &mut Report, world: &mut FileWorld<Logged>, lock: &str, steps: &str) {
    if lock == "unknown" {
        prepare(world.system(), 'u');
    }
    let _ = world.attach("i", 512, Access::New(8));
    let _ = world.attach("j", 512, Access::New(8));
    let mut seen = world.system().log.len();
    for step in steps.bytes() {
        let letter = read_or_write(world, step);
        seen = push_calls(into, world.system(), seen);
        if let Some(letter) = letter {
            into.push(letter);
        }
    }
    into.push(' ');
    into.value(&world.failures().0)
}

// Gives the printer so much room.
fn give_room(system: &Logged, room: usize) {
    let plan = Plan {
        room,
        ..system.plan.get()
    };
    system.plan.set(plan)
}

// A text of which `~` is a line feed, or back.
fn with_line_feeds<R: Abort>(rt: &R, alloc: Global, text: &[u8], old: u8, new: u8) -> Vec<u8> {
    let mut bytes = text.to_vec(alloc).expect(rt, "memory");
    for byte in bytes.iter_mut() {
        if *byte == old {
            *byte = new;
        }
    }
    bytes
}

// Types a text: how many bytes are taken; a hyphen where it doesn't go.
fn push_typed(into: &mut Report, world: &mut FileWorld<Logged>, text: &[u8]) {
    if text.is_empty() {
        return into.push('?');
    }
    match world.type_out(text) {
        Ok(count) => into.value(&count),
        Err(_) => into.push('-'),
    }
}

// Types a text, or flushes: a dot, or a hyphen where it doesn't go.
fn push_typing<R: Abort>(
    into: &mut Report,
    rt: &R,
    alloc: Global,
    world: &mut FileWorld<Logged>,
    step: &str,
) {
    if step == "flush" {
        return into.push(if world.finish() { '.' } else { '-' });
    }
    push_typed(
        into,
        world,
        &with_line_feeds(rt, alloc, step.as_bytes(), b'~', b'\n'),
    )
}

// Adds what was printed behind so many bytes, and says how many there were.
fn push_printed<R: Abort>(
    into: &mut Report,
    rt: &R,
    alloc: Global,
    system: &Logged,
    seen: usize,
) -> usize {
    let log = system.log.get(seen..).unwrap_or(b"?");
    into.push('[');
    push_bytes(into, &with_line_feeds(rt, alloc, log, b'\n', b'~'));
    into.push(']');
    system.log.len()
}

fn tell_typed<R: Abort>(
    into: &mut Report,
    rt: &R,
    alloc: Global,
    world: &mut FileWorld<Logged>,
    case: &str,
) {
    let mut seen = 0;
    for step in case.split('/').skip(1) {
        if let Ok(room) = step.parse() {
            give_room(world.system(), room);
        } else {
            push_typing(into, rt, alloc, world, step);
            seen = push_printed(into, rt, alloc, world.system(), seen);
        }
    }
}

/// Tells what a case comes to.
pub fn tell<R: Abort>(into: &mut Report, rt: &R, alloc: Global, case: &str) {
    let lines = word(case, 0) == "lines";
    let mut world = FileWorld::new(alloc, Logged::new(alloc), lines).expect(rt, "memory");
    match word(case, 0) {
        "asked" => tell_asked(into, &mut world, word(case, 1)),
        "read" => tell_read(into, &mut world, word(case, 1), word(case, 2)),
        _ => tell_typed(into, rt, alloc, &mut world, case),
    }
    drop(world)
}
