// Minidisks that are accessed, and files that are read.
use crate::disk::{info_of, minidisk, push_letters};
use cms_cases::{Report, number, word};
use cms_disk::{AccessFault, Cursor, DiskFault, FileData, Minidisk};
use cms_ebcdic::to_host;
use cms_images::known::put;
use cms_images::{
    Disk, Edit, calls_of, file_named, image_named, put_edits, put_texts, world_of, world_with,
};
use cms_names::{Format, Name};
use cms_world::{Access, MemWorld, World};
use std::alloc::Global;
use std::process::Abort;

/// What is asked:
///
/// - `next`: of V FILE with records of 509 and 3 bytes in two blocks, where a call of the world fails, another reads other bytes, and so
///   many records are asked for: the calls before, and for each answer the length of the record, 0 behind the last, with the calls by
///   then. Each block is read once, and the second one no sooner than the second record needs it; a read that fails loses no record.
/// - `skip`: of ten records of 100 bytes, each of one digit, where so many are passed over: the calls before, those behind the first
///   record, the digits of all that come, and the calls at last. The sixth record ends in the second block, and the seventh begins in it.
/// - `whole`: the length, the count and the mode number of a file, how many bytes it has, whether they are those of the blocks from 7 on,
///   and the calls. `get`: the stored bytes of a file.
/// - `find`: the place of a file. `told`: all files; the length, the count and the blocks of the first; the bytes of a block, the blocks,
///   and those that are free. `stored`: how many bytes the records of the first file have as they are stored.
/// - Why there is no minidisk where bytes of the image are `changed`, or a call of the world is the `failing` one.
/// - `doubt`: of an access in doubt, where a call of the world fails: why there is no minidisk, the letters of all calls, and the events.
pub const ROWS: &str = "\
next/0/0/4 => 6 Ok(509) 7 Ok(3) 8 Ok(0) 8 Ok(0) 8
next/7/0/4 => 6 Err(Device) 7 Ok(509) 8 Ok(3) 9 Ok(0) 9
next/8/0/4 => 6 Ok(509) 7 Err(Device) 8 Ok(3) 9 Ok(0) 9
next/0/8/3 => 6 Ok(509) 7 Err(Altered) 8 Err(Altered) 8
skip/0 => 4 5 [0123456789] 6
skip/1 => 4 5 [123456789] 6
skip/5 => 4 6 [56789] 6
skip/6 => 4 5 [6789] 5
skip/9 => 4 5 [9] 5
skip/10 => 4 4 [] 4
whole/spanning/V => (509, 2, 1, 516, true) 8
get/one file/A => [0, 5, 200, 197, 211, 211, 214]
get/one file/B => NotFound
get/two files/A => [0, 5, 200, 197, 211, 211, 214]
get/two files/B => [0, 5, 200, 197, 211, 211, 214]
get/two files/C => NotFound
get/long directory/A => [0, 5, 200, 197, 211, 211, 214]
get/long directory/G => [0, 5, 200, 197, 211, 211, 214]
get/long directory/H => NotFound
get/full/A => [0, 5, 200, 197, 211, 211, 214]
get/erased/A => NotFound
find/one file/A => Some(0)
find/one file/B => None
told/one file => [A] (5, 1, 1) (512, 9, 2)
stored/one file => Some(7)
stored/spanning => Some(516)
stored/empty => None
changed/one file/3 0 00 => Open(Label(Id))
changed/one file/5 48 00 00 00 01 => Open(System(0))
changed/one file/5 128 00 => Open(Entry(2, Name))
changed/one file/5 168 00 00 00 00 => Open(Pointer { holder: 5, value: 0 })
changed/one file/5 168 00 00 00 08 => Open(Crossed(8))
changed/one file/8 0 F9 => Open(MapMissing(7))
changed/one file/7 0 00 00 => Open(Var(2, Zero(0)))
changed/long directory/8 0 C6 => Open(Twice(8))
failing/one file/1 => Open(Device)
failing/one file/2 => Open(Device)
failing/one file/3 => Open(Device)
failing/one file/4 => Open(Device)
doubt/2 => Some(Sync) as 0
doubt/0 => None asrrrr 1";

// A cursor on V FILE.
fn cursor_on(alloc: Global, world: &mut Disk) -> Option<Cursor> {
    let name = file_named("V")?;
    match minidisk(alloc, world, Access::ReadOnly) {
        Ok(disk) => {
            let cursor = disk.cursor(alloc, &name);
            drop(disk);
            cursor.ok()
        }
        Err(_) => None,
    }
}

// The length of the next record, 0 behind the last.
fn next(world: &mut Disk, cursor: &mut Cursor) -> Result<usize, DiskFault> {
    if cursor.next(world)? {
        Ok(cursor.text().len())
    } else {
        Ok(0)
    }
}

// The calls of the world, and the lengths of so many records with the calls behind each.
fn push_lengths(into: &mut Report, world: &mut Disk, cursor: &mut Cursor, count: u32) {
    into.value(&world.calls);
    for _ in 0..count {
        let length = next(world, cursor);
        write!(into, " {length:?} {}", world.calls);
    }
}

// What comes of V FILE in a world.
fn tell_records(into: &mut Report, alloc: Global, world: &mut Disk, case: &str) {
    world.failing = number(word(case, 1)) as usize;
    world.altering = number(word(case, 2)) as usize;
    match cursor_on(alloc, world) {
        Some(mut cursor) => {
            push_lengths(into, world, &mut cursor, number(word(case, 3)));
            drop(cursor)
        }
        None => into.push_str("no cursor"),
    }
}

// What gives V FILE ten records of 100 bytes: its format, length and count, and the pointers to its blocks 7 and 8.
const FIXED: &[Edit] = &[
    (4, 158, &[0xC6]),
    (4, 160, &[0, 0, 0, 100]),
    (4, 176, &[0, 0, 0, 10]),
    (4, 181, &[4]),
    (9, 0, &[0, 0, 0, 7, 0, 0, 0, 8, 0, 0, 0, 0]),
    (9, 12, &[0, 0, 0, 0, 0, 0, 0, 0, 0, 0, 0, 0]),
];

// Makes V FILE such a file; each record is one digit, 100 times.
fn put_digits(image: &mut [u8]) {
    put_edits(image, FIXED);
    for place in 0..1_000 {
        put(image, 7, place, &[0xF0 + (place / 100 % 10) as u8]);
    }
}

// A cursor on a file of records of one length, behind so many of these.
fn behind(alloc: Global, disk: &Minidisk, name: &Name, count: u32) -> Option<Cursor> {
    let Some(place) = disk.find(name) else {
        return None;
    };
    if place >= disk.count() {
        return None;
    }
    let info = disk.info(place);
    let Format::F = info.format else {
        return None;
    };
    let Ok(mut cursor) = disk.cursor(alloc, name) else {
        return None;
    };
    if info.count < count {
        return None;
    }
    cursor.skip(count);
    Some(cursor)
}

// A cursor on V FILE behind so many of its records.
fn cursor_behind(alloc: Global, world: &mut Disk, count: u32) -> Option<Cursor> {
    let name = file_named("V")?;
    match minidisk(alloc, world, Access::ReadOnly) {
        Ok(disk) => {
            let cursor = behind(alloc, &disk, &name, count);
            drop(disk);
            cursor
        }
        Err(_) => None,
    }
}

// The digit of the next record; a blank behind the last, and a question mark where it isn't read.
fn next_digit(world: &mut Disk, cursor: &mut Cursor) -> char {
    match cursor.next(world) {
        Ok(true) => char::from(to_host(cursor.text().first().copied().unwrap_or(0))),
        Ok(false) => ' ',
        Err(_) => '?',
    }
}

// The calls before, those behind the first record, the digits of all records that are left, and the calls at last.
fn push_digits(into: &mut Report, world: &mut Disk, cursor: &mut Cursor) {
    let before = world.calls;
    let mut digit = next_digit(world, cursor);
    write!(into, "{before} {} [", world.calls);
    for _ in 0..12 {
        if digit != ' ' {
            into.push(digit);
            digit = next_digit(world, cursor);
        }
    }
    write!(into, "] {}", world.calls)
}

// What comes where so many records are passed over.
fn tell_passed_over(into: &mut Report, alloc: Global, world: &mut Disk, count: u32) {
    match cursor_behind(alloc, world, count) {
        Some(mut cursor) => {
            push_digits(into, world, &mut cursor);
            drop(cursor)
        }
        None => into.push_str("no cursor"),
    }
}

// What is read of the file of a letter; nothing where there is no minidisk or the letter is none.
fn file_of(alloc: Global, world: &mut Disk, letter: &str) -> Option<Result<FileData, DiskFault>> {
    let name = file_named(letter)?;
    match minidisk(alloc, world, Access::ReadOnly) {
        Ok(disk) => {
            let file = disk.get(alloc, world, &name);
            drop(disk);
            Some(file)
        }
        Err(_) => None,
    }
}

// The length, the count and the mode number of a file that was read, its stored bytes, whether they stand in the blocks from 7 on, and the
// calls.
fn push_whole(into: &mut Report, file: &FileData, world: &Disk) {
    let bytes = file.bytes.bytes();
    let is_stored = world.image.get(3072..).unwrap_or(&[]).starts_with(bytes);
    let numbers = (file.length, file.count, file.number, bytes.len(), is_stored);
    write!(into, "{numbers:?} {}", world.calls)
}

// A file that is read in a world, all of it or its bytes, or why it isn't.
fn tell_file(into: &mut Report, alloc: Global, world: &mut Disk, case: &str) {
    match file_of(alloc, world, word(case, 2)) {
        Some(Ok(file)) => match word(case, 0) {
            "whole" => push_whole(into, &file, world),
            _ => into.value(&file.bytes.bytes()),
        },
        Some(Err(fault)) => into.value(&fault),
        None => into.push_str("no minidisk"),
    }
}

// What is told of a minidisk with a file.
fn push_told(into: &mut Report, disk: &Minidisk) {
    if disk.count() == 0 {
        return into.push_str("no file");
    }
    let (info, space) = (disk.info(0), disk.space());
    let first = (info.length, info.count, info.blocks);
    let room = (space.bsize, space.total, space.free);
    into.push('[');
    push_letters(into, disk);
    write!(into, "] {first:?} {room:?}")
}

// The stored bytes of the first file.
fn first_stored(disk: &Minidisk) -> Option<u32> {
    if disk.count() == 0 {
        return None;
    }
    Some(disk.stored(0))
}

// The place of the file of a letter.
fn place_of(disk: &Minidisk, letter: &str) -> Option<u32> {
    disk.find(&file_named(letter)?)
}

// Changes the image of a world, or has one of its calls fail, as a case says.
fn change(world: &mut Disk, case: &str) {
    match word(case, 0) {
        "changed" => put_texts(world.image.as_mut_slice(), word(case, 2)),
        "failing" => {
            world.failing = number(word(case, 2)) as usize;
        }
        _ => {}
    }
}

// What is asked of a minidisk.
fn push_asked(into: &mut Report, disk: &Minidisk, case: &str) {
    match word(case, 0) {
        "told" => push_told(into, disk),
        "stored" => into.value(&first_stored(disk)),
        _ => into.value(&place_of(disk, word(case, 2))),
    }
}

// What is asked of the minidisk of a case, or why there is none.
fn tell_asked(into: &mut Report, alloc: Global, world: &mut Disk, case: &str) {
    change(world, case);
    match minidisk(alloc, world, Access::ReadOnly) {
        Ok(disk) => {
            push_asked(into, &disk, case);
            drop(disk)
        }
        Err(fault) => into.value(&fault),
    }
}

// Attaches the disk, and accesses it in doubt: why there is no minidisk.
fn access_in_doubt(alloc: Global, world: &mut MemWorld) -> Option<AccessFault> {
    if world.units() > 0 {
        return None;
    }
    let Ok(unit) = world.attach("disk", 512, Access::ReadOnly) else {
        return None;
    };
    match Minidisk::access(alloc, world, &info_of(unit, Access::ReadOnly), true) {
        Ok(disk) => {
            drop(disk);
            None
        }
        Err(fault) => Some(fault),
    }
}

// What comes of an access in doubt in a world where a call fails.
fn tell_doubt<R: Abort>(into: &mut Report, rt: &R, alloc: Global, failing: u32) {
    let image = image_named(alloc, "one file").expect(rt, "memory");
    let mut world = world_with(alloc, &image, failing, false).expect(rt, "memory");
    let fault = access_in_doubt(alloc, &mut world);
    write!(into, "{fault:?} {} {}", calls_of(&world), world.events());
    drop(world)
}

// The world of a case.
fn world_of_case<R: Abort>(rt: &R, alloc: Global, case: &str) -> Disk {
    let name = match word(case, 0) {
        "next" | "skip" => "spanning",
        _ => word(case, 1),
    };
    let mut image = image_named(alloc, name).expect(rt, "memory");
    if word(case, 0) == "skip" {
        put_digits(image.as_mut_slice());
    }
    world_of(image)
}

// What a case comes to in the world of its image.
fn tell_in(into: &mut Report, alloc: Global, world: &mut Disk, case: &str) {
    match word(case, 0) {
        "next" => tell_records(into, alloc, world, case),
        "skip" => tell_passed_over(into, alloc, world, number(word(case, 1))),
        "whole" | "get" => tell_file(into, alloc, world, case),
        _ => tell_asked(into, alloc, world, case),
    }
}

/// Tells what a case comes to.
pub fn tell<R: Abort>(into: &mut Report, rt: &R, alloc: Global, case: &str) {
    if word(case, 0) == "doubt" {
        return tell_doubt(into, rt, alloc, number(word(case, 1)));
    }
    let mut world = world_of_case(rt, alloc, case);
    tell_in(into, alloc, &mut world, case);
    drop(world)
}
