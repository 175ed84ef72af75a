// Changes of minidisks on a world in memory, and what a crash leaves of them.
use crate::cases::word_of;
use crate::disk::{access_of, info_of, minidisk, push_letters};
use cms_cases::{Report, number, word};
use cms_disk::{DiskFault, Minidisk};
use cms_fields::Stamp;
use cms_images::{
    START, calls_of, file_named, image_left, image_named, put_texts, world_of, world_with,
};
use cms_names::Name;
use cms_world::{Access, MemWorld, World};
use std::alloc::Global;
use std::process::Abort;

// NEWVOL, in EBCDIC.
const NEW: [u8; 6] = [0xD5, 0xC5, 0xE6, 0xE5, 0xD6, 0xD3];

/// What a minidisk is accessed for, its image, and what is asked of it, with files by their letters:
///
/// - `written` and `read`: the answer, the files then, how many events were added, and the files of what is left. An update has at most two
///   blocks more than it needs, and two syncs; of what is only read each refusal stands before the one that follows.
/// - `seen`: the free blocks, the letters of all calls of the world, and whether the bytes are as a system would leave them.
/// - `crash`: the answer, and the files of what a crash leaves behind so many events, by a choice. The directory of seven files has two
///   blocks, that of six one.
/// - `failing`: as `written`, where the call fails that stands so many before the last, and its write is lost or has landed.
/// - `dated`: the answer, and of what is left the year, month and day of the first file's stamp and the flags byte of its entry; some bytes
///   of the image are changed first.
pub const ROWS: &str = "\
written/one file/erase A => Ok(()) [] 5 []
written/one file/erase B => Err(NotFound) [A] 0 [A]
written/two files/erase A => Ok(()) [B] 5 [B]
written/two files/rename A C => Ok(()) [CB] 4 [CB]
written/two files/rename B B => Ok(()) [AB] 4 [AB]
written/two files/rename A B => Err(Exists) [AB] 0 [AB]
written/two files/rename C B => Err(NotFound) [AB] 0 [AB]
written/two files/relabel => Ok(()) [AB] 2 [AB]
written/full/erase A => Err(Full { need: 1, free: 0 }) [A] 0 [A]
written/full/relabel => Ok(()) [A] 2 [A]
written/one file/century 70 => Ok(()) [A] 4 [A]
written/empty/century 0 => Ok(()) [] 4 []
written/full/century 0 => Err(Full { need: 1, free: 0 }) [A] 0 [A]
written/long directory/century 70 => Err(Full { need: 3, free: 1 }) [ABCDEFG] 0 [ABCDEFG]
written/long directory on 17/century 70 => Err(Full { need: 3, free: 2 }) [ABCDEFG] 0 [ABCDEFG]
written/long directory on 20/century 70 => Ok(()) [ABCDEFG] 7 [ABCDEFG]
written/sixteen files/century 70 => Err(Full { need: 4, free: 3 }) [ABCDEFGHIJKLMNOP] 0 [ABCDEFGHIJKLMNOP]
written/wide map/century 70 => Ok(()) [A] 4 [A]
written/long directory/erase G => Ok(()) [ABCDEF] 5 [ABCDEF]
written/long directory/erase A => Ok(()) [GBCDEF] 5 [GBCDEF]
written/long directory/rename A H => Err(Full { need: 2, free: 1 }) [ABCDEFG] 0 [ABCDEFG]
written/long directory on 17/rename A H => Ok(()) [HBCDEFG] 6 [HBCDEFG]
written/sixteen files/erase A => Ok(()) [PBCDEFGHIJKLMNO] 7 [PBCDEFGHIJKLMNO]
written/sixteen files/erase P => Ok(()) [ABCDEFGHIJKLMNO] 7 [ABCDEFGHIJKLMNO]
written/sixteen files/erase H => Err(Full { need: 4, free: 3 }) [ABCDEFGHIJKLMNOP] 0 [ABCDEFGHIJKLMNOP]
written/sixteen files/rename A Z => Ok(()) [ZBCDEFGHIJKLMNOP] 6 [ZBCDEFGHIJKLMNOP]
written/sixteen files on 27/erase A => Err(Full { need: 3, free: 2 }) [ABCDEFGHIJKLMNOP] 0 [ABCDEFGHIJKLMNOP]
written/wide map/erase A => Ok(()) [] 6 []
written/wide map/rename A B => Ok(()) [B] 4 [B]
read/two files/erase C => Err(NotFound) [AB] 0 [AB]
read/two files/erase A => Err(ReadOnly) [AB] 0 [AB]
read/two files/rename C B => Err(NotFound) [AB] 0 [AB]
read/two files/rename A B => Err(Exists) [AB] 0 [AB]
read/two files/rename A C => Err(ReadOnly) [AB] 0 [AB]
read/two files/relabel => Err(ReadOnly) [AB] 0 [AB]
read/two files/century 70 => Err(ReadOnly) [AB] 0 [AB]
seen/one file/erase A => Ok(()) 3 arrrrwwsws as erased
dated/one file/relabel/5 159 00 => Ok(()) 1900-1-1 0
dated/one file/century 70/5 159 00 => Ok(()) 2000-1-1 8
dated/one file/century 0/5 159 00 => Ok(()) 1900-1-1 0
dated/one file/century 1/5 159 00, 5 182 00 02 29 => Ok(()) 2000-2-29 8
dated/one file/century 1/5 159 00, 5 182 01 => Ok(()) 1901-1-1 0
dated/one file/century 70/5 159 00, 5 182 69 => Ok(()) 2069-1-1 8
dated/one file/century 70/5 159 00, 5 182 70 => Ok(()) 1970-1-1 0
dated/one file/century 99/5 159 00, 5 182 99 => Ok(()) 1999-1-1 0
dated/one file/century 100/5 159 00, 5 182 99 => Ok(()) 2099-1-1 8
dated/one file/century 100/5 159 00, 5 182 00 02 29 => Ok(()) 2000-2-29 8
dated/one file/century 100/5 159 08 => Ok(()) 2000-1-1 8
dated/one file/century 100/5 159 F7 => Ok(()) 2000-1-1 8
dated/one file/century 100/5 159 FF, 5 182 99 => Ok(()) 2099-1-1 8
crash/long directory/erase G/0/0 => Ok(()) ABCDEFG
crash/long directory/erase G/0/1 => Ok(()) ABCDEFG
crash/long directory/erase G/0/2 => Ok(()) ABCDEFG
crash/long directory/erase G/0/3 => Ok(()) ABCDEFG
crash/long directory/erase G/1/0 => Ok(()) ABCDEFG
crash/long directory/erase G/1/1 => Ok(()) ABCDEFG
crash/long directory/erase G/1/2 => Ok(()) ABCDEFG
crash/long directory/erase G/1/3 => Ok(()) ABCDEFG
crash/long directory/erase G/2/0 => Ok(()) ABCDEFG
crash/long directory/erase G/2/1 => Ok(()) ABCDEFG
crash/long directory/erase G/2/2 => Ok(()) ABCDEFG
crash/long directory/erase G/2/3 => Ok(()) ABCDEFG
crash/long directory/erase G/3/0 => Ok(()) ABCDEFG
crash/long directory/erase G/3/1 => Ok(()) ABCDEFG
crash/long directory/erase G/3/2 => Ok(()) ABCDEFG
crash/long directory/erase G/3/3 => Ok(()) ABCDEFG
crash/long directory/erase G/4/0 => Ok(()) ABCDEFG
crash/long directory/erase G/4/1 => Ok(()) ABCDEF
crash/long directory/erase G/4/2 => Ok(()) ABCDEFG
crash/long directory/erase G/4/3 => Ok(()) ABCDEF
crash/long directory/erase G/5/0 => Ok(()) ABCDEF
crash/long directory/erase G/5/1 => Ok(()) ABCDEF
crash/long directory/erase G/5/2 => Ok(()) ABCDEF
crash/long directory/erase G/5/3 => Ok(()) ABCDEF
failing/long directory/erase G/4/lost => Err(Device) [ABCDEFG] 0 [ABCDEFG]
failing/long directory/erase G/4/landed => Err(Device) [ABCDEFG] 1 [ABCDEFG]
failing/long directory/erase G/3/landed => Err(Device) [ABCDEFG] 2 [ABCDEFG]
failing/long directory/erase G/2/lost => Err(Device) [ABCDEFG] 2 [ABCDEFG]
failing/long directory/erase G/1/lost => Err(InDoubt) [ABCDEFG] 3 [ABCDEFG]
failing/long directory/erase G/1/landed => Err(InDoubt) [ABCDEFG] 4 [ABCDEF]
failing/long directory/erase G/0/lost => Err(InDoubt) [ABCDEFG] 4 [ABCDEF]";

type Answer = (Result<(), DiskFault>, Minidisk);

// What is asked of a minidisk.
#[derive(Clone, Copy)]
enum Asked {
    Erase(Name),
    Rename(Name, Name),
    Relabel,
    Century(u32),
}

// A renaming of a file, where both are names.
fn renaming(from: Option<Name>, to: Option<Name>) -> Option<Asked> {
    match (from, to) {
        (Some(from), Some(to)) => Some(Asked::Rename(from, to)),
        _ => None,
    }
}

// What a text asks for: `erase A`, `rename A B`, `century 70` or `relabel`.
fn asked_by(text: &str) -> Option<Asked> {
    let (first, second) = (word_of(text, 1), word_of(text, 2));
    match word_of(text, 0) {
        "erase" => file_named(first).map(Asked::Erase),
        "rename" => renaming(file_named(first), file_named(second)),
        "century" => Some(Asked::Century(number(first).min(100))),
        _ => Some(Asked::Relabel),
    }
}

// Attaches the disk, accesses it, and does what is asked: the answer, and the minidisk then; none where it isn't accessed.
#[tactic(auto, unfolding(cms_fields::specs::Stamps::is_stamp, cms_fields::specs::Stamps::days_of_month))]
fn changed(alloc: Global, world: &mut MemWorld, access: Access, asked: &Asked) -> Option<Answer> {
    if world.units() > 0 {
        return None;
    }
    let unit = world.attach("disk", 512, access).ok()?;
    let info = info_of(unit, access);
    let mut disk = Minidisk::access(alloc, world, &info, false).ok()?;
    let answer = match asked {
        Asked::Erase(name) => disk.erase(alloc, world, name, &START),
        Asked::Rename(from, to) => disk.rename(alloc, world, from, to, 1, &START),
        Asked::Relabel => disk.relabel(alloc, world, NEW, &START),
        Asked::Century(pivot) => disk.century(alloc, world, (*pivot).min(100), &START),
    };
    Some((answer, disk))
}

// Adds the files of an image, or why there is no minidisk.
fn push_files(into: &mut Report, alloc: Global, image: Vec<u8>) {
    let mut world = world_of(image);
    match minidisk(alloc, &mut world, Access::ReadOnly) {
        Ok(disk) => {
            push_letters(into, &disk);
            drop(disk)
        }
        Err(fault) => into.value(&fault),
    }
    drop(world)
}

// The same of what a crash leaves.
fn push_left<R: Abort>(
    into: &mut Report,
    rt: &R,
    alloc: Global,
    world: &MemWorld,
    at: usize,
    choice: u64,
) {
    let image = image_left(alloc, world, at, choice).expect(rt, "memory");
    push_files(into, alloc, image)
}

// The flags byte of the first file's entry, in the one block of the directory that the label names.
fn flags(image: &[u8]) -> Option<u8> {
    let origin = usize::from(*image.get(2 * 512 + 19)?);
    let at = origin
        .saturating_sub(1)
        .saturating_mul(512)
        .saturating_add(159);
    image.get(at).copied()
}

// The stamp of the first file of a minidisk.
fn stamp_of(disk: &Minidisk) -> Option<Stamp> {
    if disk.count() == 0 {
        return None;
    }
    Some(disk.info(0).stamp)
}

// The stamp of the first file in an image; none where there is no minidisk or no file.
fn stamp_in(alloc: Global, image: Vec<u8>) -> Option<Stamp> {
    let mut world = world_of(image);
    let stamp = match minidisk(alloc, &mut world, Access::ReadOnly) {
        Ok(disk) => {
            let stamp = stamp_of(&disk);
            drop(disk);
            stamp
        }
        Err(_) => None,
    };
    drop(world);
    stamp
}

// Adds the stamp of the first file of what is left, and the flags byte of its entry.
fn push_dated<R: Abort>(into: &mut Report, rt: &R, alloc: Global, world: &MemWorld) {
    let image = image_left(alloc, world, world.events(), u64::MAX).expect(rt, "memory");
    let flags = flags(&image).unwrap_or(0xFF);
    match stamp_in(alloc, image) {
        Some(stamp) => {
            let (year, month, day) = (stamp.year, stamp.month, stamp.day);
            write!(into, "{year}-{month}-{day} {flags}")
        }
        None => into.push_str("no file"),
    }
}

// Adds the free blocks, the calls, and whether the bytes are those that a system leaves where it erases the one file of a volume.
fn push_seen<R: Abort>(
    into: &mut Report,
    rt: &R,
    alloc: Global,
    world: &MemWorld,
    disk: &Minidisk,
) {
    let left = image_left(alloc, world, world.events(), 0).expect(rt, "memory");
    let erased = image_named(alloc, "erased").expect(rt, "memory");
    let bytes = if left == erased {
        "as erased"
    } else {
        "otherwise"
    };
    write!(into, "{} {} {bytes}", disk.space().free, calls_of(world))
}

// Adds the files, the events, and the files of what is left.
fn push_changed<R: Abort>(
    into: &mut Report,
    rt: &R,
    alloc: Global,
    world: &MemWorld,
    disk: &Minidisk,
) {
    into.push('[');
    push_letters(into, disk);
    write!(into, "] {} [", world.events());
    push_left(into, rt, alloc, world, world.events(), u64::MAX);
    into.push(']')
}

// Adds what is told of a world and its minidisk.
fn push_told<R: Abort>(
    into: &mut Report,
    rt: &R,
    alloc: Global,
    world: &MemWorld,
    case: &str,
    disk: &Minidisk,
) {
    let (at, choice) = (number(word(case, 3)), number(word(case, 4)));
    match word(case, 0) {
        "seen" => push_seen(into, rt, alloc, world, disk),
        "dated" => push_dated(into, rt, alloc, world),
        "crash" => push_left(into, rt, alloc, world, at as usize, u64::from(choice)),
        _ => push_changed(into, rt, alloc, world, disk),
    }
}

// The call that stands so many before the last one of an access and of what is asked then.
fn call_back<R: Abort>(rt: &R, alloc: Global, image: &[u8], asked: &Asked, back: u32) -> u32 {
    let mut world = world_with(alloc, image, 0, false).expect(rt, "memory");
    drop(changed(alloc, &mut world, Access::ReadWrite, asked));
    let calls = world.calls().len().min(1000) as u32;
    drop(world);
    calls.saturating_sub(back)
}

// What is answered on an image.
fn tell_on<R: Abort>(
    into: &mut Report,
    rt: &R,
    alloc: Global,
    image: &[u8],
    case: &str,
    asked: &Asked,
) {
    let failing = match word(case, 0) {
        "failing" => call_back(rt, alloc, image, asked, number(word(case, 3))),
        _ => 0,
    };
    let lands = word(case, 4) == "landed";
    let mut world = world_with(alloc, image, failing, lands).expect(rt, "memory");
    match changed(alloc, &mut world, access_of(word(case, 0)), asked) {
        Some((answer, disk)) => {
            write!(into, "{answer:?} ");
            push_told(into, rt, alloc, &world, case, &disk);
            drop(disk)
        }
        None => into.push_str("no minidisk"),
    }
    drop(world)
}

/// Tells what a case comes to.
pub fn tell<R: Abort>(into: &mut Report, rt: &R, alloc: Global, case: &str) {
    let Some(asked) = asked_by(word(case, 2)) else {
        return into.push_str("nothing is asked");
    };
    let mut image = image_named(alloc, word(case, 1)).expect(rt, "memory");
    if word(case, 0) == "dated" {
        put_texts(image.as_mut_slice(), word(case, 3));
    }
    tell_on(into, rt, alloc, &image, case, &asked)
}
