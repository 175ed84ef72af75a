// Updates that keep blocks of the volume before: what they read, write, give back and keep.
ghost use Rattle.std.specs.Prelude.{◌≡◌, IfOk, IsTrue};
ghost use Rattle.cms_names.specs.declared.name.Format.TheVariants.{F};
ghost use Rattle.cms_model.specs.Records.{IsValid};

use crate::cases::word_of;
use crate::disk::minidisk;
use crate::filed::volume_of;
use cms_cases::{Report, number, word};
use cms_disk::{DiskFault, FileData, FileInfo, Minidisk};
use cms_fields::Stamp;
use cms_images::{Disk, Event, file_named, put_texts, world_of};
use cms_names::{Format, Name};
use cms_world::Access;
use std::alloc::Global;
use std::process::Abort;

/// How many blocks a volume has, its files, bytes that are changed in it then, and an update of it, with files by their places: `add 0 1`
/// adds the records of the second file to the first, and `unread 0 1` does so in a world whose next read fails; `put 0` puts the first
/// one's records as Z FILE. Then the answer, how many blocks were read, those that were written in their order with `s` for each sync, how
/// many are free, and what a crash leaves at any moment, where all or none of what isn't synced is written. Where there are a block, a
/// place in it and a number behind a stroke, so many bytes that stand there then.
///
/// The volumes are those of `volume_of`, whose blocks are taken in order: block 4 and from block 6 on the map, the directory, the files.
/// Behind an addition the file must have the bytes of both, else `other bytes` is told.
pub const ROWS: &str = "\
321/F 512*300, F 512/-/add 0 1 => Ok(()) 2 read, 312-315 5 s 3 s, 9 free, old or new
314/F 512*300, F 512/-/add 0 1 => Err(Full { need: 4, free: 3 }) 0 read, 3 free, old
314/F 512*300, F 512/-/unread 0 1 => Err(Full { need: 4, free: 3 }) 0 read, 3 free, old
321/F 512*300, F 512/-/unread 0 1 => Err(Device) 1 read, 10 free, old
142/F 512*128, F 512/-/add 0 1/139 0 8 => Ok(()) 0 read, 137-140 5 s 3 s, 3 free, old or new, [0, 0, 0, 135, 0, 0, 0, 138]
12/F 80, F 80/-/add 0 1 => Ok(()) 1 read, 9-10 5 s 3 s, 4 free, old or new
14/F 512, F 512/-/add 0 1/10 0 8 => Ok(()) 0 read, 9-11 5 s 3 s, 4 free, old or new, [0, 0, 0, 7, 0, 0, 0, 9]
16/F 1*1023, F 1/-/add 0 1/12 0 12 => Ok(()) 2 read, 11-13 5 s 3 s, 6 free, old or new, [0, 0, 0, 7, 0, 0, 0, 11, 0, 0, 0, 0]
56/V 21502, V 3/-/add 0 1/53 0 24 => Ok(()) 0 read, 51-54 5 s 3 s, 3 free, old or new, \
[0, 0, 0, 49, 0, 0, 0, 1, 0, 0, 0, 0, 0, 0, 0, 52, 0, 0, 0, 2, 0, 0, 0, 0]
14/V 510, V 3/-/add 0 1/10 0 24 => Ok(()) 0 read, 9-11 5 s 3 s, 4 free, old or new, \
[0, 0, 0, 7, 0, 0, 0, 1, 0, 0, 0, 0, 0, 0, 0, 9, 0, 0, 0, 2, 0, 0, 0, 0]
14/V 509, V 5/-/add 0 1/11 0 24 => Ok(()) 1 read, 9-12 5 s 3 s, 4 free, old or new, \
[0, 0, 0, 9, 0, 0, 0, 2, 0, 0, 0, 0, 0, 0, 0, 10, 0, 0, 0, 2, 255, 255, 255, 255]
18/V 510 509, V 5/9 4 DE AD BE EF 11 22 33 44, 9 16 AA AA AA AA BB BB BB BB/add 0 1/13 0 36 => \
Ok(()) 2 read, 11-14 5 s 3 s, 7 free, old or new, [0, 0, 0, 7, 222, 173, 190, 239, 17, 34, 51, 68, \
0, 0, 0, 11, 0, 0, 0, 3, 0, 0, 0, 0, 0, 0, 0, 12, 0, 0, 0, 3, 255, 255, 255, 255]
18/V 1300, V 3/-/add 0 1/13 0 36 => Ok(()) 2 read, 12-14 5 s 3 s, 7 free, old or new, \
[0, 0, 0, 7, 0, 0, 0, 1, 0, 0, 0, 0, 0, 0, 0, 8, 0, 0, 0, 1, 255, 255, 255, 255, 0, 0, 0, 12, 0, 0, 0, 2, 0, 0, 1, 22]
18/V 3, V 1300/-/add 0 1/15 0 36 => Ok(()) 1 read, 12-16 5 s 3 s, 4 free, old or new, \
[0, 0, 0, 12, 0, 0, 0, 2, 0, 0, 0, 0, 0, 0, 0, 13, 0, 0, 0, 2, 255, 255, 255, 255, 0, 0, 0, 14, 0, 0, 0, 2, 255, 255, 255, 255]
60/V 21502 510, V 3/52 4 A1 A2 A3 A4 A5 A6 A7 A8, 52 16 B1 B2 B3 B4 B5 B6 B7 B8, 51 4 C1 C2 C3 C4 C5 C6 C7 C8/add 0 1/56 0 24 => \
Ok(()) 2 read, 54-57 5 s 3 s, 6 free, old or new, \
[0, 0, 0, 50, 161, 162, 163, 164, 165, 166, 167, 168, 0, 0, 0, 55, 0, 0, 0, 3, 181, 182, 183, 184]
60/V 21502 510, V 3/52 4 A1 A2 A3 A4 A5 A6 A7 A8, 52 16 B1 B2 B3 B4 B5 B6 B7 B8, 51 4 C1 C2 C3 C4 C5 C6 C7 C8/add 0 1/55 0 24 => \
Ok(()) 2 read, 54-57 5 s 3 s, 6 free, old or new, \
[0, 0, 0, 49, 193, 194, 195, 196, 197, 198, 199, 200, 0, 0, 0, 54, 0, 0, 0, 3, 0, 0, 0, 0]
100/V 15358, V 10238/-/add 0 1/81 0 24 => Ok(()) 1 read, 59-70 79 71-78 80-82 5 s 3 s, 20 free, old or new, \
[0, 0, 0, 79, 0, 0, 0, 2, 0, 0, 0, 0, 0, 0, 0, 80, 0, 0, 0, 2, 255, 255, 255, 255]
100/V 21502/-/add 0 0/92 0 24 => Ok(()) 0 read, 50-94 5 s 3 s, 7 free, old or new, \
[0, 0, 0, 50, 0, 0, 0, 2, 0, 0, 0, 0, 0, 0, 0, 51, 0, 0, 0, 2, 255, 255, 255, 255]
30/{V 5, *15}V 5/-/add 7 0/28 0 12 => Ok(()) 1 read, 26-29 5 s 3 s, 5 free, old or new, [0, 0, 0, 5, 0, 0, 0, 27, 0, 0, 0, 8]
28/{V 5, *15}V 5/8 16 11 22 33 44, 8 128 DE AD BE EF/erase 0/26 16 4 => Ok(()) 0 read, 26-28 5 s 3 s, 4 free, old or new, [0, 0, 0, 0]
28/{V 5, *15}V 5/8 16 11 22 33 44, 8 128 DE AD BE EF/erase 0/26 64 4 => Ok(()) 0 read, 26-28 5 s 3 s, 4 free, old or new, [0, 0, 0, 0]
27/{V 5, *15}V 5/-/erase 0 => Err(Full { need: 3, free: 2 }) 0 read, 2 free, old
28/{V 5, *15}V 5/8 16 11 22 33 44, 8 128 DE AD BE EF/rename 0/26 0 12 => Ok(()) 0 read, 26-27 5 s 3 s, 3 free, old or new, \
[0, 0, 0, 5, 0, 0, 0, 7, 0, 0, 0, 8]
20/{V 5, *5}V 5/-/put 0/15 0 8 => Ok(()) 0 read, 13-16 5 s 3 s, 5 free, old or new, [0, 0, 0, 5, 0, 0, 0, 14]
20/{V 5, *6}V 5/-/erase 6 => Ok(()) 0 read, 16 5 s 3 s, 8 free, old or new
20/V 5/-/rename 0 => Ok(()) 0 read, 5 s 3 s, 13 free, old or new
7/V 5/-/rename 0 => Err(Full { need: 1, free: 0 }) 0 read, 0 free, old
1180/{F 5, *1030}F 5/-/erase 0/1171 0 8 => Ok(()) 0 read, 1170-1173 5 s 3 s, 13 free, old or new, [0, 0, 0, 134, 0, 0, 0, 0]
1180/{F 5, *1030}F 5/-/rename 0/1171 0 8 => Ok(()) 0 read, 1170-1172 5 s 3 s, 11 free, old or new, [0, 0, 4, 146, 0, 0, 0, 137]
8200/V 5/6 1 C3{ FF*510}, 8 100 DE AD/put 0/14 0 12 => Ok(()) 0 read, 11-14 5 s 3 s, 4107 free, old or new, \
[0, 0, 0, 12, 0, 0, 0, 13, 0, 0, 0, 8]";

// Two seconds after the start of the year 2000.
const WRITTEN: Stamp = Stamp {
    year: 2000,
    month: 1,
    day: 1,
    hour: 0,
    minute: 0,
    second: 2,
};

// The file of a place.
fn file_at(
    alloc: Global,
    world: &mut Disk,
    disk: &Minidisk,
    place: u32,
) -> Result<FileData, DiskFault>
    ensures valid { IfOk result IsValid }
{
    if place >= disk.count() {
        return Err(DiskFault::NotFound);
    }
    disk.get(alloc, world, &disk.info(place).name)
}

// Whether the records may stand behind those of a file.
fn may_follow(info: &FileInfo, more: &FileData) -> bool
    ensures { IsTrue result → (more.now.format ≡ info.now.format)
        × (info.now.format ≡ F → more.now.length ≡ info.now.length) }
{
    match (info.format, more.format) {
        (Format::F, Format::F) => info.length == more.length,
        (Format::V, Format::V) => true,
        _ => false,
    }
}

// Adds records to the file of a name.
#[tactic(auto, unfolding(cms_fields::specs::Stamps::is_stamp, cms_fields::specs::Stamps::days_of_month))]
fn add(
    alloc: Global,
    world: &mut Disk,
    disk: &mut Minidisk,
    name: &Name,
    more: &FileData,
) -> Result<(), DiskFault>
    requires { IsValid more.now }
{
    let Some(place) = disk.find(name) else {
        return Err(DiskFault::NotFound);
    };
    if place >= disk.count() {
        return Err(DiskFault::NotFound);
    }
    let info = disk.info(place);
    if !may_follow(&info, more) {
        return Err(DiskFault::NotFound);
    }
    disk.append(alloc, world, name, more, &WRITTEN)
}

// Puts a file under a name.
#[tactic(auto, unfolding(cms_fields::specs::Stamps::is_stamp, cms_fields::specs::Stamps::days_of_month))]
fn put(
    alloc: Global,
    world: &mut Disk,
    disk: &mut Minidisk,
    name: &Name,
    file: &FileData,
) -> Result<(), DiskFault>
    requires { IsValid file.now }
{
    disk.put(alloc, world, name, file, &WRITTEN)
}

// Erases the file of a name, or renames it to Z FILE.
#[tactic(auto, unfolding(cms_fields::specs::Stamps::is_stamp, cms_fields::specs::Stamps::days_of_month))]
fn alter(
    alloc: Global,
    world: &mut Disk,
    disk: &mut Minidisk,
    name: &Name,
    to: Option<Name>,
) -> Result<(), DiskFault> {
    match to {
        Some(to) => disk.rename(alloc, world, name, &to, 1, &WRITTEN),
        None => disk.erase(alloc, world, name, &WRITTEN),
    }
}

// The answer to an update, how many blocks it read, and whether the file then has the bytes that it must have.
#[derive(Drop)]
struct Done {
    answer: Result<(), DiskFault>,
    reads: usize,
    is_whole: bool,
}

// Whether the file of a name has the bytes of two files, one behind the other.
fn has_both(
    alloc: Global,
    world: &mut Disk,
    disk: &Minidisk,
    name: &Name,
    old: &FileData,
    more: &FileData,
) -> bool {
    let (front, back) = (old.bytes.bytes(), more.bytes.bytes());
    match disk.get(alloc, world, name) {
        Ok(file) => {
            let bytes = file.bytes.bytes();
            let long = front.len().saturating_add(back.len());
            bytes.len() == long && bytes.starts_with(front) && bytes.ends_with(back)
        }
        Err(_) => false,
    }
}

// How often a world was synced.
fn syncs(world: &Disk) -> usize {
    let mut count = 0usize;
    for event in world.events() {
        if let Event::Synced = event {
            count = count.saturating_add(1);
        }
    }
    count
}

// Adds records to the file of a name, or does with it what else is asked.
fn answer_to(
    alloc: Global,
    world: &mut Disk,
    disk: &mut Minidisk,
    asked: &str,
    name: &Name,
    more: &FileData,
) -> Result<(), DiskFault>
    requires { IsValid more.now }
{
    let new = file_named("Z").ok_or(DiskFault::NotFound)?;
    match asked {
        "erase" => alter(alloc, world, disk, name, None),
        "rename" => alter(alloc, world, disk, name, Some(new)),
        "put" => put(alloc, world, disk, &new, more),
        _ => add(alloc, world, disk, name, more),
    }
}

// Does with the file of a place, and perhaps the records of another, what is asked.
fn change_file(
    alloc: Global,
    world: &mut Disk,
    disk: &mut Minidisk,
    asked: &str,
    place: u32,
    old: &FileData,
    more: &FileData,
) -> Result<Done, DiskFault>
    requires { IsValid more.now }
{
    if place >= disk.count() {
        return Err(DiskFault::NotFound);
    }
    let name = disk.info(place).name;
    let before = world.calls;
    if asked == "unread" {
        world.failing = before.saturating_add(1);
    }
    let answer = answer_to(alloc, world, disk, asked, &name, more);
    let calls = world.calls.saturating_sub(before);
    let reads = calls.saturating_sub(syncs(world));
    let is_whole = asked != "add"
        || answer.is_err()
        || has_both(alloc, world, disk, &name, old, more);
    Ok(Done {
        answer,
        reads,
        is_whole,
    })
}

// The same of the files of two places.
fn change(
    alloc: Global,
    world: &mut Disk,
    disk: &mut Minidisk,
    asked: &str,
    place: u32,
    other: u32,
) -> Result<Done, DiskFault> {
    let old = file_at(alloc, world, disk, place)?;
    let more = file_at(alloc, world, disk, other)?;
    change_file(alloc, world, disk, asked, place, &old, &more)
}

// Adds the blocks from one to another; there are none where that is 0.
fn push_run(into: &mut Report, first: u32, last: u32) {
    match last {
        0 => {}
        _ if first == last => write!(into, " {first}"),
        _ => write!(into, " {first}-{last}"),
    }
}

// The blocks that follow one another up to this one. If it doesn't follow them they are added, and `s` where it is 0, a sync.
fn next_run(into: &mut Report, (first, last): (u32, u32), block: u32) -> (u32, u32) {
    if last > 0 && block == last.saturating_add(1) {
        return (first, block);
    }
    push_run(into, first, last);
    into.push_str(if block == 0 { " s" } else { "" });
    (block, block)
}

// Adds the blocks that were written, in order, with `s` for each sync; those that follow one another as the first and the last. A comma
// stands before the first.
fn push_written(into: &mut Report, events: &[Event]) {
    if !events.is_empty() {
        into.push(',');
    }
    let mut run = (0, 0);
    for event in events {
        let block = match event {
            Event::Wrote { block, .. } => *block,
            Event::Synced => 0,
        };
        run = next_run(into, run, block);
    }
}

// How many files a minidisk has, how many blocks are free, the stored bytes of the first file, and whether there is Z FILE.
fn push_state_of(into: &mut Report, disk: &Minidisk) {
    let stored = if disk.count() > 0 { disk.stored(0) } else { 0 };
    let has_new = file_named("Z").map_or(false, |name| disk.has(&name));
    into.value(&(disk.count(), disk.space().free, stored, has_new))
}

// What an image opens as: how many files it has, how many blocks are free, the stored bytes of the first file, and whether there is Z FILE.
fn state(alloc: Global, image: Vec<u8>) -> Report {
    let mut state = Report::new(alloc);
    let mut world = world_of(image);
    match minidisk(alloc, &mut world, Access::ReadOnly) {
        Ok(disk) => {
            push_state_of(&mut state, &disk);
            drop(disk)
        }
        Err(fault) => state.value(&fault),
    }
    drop(world);
    state
}

// From so many bytes on only the crashes are looked at that come with the label's write.
const LARGE: usize = 400 * 512;

// Whether a crash behind so many events, with all that was written or no more than what was synced, leaves what is wanted.
fn is_left<R: Abort>(
    rt: &R,
    alloc: Global,
    world: &Disk,
    at: usize,
    all: bool,
    wanted: &str,
) -> bool {
    let left = world.crash(alloc, at, all).expect(rt, "memory");
    state(alloc, left).text() == wanted
}

// Whether a crash behind so many events leaves what stood before, or once the label is written what stands then.
fn is_old_or_new<R: Abort>(
    rt: &R,
    alloc: Global,
    world: &Disk,
    at: usize,
    (old, new): (&str, &str),
) -> bool {
    let count = world.events().len();
    let synced = if at == count { new } else { old };
    let written = if at.saturating_add(1) >= count {
        new
    } else {
        old
    };
    is_left(rt, alloc, world, at, false, synced) && is_left(rt, alloc, world, at, true, written)
}

// Adds whether each crash from so many events on leaves the old or the new.
fn push_crashes<R: Abort>(
    into: &mut Report,
    rt: &R,
    alloc: Global,
    world: &Disk,
    first: usize,
    (old, new): (&str, &str),
) {
    for at in first..world.events().len().saturating_add(1) {
        if !is_old_or_new(rt, alloc, world, at, (old, new)) {
            return write!(into, "behind {at} neither {old} nor {new}");
        }
    }
    into.push_str("old or new")
}

// The same from the first event on, or in a large image from the one before the last.
fn push_left<R: Abort>(into: &mut Report, rt: &R, alloc: Global, world: &Disk) {
    let count = world.events().len();
    if count == 0 {
        return into.push_str("old");
    }
    let old = state(alloc, world.crash(alloc, 0, false).expect(rt, "memory"));
    let new = state(alloc, world.image.to_vec(alloc).expect(rt, "memory"));
    let is_large = world.image.len() > LARGE;
    let first = if is_large { count.saturating_sub(1) } else { 0 };
    push_crashes(into, rt, alloc, world, first, (old.text(), new.text()))
}

// So many bytes that stand at a place of a block.
fn bytes_at<'a>(image: &'a [u8], text: &str) -> &'a [u8] {
    let block = number(word_of(text, 0)) as usize;
    let at = number(word_of(text, 1)) as usize;
    let count = number(word_of(text, 2)) as usize;
    let start = block
        .saturating_sub(1)
        .saturating_mul(512)
        .saturating_add(at);
    image.get(start..start.saturating_add(count)).unwrap_or(&[])
}

// Adds the answer, how many blocks were read, those that were written, and how many are free.
fn push_front(into: &mut Report, world: &Disk, disk: &Minidisk, done: &Done) {
    write!(into, "{:?} {} read", &done.answer, done.reads);
    push_written(into, world.events());
    let other = if done.is_whole { "" } else { ", other bytes" };
    write!(into, ", {} free{other}, ", disk.space().free)
}

// Adds what is told of an update.
fn push_done<R: Abort>(
    into: &mut Report,
    rt: &R,
    alloc: Global,
    world: &Disk,
    disk: &Minidisk,
    done: &Done,
    look: &str,
) {
    push_front(into, world, disk, done);
    push_left(into, rt, alloc, world);
    if !look.is_empty() {
        write!(into, ", {:?}", bytes_at(&world.image, look))
    }
}

// Does with a minidisk what is asked, and tells what comes of it.
fn tell_asked<R: Abort>(
    into: &mut Report,
    rt: &R,
    alloc: Global,
    world: &mut Disk,
    disk: &mut Minidisk,
    case: &str,
) {
    let text = word(case, 3);
    let asked = word_of(text, 0);
    let place = number(word_of(text, 1));
    let other = match word_of(text, 2) {
        "" => place,
        other => number(other),
    };
    match change(alloc, world, disk, asked, place, other) {
        Ok(done) => push_done(into, rt, alloc, world, disk, &done, word(case, 4)),
        Err(fault) => into.value(&fault),
    }
}

/// Tells what a case comes to.
pub fn tell<R: Abort>(into: &mut Report, rt: &R, alloc: Global, case: &str) {
    let blocks = number(word(case, 0)).min(10_000);
    let mut image = volume_of(rt, alloc, blocks, word(case, 1));
    put_texts(image.as_mut_slice(), word(case, 2));
    let mut world = Disk::logged(alloc, &image).expect(rt, "memory");
    match minidisk(alloc, &mut world, Access::ReadWrite) {
        Ok(mut disk) => {
            tell_asked(into, rt, alloc, &mut world, &mut disk, case);
            drop(disk)
        }
        Err(fault) => into.value(&fault),
    }
    drop(world)
}
