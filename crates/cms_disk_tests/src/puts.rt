// Files that are put into minidisks, and records that are added to them.
ghost use Rattle.std.specs.Prelude.{IfOk, IfSome};
ghost use Rattle.cms_model.specs.Records.{IsValid};

use crate::disk::{access_of, minidisk, push_letters};
use cms_cases::{Report, word};
use cms_disk::{DiskFault, FileData, Minidisk, Stored};
use cms_fields::Stamp;
use cms_images::{Disk, Event, START, file_named, image_named, world_of};
use cms_names::{Format, Name};
use cms_world::Access;
use std::alloc::{AllocError, Global};
use std::process::Abort;

/// Whether a file is put or its records are added to themselves, what the minidisk is accessed for, its image, the file that is put, and
/// the letters of the names that get it one after another: the answer to the last, the files, the free blocks, the blocks that were
/// written, the bytes of the last name's file, and whether the image is that of A FILE as a system would put it. What the longer file
/// needs may be all that is free, and an old file's block isn't free before the label is written.
///
/// Where it is accessed for `logged`: the answer, and the blocks that were written in their order, with `s` for each sync. Of the map of
/// 8,192 blocks one data block stays.
pub const ROWS: &str = "\
put/written/empty/hello/A => Ok(()) [A] 2 4 [0, 5, 200, 197, 211, 211, 214] true
put/written/empty/hello/A B => Ok(()) [AB] 1 8 [0, 5, 200, 197, 211, 211, 214] false
put/written/empty/blanks/A => Err(Full { need: 6, free: 3 }) [] 3 0 NotFound false
put/logged/new on 8192/hello/A => Ok(()) 9 10 11 5 s 3 s
put/read/empty/blanks/A => Err(ReadOnly) [] 3 0 NotFound false
put/written/two files/hello/B => Err(Full { need: 2, free: 1 }) [AB] 1 0 [0, 5, 200, 197, 211, 211, 214] false
add/written/one file/hello/A => Ok(()) [A] 2 4 [0, 5, 200, 197, 211, 211, 214, 0, 5, 200, 197, 211, 211, 214] false
add/read/one file/hello/A => Err(ReadOnly) [A] 2 0 [0, 5, 200, 197, 211, 211, 214] true
add/written/two files/hello/A => Err(Full { need: 2, free: 1 }) [AB] 1 0 [0, 5, 200, 197, 211, 211, 214] false";

// Two seconds after START.
const WRITTEN: Stamp = Stamp {
    year: 2000,
    month: 1,
    day: 1,
    hour: 0,
    minute: 0,
    second: 2,
};

// What is read of A FILE.
fn file_a(alloc: Global, world: &mut Disk) -> Option<FileData>
    ensures valid { IfSome result IsValid }
{
    let name = file_named("A")?;
    let Ok(disk) = minidisk(alloc, world, Access::ReadOnly) else {
        return None;
    };
    let file = disk.get(alloc, world, &name);
    drop(disk);
    match file {
        Ok(file) => Some(file),
        Err(_) => None,
    }
}

// A FILE, one record HELLO.
fn hello(alloc: Global) -> Option<FileData>
    ensures valid { IfSome result IsValid }
{
    let Ok(image) = image_named(alloc, "one file") else {
        return None;
    };
    let mut world = world_of(image);
    let file = file_a(alloc, &mut world);
    drop(world);
    file
}

// One record of 2,048 blanks.
fn blanks(alloc: Global) -> Result<FileData, AllocError>
    ensures valid { IfOk result IsValid }
{
    Ok(FileData {
        format: Format::F,
        length: 2048,
        number: 1,
        stamp: START,
        count: 1,
        bytes: Stored::take(vec![in alloc; 0x40; 2048]?),
    })
}

// The file of a word.
fn file_of(alloc: Global, word: &str) -> Option<FileData>
    ensures valid { IfSome result IsValid }
{
    match word {
        "hello" => hello(alloc),
        _ => blanks(alloc).ok(),
    }
}

// What putting a file comes to.
#[tactic(auto, unfolding(cms_fields::specs::Stamps::is_stamp, cms_fields::specs::Stamps::days_of_month))]
fn put_on(
    alloc: Global,
    world: &mut Disk,
    disk: &mut Minidisk,
    name: &Name,
    file: &FileData,
) -> Result<(), DiskFault>
    requires { IsValid file.now }
{
    disk.put(alloc, world, name, file, &WRITTEN)
}

// What adding the records of a file to itself comes to.
#[tactic(auto, unfolding(cms_fields::specs::Stamps::is_stamp, cms_fields::specs::Stamps::days_of_month))]
fn doubled_on(
    alloc: Global,
    world: &mut Disk,
    disk: &mut Minidisk,
    name: &Name,
) -> Result<(), DiskFault> {
    let more = disk.get(alloc, world, name)?;
    disk.append(alloc, world, name, &more, &WRITTEN)
}

// Puts a file under each name of a case, or adds the records to those of each file: the last answer.
fn all_on(
    alloc: Global,
    world: &mut Disk,
    disk: &mut Minidisk,
    case: &str,
    file: &FileData,
) -> Result<(), DiskFault>
    requires { IsValid file.now }
{
    for letter in word(case, 4).split(' ') {
        let Some(name) = file_named(letter) else {
            return Err(DiskFault::NotFound);
        };
        match word(case, 0) {
            "put" => put_on(alloc, world, disk, &name, file)?,
            _ => doubled_on(alloc, world, disk, &name)?,
        }
    }
    Ok(())
}

// Adds the bytes of the file of the last letter, or why there are none.
fn push_bytes(into: &mut Report, alloc: Global, world: &mut Disk, disk: &Minidisk, letters: &str) {
    let last = match letters.rsplit_once(' ') {
        Some((_, last)) => last,
        None => letters,
    };
    let Some(name) = file_named(last) else {
        return;
    };
    match disk.get(alloc, world, &name) {
        Ok(file) => into.value(&file.bytes.bytes()),
        Err(fault) => into.value(&fault),
    }
}

// Adds the files, the free blocks, the blocks that were written, the last file's bytes, and whether the image is that of A FILE as a system
// would put it.
fn push_told<R: Abort>(
    into: &mut Report,
    rt: &R,
    alloc: Global,
    world: &mut Disk,
    disk: &Minidisk,
    case: &str,
) {
    into.push_str(" [");
    push_letters(into, disk);
    write!(into, "] {} {} ", disk.space().free, world.writes);
    push_bytes(into, alloc, world, disk, word(case, 4));
    let one_file = image_named(alloc, "one file").expect(rt, "memory");
    write!(into, " {}", world.image == one_file)
}

// Adds the blocks that were written, in order, with `s` for each sync.
fn push_blocks(into: &mut Report, world: &Disk) {
    for event in world.events() {
        match event {
            Event::Wrote { block, .. } => write!(into, " {block}"),
            Event::Synced => into.push_str(" s"),
        }
    }
}

// What is done with a minidisk and a file.
fn tell_done<R: Abort>(
    into: &mut Report,
    rt: &R,
    alloc: Global,
    world: &mut Disk,
    disk: &mut Minidisk,
    case: &str,
    file: &FileData,
)
    requires { IsValid file.now }
{
    into.value(&all_on(alloc, world, disk, case, file));
    match word(case, 1) {
        "logged" => push_blocks(into, world),
        _ => push_told(into, rt, alloc, world, disk, case),
    }
}

// The same on the unit of a world, or why there is no minidisk.
fn tell_in<R: Abort>(
    into: &mut Report,
    rt: &R,
    alloc: Global,
    world: &mut Disk,
    case: &str,
    file: &FileData,
)
    requires { IsValid file.now }
{
    match minidisk(alloc, world, access_of(word(case, 1))) {
        Ok(mut disk) => {
            tell_done(into, rt, alloc, world, &mut disk, case, file);
            drop(disk)
        }
        Err(fault) => into.value(&fault),
    }
}

// The world of a case.
fn world_of_case<R: Abort>(rt: &R, alloc: Global, case: &str) -> Disk {
    let image = image_named(alloc, word(case, 2)).expect(rt, "memory");
    match word(case, 1) {
        "logged" => Disk::logged(alloc, &image).expect(rt, "memory"),
        _ => world_of(image),
    }
}

/// Tells what a case comes to.
pub fn tell<R: Abort>(into: &mut Report, rt: &R, alloc: Global, case: &str) {
    let mut world = world_of_case(rt, alloc, case);
    match file_of(alloc, word(case, 3)) {
        Some(file) => tell_in(into, rt, alloc, &mut world, case, &file),
        None => into.push_str("no file"),
    }
    drop(world)
}
