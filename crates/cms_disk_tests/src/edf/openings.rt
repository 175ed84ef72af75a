// What opens, and what is asked of it.
use crate::edf::volumes::{open, push_state};
use cms_cases::{Report, number, word};
use cms_edf::{FileInfo, Held};
use cms_images::{START, calls_of, file_named, image_named, put_texts, world_with};
use cms_journal::BlockSize;
use cms_names::Format;
use cms_world::MemWorld;
use std::alloc::Global;
use std::process::Abort;

/// What is done or asked, and of which image; an image that doesn't open says why not.
///
/// - `changed`: bytes are put into the image. `cut`: it ends behind so many bytes. `failing`: this call of the world fails.
/// - `sizes`: the blocks, the files and the lost blocks. `state`: the volume id, the bytes of a block, the blocks, those that are free,
///   and the files. `find`: the place of a file.
/// - Of the first file `told`: whether it is as it should be told; `leaves`: its data blocks; `file`: the length of its longest record,
///   its stored bytes, its data blocks, its root, and the levels over these. `stored`: its stored bytes, by its place; `start`: where the
///   first record begins in its last data block. `root`: the root of a file by its name.
/// - `calls`: the letters of all calls of the world: each block is read once.
pub const ROWS: &str = "\
changed/one file/3 0 00 => Label(Id)
changed/one file/3 12 00 00 04 00 => Label(BlockSize)
changed/one file/3 16 00 00 00 06 => Label(Origin)
changed/one file/3 28 00 00 00 0A => Label(Count)
changed/one file/3 36 00 00 00 20 => Label(EntrySize)
changed/one file/5 48 00 00 00 01 => System(0)
changed/one file/5 96 00 00 01 00 => System(1)
changed/one file/5 128 00 => Entry(2, Name)
changed/one file/5 153 F7 => Entry(2, Mode)
changed/one file/5 158 40 => Entry(2, Format)
changed/one file/5 158 C6 00 00 00 00 00 => Entry(2, Length)
changed/one file/5 176 00 00 00 00 => Entry(2, Counts)
changed/one file/5 180 01 => Entry(2, Levels)
changed/one file/5 183 13 => Entry(2, Date)
changed/one file/5 172 00 00 00 02 => Entry(2, Levels)
changed/one file/5 168 00 00 00 00 => Pointer { holder: 5, value: 0 }
changed/one file/5 168 00 00 00 0A => Pointer { holder: 5, value: 10 }
changed/one file/5 168 00 00 00 08 => Crossed(8)
changed/one file/8 0 F9 => MapMissing(7)
changed/one file/7 0 00 00 => Var(2, Zero(0))
changed/one file/7 0 01 FF => Var(2, PastEnd(0))
changed/one file/5 48 00 00 00 04, 5 192 C1 40 40 40 40 40 40 40 C6 C9 D3 C5 40 40 40 40, \
5 216 C1 F1, 5 222 E5, 5 227 05, 5 235 07, 5 239 01, 5 243 01, 5 245 0C, 5 247 01 01 => Twice(3)
changed/spanning/4 181 04 => Entry(2, PointerSize)
changed/spanning/4 176 00 00 00 01 => Var(2, Left(511))
changed/spanning/4 176 00 00 00 03 => Var(2, Zero(516))
changed/spanning/8 0 00 => Var(2, Zero(511))
changed/spanning/7 511 02, 8 0 FF => Var(2, PastEnd(511))
changed/spanning/9 0 00 00 00 00 => Pointer { holder: 9, value: 0 }
changed/spanning/9 12 00 00 00 0D => Pointer { holder: 9, value: 13 }
changed/spanning/9 12 00 00 00 09 => Crossed(9)
changed/spanning/9 12 00 00 00 0A => MapMissing(10)
changed/long directory/4 40 00 00 00 03 => Pointer { holder: 4, value: 3 }
changed/long directory/7 0 00 00 00 08 => Pointer { holder: 7, value: 8 }
changed/long directory/4 104 00 00 00 11 => Pointer { holder: 4, value: 17 }
changed/long directory/8 40 00 00 00 00 => Pointer { holder: 8, value: 0 }
changed/long directory/8 0 C6 => Twice(8)
changed/long directory/8 40 00 00 00 07 => Crossed(7)
changed/long directory/6 0 FF BE => MapMissing(10)
changed/two files/4 232 00 00 00 07 => Crossed(7)
cut/one file/4096 => Label(Count)
cut/empty/2560 => Label(Count)
cut/empty/0 => Label(Count)
failing/spanning/2 => Device
failing/spanning/3 => Device
failing/spanning/4 => Device
failing/spanning/5 => Device
failing/spanning/6 => Device
failing/spanning/7 => Device
sizes/empty => (9, 0, 0)
sizes/one file => (9, 1, 0)
sizes/two files => (9, 2, 0)
sizes/full => (9, 1, 2)
sizes/long directory => (16, 7, 0)
state/empty => TEST01 (512, 9, 3, 0)
state/full => TEST01 (512, 9, 0, 1)
find/long directory/A => Some(0)
find/long directory/B => Some(1)
find/long directory/C => Some(2)
find/long directory/D => Some(3)
find/long directory/E => Some(4)
find/long directory/F => Some(5)
find/long directory/G => Some(6)
find/long directory/H => None
find/long directory/{ => None
told/spanning => true
leaves/spanning => [7, 8]
file/spanning => (509, 516, [7, 8], 9, 1)
stored/spanning => 516
stored/one file => 7
start/spanning => Some(4294967295)
start/one file => Some(0)
root/spanning/V => Some(9)
calls/spanning => arrrrrr";

// The length of the longest record, the stored bytes, the data blocks, the root, and the levels of the first file.
fn push_first(into: &mut Report, held: &Held) {
    if let Some((_, file)) = held.by_name().first() {
        let entry = file.entry();
        let (root, levels) = (entry.root, entry.levels);
        into.value(&(file.length(), file.size(), file.leaves(), root, levels))
    }
}

// Whether V FILE is told as the image has it, as the only file.
fn is_told(held: &Held) -> bool {
    let Some(name) = file_named("V") else {
        return false;
    };
    let wanted = FileInfo {
        name,
        number: 1,
        format: Format::V,
        length: 509,
        count: 2,
        blocks: 2,
        stamp: START,
    };
    held.count() == 1 && held.info(0) == wanted
}

fn push_leaves(into: &mut Report, held: &Held) {
    if held.count() > 0 {
        into.value(&held.leaves(0))
    }
}

// The stored bytes of the first file.
fn push_stored(into: &mut Report, held: &Held) {
    if held.count() > 0 {
        into.value(&held.stored(0))
    }
}

// Where the first record begins in the last data block of the first file.
fn first_start(held: &Held) -> Option<u32> {
    let (_, file) = held.by_name().first()?;
    Some(file.start())
}

// The place of a file by its name.
fn place_of(held: &Held, letter: &str) -> Option<u32> {
    held.find(&file_named(letter)?)
}

// The root of a file by its name.
fn root_of(held: &Held, letter: &str) -> Option<u32> {
    let name = file_named(letter)?;
    let file = held.by_name().get(&name)?;
    Some(file.entry().root)
}

// What is asked of a volume that opened in a world.
fn push_asked(into: &mut Report, case: &str, held: &Held, world: &MemWorld) {
    match word(case, 0) {
        "sizes" => into.value(&(held.space().total, held.count(), held.lost())),
        "state" => push_state(into, held),
        "find" => into.value(&place_of(held, word(case, 2))),
        "told" => into.value(&is_told(held)),
        "leaves" => push_leaves(into, held),
        "file" => push_first(into, held),
        "stored" => push_stored(into, held),
        "start" => into.value(&first_start(held)),
        "root" => into.value(&root_of(held, word(case, 2))),
        "calls" => into.push_str(calls_of(world)),
        _ => into.push_str("it opens"),
    }
}

// The world of a case.
fn world_of<R: Abort>(rt: &R, alloc: Global, case: &str) -> MemWorld {
    let mut image = image_named(alloc, word(case, 1)).expect(rt, "memory");
    let mut failing = 0;
    match word(case, 0) {
        "changed" => put_texts(image.as_mut_slice(), word(case, 2)),
        "cut" => image.truncate(number(word(case, 2)) as usize),
        "failing" => failing = number(word(case, 2)),
        _ => {}
    }
    world_with(alloc, &image, failing, false).expect(rt, "memory")
}

/// Tells what a case comes to.
pub fn tell<R: Abort>(into: &mut Report, rt: &R, alloc: Global, case: &str) {
    let mut world = world_of(rt, alloc, case);
    match open(alloc, &mut world, BlockSize::new(512)) {
        Ok(held) => {
            push_asked(into, case, &held, &world);
            drop(held)
        }
        Err(fault) => into.value(&fault),
    }
    drop(world)
}
