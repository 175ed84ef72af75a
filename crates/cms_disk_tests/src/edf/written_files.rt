// What is written for files whose records come one after another, and what a crash leaves.
ghost use Rattle.std.specs.Prelude.{◌≡◌, ◌≤◌, ◌∷◌, [], length, IfSome, OnSome};
ghost use Rattle.cms_model.specs.Records.{Fits, stored};
ghost use Rattle.cms_edf.specs.FileDrafts.{CanDraft, IsSomeDraft};
ghost use Rattle.cms_held.specs.HeldVolumes.{HeldVolume};

use crate::edf::drafts::shaped;
use crate::edf::volumes::{push_opened, volume_on};
use cms_cases::Report;
use cms_edf::{Change, Draft, DraftShape, Held, carry_out, commit, plan, plan_draft};
use cms_images::known::put_number;
use cms_images::{Disk, Event, Made, NOON, file_named, formatted, image_named};
use cms_journal::BlockSize;
use cms_names::{Format, Name};
use std::alloc::{AllocError, Global};
use std::process::Abort;

/// What is done with a volume, and what is asked then.
///
/// - `tree`: 129 records of 512 bytes are put into an empty volume: the blocks that are written up to the first sync, each row of one
///   behind another as its first and its last. A pointer block comes behind its leaves: data blocks 0 to 127, a pointer block, data block
///   128, a pointer block, the root, the map, the directory.
/// - `marks`: records of 509 and 3 bytes are put: the first 24 bytes of the pointer block, which say where records begin, and whether all
///   others are zeros.
/// - `move`: the stamps of all files of a directory of two blocks are moved: the blocks that are written up to the first sync. These are the
///   second one of the directory, its pointer block, the map, and the first one of the directory.
/// - `told`: a file goes, where the entry of each of sixteen files of varying records tells another length than that of its records. The
///   lengths that the entries tell then: in the two blocks of the directory that are written those of the records; the one between them
///   is kept as it was.
/// - What crashes leave where the tree of a file grows by a level, `grow`; where all that is free is taken, `fill`; and where the
///   directory shrinks to one data block, and has no pointer block, `shrink`. It is the volume as it was, or as it is since the label is
///   written.
pub const ROWS: &str = "\
tree => 7-134 136-136 135-135 137-139 5-5
marks => [0, 0, 0, 7, 0, 0, 0, 2, 0, 0, 0, 0, 0, 0, 0, 8, 0, 0, 0, 2, 255, 255, 255, 255] true
move => 16-18 5-5
told => 5 5 5 5 5 5 99 99 99 99 99 99 99 99 5
grow => the old volume or the new
fill => the old volume or the new
shrink => the old volume or the new";

// The image of an empty volume of so many blocks, of which the first six are in use.
fn empty_image(alloc: Global, total: u32) -> Result<Vec<u8>, AllocError> {
    let made = Made {
        bsize: 512,
        total,
        map: 1,
        pointers: 0,
    };
    formatted(alloc, &made)
}

// The bytes that a record takes in a file of this format and length, if it may have it.
fn stored_size(format: Format, long: u32, text: &[u8]) -> Option<u32>
    ensures fits { OnSome result (Fits format long text.now) }
    ensures size { IfSome result (λ n. n ≡ length (stored format (text.now ∷ []))) }
    ensures some { IfSome result (λ n. 1 ≤ n) }
{
    let size = text.len();
    match format {
        Format::F if 1 <= long && size == long as usize => Some(long),
        Format::V if 1 <= size && size <= 65_535 => Some(size as u32 + 2),
        _ => None,
    }
}

// Puts a record where it may be put.
fn put_text(world: &mut Disk, draft: &mut Draft, text: &[u8]) -> Option<()>
    ensures { (v : HeldVolume) → IsSomeDraft v draft.old → IsSomeDraft v draft.new }
{
    let shape = *draft.shape();
    let size = stored_size(shape.format, shape.length, text)?;
    if draft.records_left() == 0 || draft.bytes_left() < size {
        return None;
    }
    draft.put(world, text).ok()
}

// Puts the records of a file one after another, and makes it the volume's.
fn write_file(world: &mut Disk, held: &mut Held, draft: Draft, texts: &[&[u8]]) -> Option<()>
    requires draft { IsSomeDraft held.old.volume draft }
    requires room { 1 ≤ held.old.spare }
{
    let mut draft = draft;
    for text in texts {
        if put_text(world, &mut draft, text).is_none() {
            drop(draft);
            return None;
        }
    }
    if draft.records_left() > 0 || draft.bytes_left() > 0 {
        drop(draft);
        return None;
    }
    commit(world, held, draft).ok()
}

// The shape of a file with these records, of which none is longer than so many bytes, if it may have them.
fn shape_of(format: Format, length: u32, texts: &[&[u8]]) -> Option<DraftShape>
    ensures { IfSome result CanDraft }
{
    let mut bytes = 0_u64;
    for text in texts {
        bytes = bytes.saturating_add(u64::from(stored_size(format, length, text)?));
    }
    shaped(format, length, u32::try_from(texts.len()).ok()?, bytes)
}

// Puts a file of a shape with these records into a volume.
#[tactic(auto, unfolding(cms_fields::specs::Stamps::is_stamp, cms_fields::specs::Stamps::days_of_month))]
fn put_in(
    alloc: Global,
    world: &mut Disk,
    held: &mut Held,
    name: &Name,
    asked: &DraftShape,
    texts: &[&[u8]],
) -> Option<()>
    requires { CanDraft asked.now }
{
    let Ok(draft) = plan_draft(alloc, held, name, asked, &NOON) else {
        return None;
    };
    write_file(world, held, draft, texts)
}

// Puts a file with these records into the volume of a disk.
fn put_file(
    alloc: Global,
    world: &mut Disk,
    letter: &str,
    format: Format,
    length: u32,
    texts: &[&[u8]],
) -> Option<()> {
    let name = file_named(letter)?;
    let asked = shape_of(format, length, texts)?;
    let mut held = volume_on(alloc, world)?;
    let done = put_in(alloc, world, &mut held, &name, &asked, texts);
    drop(held);
    done
}

// Erases the file of a name in a volume.
#[tactic(auto, unfolding(cms_fields::specs::Stamps::is_stamp, cms_fields::specs::Stamps::days_of_month))]
fn drop_in(alloc: Global, world: &mut Disk, held: &mut Held, name: &Name) -> Option<()> {
    held.find(name)?;
    let change = Change::Drop { name };
    let Ok(made) = plan(alloc, held, &change, &NOON) else {
        return None;
    };
    carry_out(world, held, made).ok()
}

// Erases the file of a name on a disk.
fn drop_file(alloc: Global, world: &mut Disk, letter: &str) -> Option<()> {
    let name = file_named(letter)?;
    let mut held = volume_on(alloc, world)?;
    let done = drop_in(alloc, world, &mut held, &name);
    drop(held);
    done
}

// Moves the stamps of all files in a volume.
#[tactic(auto, unfolding(cms_fields::specs::Stamps::is_stamp, cms_fields::specs::Stamps::days_of_month))]
fn move_in(alloc: Global, world: &mut Disk, held: &mut Held) -> Option<()> {
    let change = Change::Century { pivot: 70 };
    let Ok(made) = plan(alloc, held, &change, &NOON) else {
        return None;
    };
    carry_out(world, held, made).ok()
}

// Moves the stamps of all files on a disk.
fn move_stamps(alloc: Global, world: &mut Disk) -> Option<()> {
    let mut held = volume_on(alloc, world)?;
    let done = move_in(alloc, world, &mut held);
    drop(held);
    done
}

// Adds the end of a row of blocks, if there was one, and the start of the next.
fn push_between(into: &mut Report, last: u32, block: u32) {
    if last == 0 {
        write!(into, "{block}-")
    } else {
        write!(into, "{last} {block}-")
    }
}

// Adds the blocks that are written up to the first sync, in rows.
fn push_written(into: &mut Report, events: &[Event]) {
    let mut last = 0_u32;
    for event in events {
        let Event::Wrote { block, .. } = event else {
            return write!(into, "{last}");
        };
        if *block != last.saturating_add(1) {
            push_between(into, last, *block);
        }
        last = *block;
    }
    write!(into, "{last}, and no sync")
}

// Adds the first 24 bytes of a block, and whether all others are zeros.
fn push_marks(into: &mut Report, image: &[u8], block: usize) {
    let start = block.saturating_sub(1).saturating_mul(512);
    let bytes = image.get(start..start.saturating_add(512)).unwrap_or(&[]);
    let first = bytes.get(..24).unwrap_or(&[]);
    let rest = bytes.get(24..).unwrap_or(&[]);
    let zeros = rest.len() == 488 && rest.iter().all(|byte| *byte == 0);
    write!(into, "{first:?} {zeros}")
}

// The number at a place of a block.
fn number_at(image: &[u8], block: u32, at: usize) -> Option<u32> {
    let start = (block as usize).saturating_sub(1).saturating_mul(512);
    let start = start.saturating_add(at);
    match image.get(start..start.saturating_add(4))? {
        [a, b, c, d] => Some(u32::from_be_bytes([*a, *b, *c, *d])),
        _ => None,
    }
}

// The length that the entry of a number tells, in a directory that has one level of pointers.
fn length_told(image: &[u8], number: usize) -> Option<u32> {
    let origin = number_at(image, 3, 16)?;
    let root = number_at(image, origin, 40)?;
    let leaf = number_at(image, root, number / 8 * 4)?;
    number_at(image, leaf, number % 8 * 64 + 32)
}

// Adds the lengths that the entries of so many files tell.
fn push_lengths(into: &mut Report, image: &[u8], files: usize) {
    for place in 0..files {
        if place > 0 {
            into.push(' ');
        }
        match length_told(image, place.saturating_add(2)) {
            Some(length) => into.value(&length),
            None => into.push('?'),
        }
    }
}

// Has the entries of sixteen files tell 99 as the length of their records.
fn put_lengths(image: &mut [u8]) {
    for number in 2..18_usize {
        let block = [4, 7, 8][number / 8];
        put_number(image, block, number % 8 * 64 + 32, 99);
    }
}

// The state of what opens in an image.
fn opened<R: Abort>(rt: &R, alloc: Global, image: &[u8]) -> Report {
    let mut state = Report::new(alloc);
    push_opened(&mut state, rt, alloc, image, BlockSize::new(512));
    state
}

// What a crash leaves after so many events: all that was written, or no more than what was synced.
fn left<R: Abort>(rt: &R, alloc: Global, world: &Disk, at: usize, all: bool) -> Report {
    let image = world.crash(alloc, at, all).expect(rt, "memory");
    opened(rt, alloc, &image)
}

// The first crash that leaves another volume than it should, if there is one.
fn wrong_crash<R: Abort>(
    rt: &R,
    alloc: Global,
    world: &Disk,
    old: &str,
    new: &str,
) -> Option<(usize, bool)> {
    let count = world.events().len();
    for at in 0..count.saturating_add(1) {
        for all in [false, true] {
            let is_new = at == count || all && at.saturating_add(1) == count;
            let wanted = if is_new { new } else { old };
            if left(rt, alloc, world, at, all).text() != wanted {
                return Some((at, all));
            }
        }
    }
    None
}

// Adds whether each crash leaves the old volume or the new one, where these are in other states.
fn push_wrong<R: Abort>(
    into: &mut Report,
    rt: &R,
    alloc: Global,
    world: &Disk,
    old: &str,
    new: &str,
) {
    if old == new || !old.starts_with("TEST01") || !new.starts_with("TEST01") {
        return write!(into, "{old} became {new}");
    }
    match wrong_crash(rt, alloc, world, old, new) {
        None => into.push_str("the old volume or the new"),
        Some(moment) => into.value(&moment),
    }
}

// The same of what stood before and what stands now.
fn push_crashes<R: Abort>(into: &mut Report, rt: &R, alloc: Global, world: &Disk) {
    let old = left(rt, alloc, world, 0, true);
    let new = opened(rt, alloc, &world.image);
    push_wrong(into, rt, alloc, world, old.text(), new.text())
}

const TEXT: &[u8] = &[0xC1; 512];

const LONG: &[u8] = &[0xC1; 509];

const SHORT: &[u8] = &[0xC1, 0xC2, 0xC3];

// The image of a case before the last change.
fn image_of(alloc: Global, case: &str) -> Result<Vec<u8>, AllocError> {
    match case {
        "tree" => empty_image(alloc, 200),
        "fill" => image_named(alloc, "one file"),
        "shrink" => image_named(alloc, "long directory"),
        "move" => image_named(alloc, "long directory on 20"),
        "told" => image_named(alloc, "sixteen files"),
        _ => empty_image(alloc, 20),
    }
}

// Its disk.
fn disk_of<R: Abort>(rt: &R, alloc: Global, case: &str) -> Disk {
    let mut image = image_of(alloc, case).expect(rt, "memory");
    if case == "told" {
        put_lengths(image.as_mut_slice());
    }
    Disk::logged(alloc, &image).expect(rt, "memory")
}

// Puts A FILE with a record of 512 bytes, and then, in a world that keeps this alone, with two of them.
fn grown(alloc: Global, world: &mut Disk) -> Option<()> {
    put_file(alloc, world, "A", Format::F, 512, &[TEXT])?;
    *world = Disk::logged(alloc, &world.image).ok()?;
    put_file(alloc, world, "A", Format::F, 512, &[TEXT; 2])
}

// The last change of a case.
fn changed(alloc: Global, world: &mut Disk, case: &str) -> Option<()> {
    match case {
        "tree" => put_file(alloc, world, "A", Format::F, 512, &[TEXT; 129]),
        "marks" => put_file(alloc, world, "V", Format::V, 509, &[LONG, SHORT]),
        "fill" => put_file(alloc, world, "B", Format::F, 512, &[TEXT]),
        "shrink" => drop_file(alloc, world, "G"),
        "move" => move_stamps(alloc, world),
        "told" => drop_file(alloc, world, "A"),
        _ => grown(alloc, world),
    }
}

// What is asked of a disk that was changed.
fn push_asked<R: Abort>(into: &mut Report, rt: &R, alloc: Global, world: &Disk, case: &str) {
    match case {
        "tree" | "move" => push_written(into, world.events()),
        "marks" => push_marks(into, &world.image, 9),
        "told" => push_lengths(into, &world.image, 15),
        _ => push_crashes(into, rt, alloc, world),
    }
}

/// Tells what a case comes to.
pub fn tell<R: Abort>(into: &mut Report, rt: &R, alloc: Global, case: &str) {
    let mut world = disk_of(rt, alloc, case);
    match changed(alloc, &mut world, case) {
        Some(()) => push_asked(into, rt, alloc, &world, case),
        None => into.push_str("not changed"),
    }
    drop(world)
}
