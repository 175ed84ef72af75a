// The lines of disks.
ghost use Rattle.std.specs.Prelude.{◌≡◌, ◌∷◌, ◌++◌, ◌-◌, ◌==◌, ◌&&◌, ◌≤◌, not, if◌then◌else◌, [], IfOk, OnOk};
ghost use Rattle.cms_text.specs.Numbers.{decimal_of};
ghost use Rattle.cms_model.specs.Acts.{Done};
ghost use Rattle.cms_search.specs.Calls.{Does, said};
ghost use Rattle.cms_search.specs.Machine.{typing};
ghost use Rattle.cms_search.specs.Searches.{item_at};
ghost use Rattle.cms_search.specs.Texts.{device_text, left_in, letter_text, right_in, spaced};
ghost use Rattle.cms_search.specs.Tables.{Seated};
ghost use Rattle.cms_world.specs.Seen.{seen};
ghost use Rattle.cms_access.specs.Query as spec;
ghost use Rattle.cms_access.specs.Shown.{count_seen, lines_from, seat_lines, seat_text};

use cms_disk::{Minidisk, Space};
use cms_operands::coded;
use cms_search::{
    AccessTable, End, LETTERS, Seat, add_left, add_right, device_text, first_column, letter_text,
    say,
};
use cms_text::{STROKE, decimal};
use cms_world::World;
use std::alloc::{AllocError, Global};

/// What is told of a disk.
#[derive(Clone, Copy)]
pub enum Shown {
    /// its room
    Disk,
    /// how it is searched
    Search,
}

// Whether a disk may be written.
fn status(read_only: bool) -> [u8; 3]
    ensures { result ≡ spec.status read_only }
{
    if read_only {
        coded(b"R/O")
    } else {
        coded(b"R/W")
    }
}

// 1 for a file that is seen.
fn weight(read_only: bool, number: u8) -> u32
    ensures is { result ≡ (if not (read_only && (number == 0)) then 1 else 0) }
    ensures small { result ≤ 1 }
{
    if read_only && number == 0 { 0 } else { 1 }
}

// How many files of a disk are seen.
fn count_seen(disk: &Minidisk, read_only: bool) -> u32
    ensures { result ≡ count_seen read_only disk.now.volume }
{
    let mut count = 0;
    for nth in 0..disk.count() {
        count += weight(read_only, disk.info(nth).number);
    }
    count
}

// Adds a blank, and a number at the right of so many places.
fn add_number(
    alloc: Global,
    line: &mut Vec<u8>,
    width: usize,
    number: u32,
) -> Result<(), AllocError>
    ensures { OnOk result (line.new.items
        ≡ line.old.items ++ 0x40 ∷ right_in width (decimal_of number)) }
{
    let digits = decimal(alloc, number)?;
    add_right(alloc, line, width, digits.bytes())
}

// The label and the device.
fn disk_head(alloc: Global, vdev: u16, volid: &[u8; 6]) -> Result<Vec<u8>, AllocError>
    ensures { IfOk result (λ line. line.items
        ≡ spaced (left_in 6 volid.now ∷ device_text vdev ∷ [])) }
{
    let mut line = first_column(alloc, 6, volid)?;
    add_left(alloc, &mut line, 3, &device_text(vdev))?;
    Ok(line)
}

// And the letter and the status.
fn disk_columns(
    alloc: Global,
    letter: u8,
    seat: &Seat,
    volid: &[u8; 6],
) -> Result<Vec<u8>, AllocError>
    ensures { IfOk result (λ line. line.items
        ≡ spaced (left_in 6 volid.now ∷ device_text seat.now.vdev ∷ letter_text letter
        ∷ spec.status seat.now.read_only ∷ [])) }
{
    let mut line = disk_head(alloc, seat.vdev, volid)?;
    add_left(alloc, &mut line, 1, &letter_text(letter))?;
    add_left(alloc, &mut line, 3, &status(seat.read_only))?;
    Ok(line)
}

// Adds the blocks that aren't free, that are free, and that there are.
fn add_blocks(alloc: Global, line: &mut Vec<u8>, space: &Space) -> Result<(), AllocError>
    ensures { OnOk result (line.new.items
        ≡ ((line.old.items ++ 0x40 ∷ right_in 8 (decimal_of (space.now.total - space.now.free)))
        ++ 0x40 ∷ right_in 8 (decimal_of space.now.free)) ++ 0x40 ∷ right_in 8
        (decimal_of space.now.total)) }
{
    add_number(alloc, line, 8, space.total.saturating_sub(space.free))?;
    add_number(alloc, line, 8, space.free)?;
    add_number(alloc, line, 8, space.total)
}

// The room of a disk.
fn disk_text(
    alloc: Global,
    letter: u8,
    seat: &Seat,
    space: &Space,
    files: u32,
) -> Result<Vec<u8>, AllocError>
    ensures { IfOk result (λ line. line.items
        ≡ spec.disk_text letter seat.now.vdev seat.now.read_only
        space.now.volid space.now.bsize files space.now.free space.now.total) }
{
    let mut line = disk_columns(alloc, letter, seat, &space.volid)?;
    add_number(alloc, &mut line, 5, space.bsize)?;
    add_number(alloc, &mut line, 6, files)?;
    add_blocks(alloc, &mut line, space)?;
    Ok(line)
}

// A letter, with the letter whose extension its disk is.
fn with_parent(alloc: Global, letter: u8, parent: Option<u8>) -> Result<Vec<u8>, AllocError>
    ensures { IfOk result (λ text. text.items ≡ spec.with_parent letter parent) }
{
    let mut text = Vec::new(alloc);
    text.extend_from_slice(&letter_text(letter))?;
    let Some(parent) = parent else {
        return Ok(text);
    };
    text.push(STROKE)?;
    text.extend_from_slice(&letter_text(parent))?;
    Ok(text)
}

// How a disk is searched.
fn search_text(
    alloc: Global,
    letter: u8,
    seat: &Seat,
    volid: &[u8; 6],
) -> Result<Vec<u8>, AllocError>
    ensures { IfOk result (λ line. line.items
        ≡ spec.search_text letter seat.now.vdev seat.now.parent seat.now.read_only volid.now) }
{
    let mut line = disk_head(alloc, seat.vdev, volid)?;
    add_left(
        alloc,
        &mut line,
        3,
        &with_parent(alloc, letter, seat.parent)?,
    )?;
    add_left(alloc, &mut line, 3, &status(seat.read_only))?;
    Ok(line)
}

// What is told of a letter's disk.
fn seat_text(
    alloc: Global,
    shown: Shown,
    letter: u8,
    seat: &Seat,
    disk: &Minidisk,
) -> Result<Vec<u8>, AllocError>
    ensures { (s : Seated) → s.letter.parent ≡ seat.now.parent
        → s.letter.read_only ≡ seat.now.read_only → s.disk ≡ disk.now
        → IfOk result (λ line. line.items ≡ seat_text shown letter seat.now.vdev s) }
{
    let space = disk.space();
    match shown {
        Shown::Disk => disk_text(
            alloc,
            letter,
            seat,
            &space,
            count_seen(disk, seat.read_only),
        ),
        Shown::Search => search_text(alloc, letter, seat, &space.volid),
    }
}

/// Types what is told of a letter's disk, nothing where it isn't accessed.
pub fn type_disk<W: World>(
    alloc: Global,
    world: &mut W,
    table: &AccessTable,
    shown: Shown,
    letter: u8,
) -> Result<(), End>
    ensures { Does (seen W.World world.old) (seen W.World world.new)
        (typing (seat_lines shown table.now letter) (Done tt)) result said }
{
    let Some(seat) = table.seat(letter) else {
        return Ok(());
    };
    let Some(disk) = table.disk(letter) else {
        return Ok(());
    };
    let line = seat_text(alloc, shown, letter, &seat, disk)?;
    say(world, &line)
}

/// Types what is told of all disks, A first.
pub fn type_disks<W: World>(
    alloc: Global,
    world: &mut W,
    table: &AccessTable,
    shown: Shown,
) -> Result<(), End>
    ensures { Does (seen W.World world.old) (seen W.World world.new)
        (typing (lines_from (λ n. seat_lines shown table.now n) 0 26) (Done tt)) result said }
{
    for letter in 0..LETTERS {
        type_disk(alloc, world, table, shown, letter as u8)?;
    }
    Ok(())
}
