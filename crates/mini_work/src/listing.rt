// Files of an image are listed, and what the image is.
ghost use Rattle.std.specs.Prelude.{◌≡◌, [], ◌∷◌, ◌++◌, ℕ, map, IfOk, OnOk};
ghost use Rattle.cms_journal.specs.declared.event.Access.TheVariants.{ReadOnly};
ghost use Rattle.cms_edf.specs.FilesTold.{infos_in};
ghost use Rattle.cms_model.specs.Acts.{typed_line};
ghost use Rattle.cms_search.specs.Texts.{right_in, spaced};
ghost use Rattle.cms_text.specs.Numbers.{decimal_of};
ghost use Rattle.mini_work.specs.Causes.{HasEnd, counts, on_world};
ghost use Rattle.mini_work.specs.Changes.{IsTold};
ghost use Rattle.mini_work.specs.Checks.{IsShowing, Shows};
ghost use Rattle.mini_work.specs.CommandActs.{Continues, Goes};
ghost use Rattle.mini_work.specs.Commands.{IsListing, IsWorked};
ghost use Rattle.mini_work.specs.Listing as spec;
ghost use Rattle.mini_work.specs.Listing.{facts_text};
ghost use Rattle.mini_work.specs.OpenedImages.{HasRoom, IsNew};
ghost use Rattle.mini_work.specs.Output.{OnlyTypes};

use crate::chosen_files::{fits_any, names_of, refuse_idle};
use crate::fault::Fault;
use crate::opened_image::{open_disk, open_held};
use crate::output::{name_text, say_if, say_line};
use crate::status::Status;
use cms_disk::{FileInfo, Minidisk};
use cms_edf::Held;
use cms_fields::Stamp;
use cms_names::Format;
use cms_search::{add_left, add_right, first_column};
use cms_text::{BLANK, COLON, coded, decimal, ones, tens, without_trailing_blanks};
use cms_world::{Access, World};
use mini_host::Host;
use mini_words::{Image, NamePattern};
use std::alloc::{AllocError, Global};

// The hyphen of code page 037.
const HYPHEN: u8 = 0x60;

/// Lists the files of an image that any of the names fits, or all where there are no names, in the order of the directory.
pub(crate) fn list<W: World, H: Host>(
    alloc: Global,
    world: &mut W,
    host: &mut H,
    image: &Image,
    long: bool,
    names: &[NamePattern],
) -> Result<Status, Fault>
    requires room { HasRoom (W.told world.old) }
    ensures goes { IsNew (W.told world.old)
        → IsWorked image.now.name ReadOnly (IsListing long names.now) (W.told world.new) result }
    ensures cause { HasEnd (counts W.World H.Host world.old host.old)
        (counts W.World H.Host world.new host.new) result }
{
    match open_disk(alloc, world, host, image, Access::ReadOnly)? {
        Some(disk) => {
            let done = list_fitting(alloc, world, host, &disk, long, names);
            drop(disk);
            done
        }
        None => Ok(Status::Refused),
    }
}

// Lists the files of a minidisk that names fit, and says which names fit none.
fn list_fitting<W: World, H: Host>(
    alloc: Global,
    world: &mut W,
    host: &mut H,
    disk: &Minidisk,
    long: bool,
    names: &[NamePattern],
) -> Result<Status, Fault>
    ensures goes { Continues (IsListing long names.now) (W.told world.old) disk.now
        (W.told world.new) disk.now result }
    ensures cause { HasEnd (counts W.World H.Host world.old host.old)
        (counts W.World H.Host world.new host.new) result }
{
    let listed = list_files(alloc, world, disk, long, names)?;
    let all = names_of(alloc, disk)?;
    let idle = refuse_idle(alloc, host, &all, names)?;
    Ok(listed.and(idle))
}

// Lists the files of a minidisk.
fn list_files<W: World>(
    alloc: Global,
    world: &mut W,
    disk: &Minidisk,
    long: bool,
    names: &[NamePattern],
) -> Result<Status, Fault>
    ensures goes { Continues (Goes
        (λ info. IsTold (spec.is_listed names.now info) (typed_line (spec.file_line long info)))
        (infos_in disk.now.volume)) (W.told world.old) disk.now (W.told world.new) disk.now result }
    ensures cause { (n : ℕ) → HasEnd (on_world W.World world.old n)
        (on_world W.World world.new n) result }
{
    let mut status = Status::Done;
    for nth in 0..disk.count() {
        let info = disk.info(nth);
        let line = file_line(alloc, &info, long)?;
        let one = say_if(world, &line, is_listed(names, &info))?;
        status = status.and(one);
    }
    Ok(status)
}

// Whether a file is listed.
fn is_listed(names: &[NamePattern], info: &FileInfo) -> bool
    ensures { result ≡ spec.is_listed names.now info.now }
{
    names.is_empty() || fits_any(names, &info.name)
}

// The line of a file.
fn file_line(alloc: Global, info: &FileInfo, long: bool) -> Result<Vec<u8>, AllocError>
    ensures { IfOk result (λ line. line.items ≡ spec.file_line long info.now) }
{
    if long {
        long_line(alloc, info)
    } else {
        name_text(alloc, &info.name)
    }
}

// Its name, format, record length, records, data blocks, date and mode number.
fn long_line(alloc: Global, info: &FileInfo) -> Result<Vec<u8>, AllocError>
    ensures { IfOk result (λ line. line.items ≡ spaced (spec.columns info.now)) }
{
    let mut line = first_column(alloc, 17, &name_text(alloc, &info.name)?)?;
    add_columns(alloc, &mut line, info)?;
    Ok(line)
}

// Adds the columns behind a file's name.
fn add_columns(alloc: Global, line: &mut Vec<u8>, info: &FileInfo) -> Result<(), AllocError>
    ensures { OnOk result (line.new.items
        ≡ line.old.items ++ 0x40 ∷ spaced (spec.more_columns info.now)) }
{
    add_left(alloc, line, 1, &format_text(info.format))?;
    add_number(alloc, line, 5, info.length)?;
    add_number(alloc, line, 7, info.count)?;
    add_number(alloc, line, 8, info.blocks)?;
    add_left(alloc, line, 19, &stamp_text(&info.stamp))?;
    add_left(alloc, line, 1, &[ones(u16::from(info.number))])
}

// Adds a number to a line, at the right of a column.
fn add_number(
    alloc: Global,
    line: &mut Vec<u8>,
    width: usize,
    number: u32,
) -> Result<(), AllocError>
    ensures { OnOk result (line.new.items
        ≡ line.old.items ++ 0x40 ∷ right_in width (decimal_of number)) }
{
    add_right(alloc, line, width, decimal(alloc, number)?.bytes())
}

fn format_text(format: Format) -> [u8; 1]
    ensures { result ≡ spec.format_text format }
{
    match format {
        Format::F => coded(b"F"),
        Format::V => coded(b"V"),
    }
}

// YYYY-MM-DD HH:MM:SS
fn stamp_text(stamp: &Stamp) -> [u8; 19]
    ensures { result ≡ spec.stamp_text stamp.now }
{
    let month = u16::from(stamp.month);
    let day = u16::from(stamp.day);
    let hour = u16::from(stamp.hour);
    let minute = u16::from(stamp.minute);
    let second = u16::from(stamp.second);
    [
        tens(stamp.year / 100),
        ones(stamp.year / 100),
        tens(stamp.year),
        ones(stamp.year),
        HYPHEN,
        tens(month),
        ones(month),
        HYPHEN,
        tens(day),
        ones(day),
        BLANK,
        tens(hour),
        ones(hour),
        COLON,
        tens(minute),
        ones(minute),
        COLON,
        tens(second),
        ones(second),
    ]
}

/// Says the label of an image, its room and how many files it has.
pub(crate) fn info<W: World, H: Host>(
    alloc: Global,
    world: &mut W,
    host: &mut H,
    image: &Image,
) -> Result<Status, Fault>
    requires { HasRoom (W.told world.old) }
    ensures goes { IsNew (W.told world.old)
        → IsShowing image.now.name facts_text (W.told world.new) result }
    ensures cause { HasEnd (counts W.World H.Host world.old host.old)
        (counts W.World H.Host world.new host.new) result }
{
    match open_held(alloc, world, host, image)? {
        Some(held) => {
            let done = say_facts(alloc, world, &held);
            drop(held);
            done
        }
        None => Ok(Status::Refused),
    }
}

// Says a line for each fact.
fn say_facts<W: World>(alloc: Global, world: &mut W, held: &Held) -> Result<Status, Fault>
    ensures shows { Shows (W.told world.old) (W.told world.new)
        (facts_text held.now.volume) result }
    ensures typed { OnlyTypes (W.told world.old) (W.told world.new) }
    ensures cause { (n : ℕ) → HasEnd (on_world W.World world.old n)
        (on_world W.World world.new n) result }
{
    let lines = fact_lines(alloc, held)?;
    for line in &lines {
        say_line(world, line)?;
    }
    Ok(Status::Done)
}

// What is said of a volume.
fn fact_lines(alloc: Global, held: &Held) -> Result<Vec<Vec<u8>>, AllocError>
    ensures { IfOk result (λ lines. map (λ line. line.items) lines.items
        ≡ spec.facts held.now.volume) }
{
    let mut lines = Vec::new(alloc);
    add_facts(alloc, &mut lines, held)?;
    Ok(lines)
}

// Adds a line for each fact.
fn add_facts(alloc: Global, lines: &mut Vec<Vec<u8>>, held: &Held) -> Result<(), AllocError>
    ensures { OnOk result (map (λ line. line.items) lines.new.items
        ≡ map (λ line. line.items) lines.old.items ++ spec.facts held.now.volume) }
{
    let space = held.space();
    let used = space.total.saturating_sub(space.free);
    let label = without_trailing_blanks(&space.volid);
    add_fact(alloc, lines, &coded(b"label: "), label)?;
    add_count(alloc, lines, &coded(b"block size: "), space.bsize)?;
    add_count(alloc, lines, &coded(b"blocks: "), space.total)?;
    add_count(alloc, lines, &coded(b"used: "), used)?;
    add_count(alloc, lines, &coded(b"free: "), space.free)?;
    add_count(alloc, lines, &coded(b"lost: "), held.lost())?;
    add_count(alloc, lines, &coded(b"files: "), held.count())?;
    Ok(())
}

// Adds the line of a number behind its key.
fn add_count(
    alloc: Global,
    lines: &mut Vec<Vec<u8>>,
    key: &[u8],
    number: u32,
) -> Result<(), AllocError>
    ensures { OnOk result (map (λ line. line.items) lines.new.items
        ≡ map (λ line. line.items) lines.old.items ++ (key.now ++ decimal_of number) ∷ []) }
{
    add_fact(alloc, lines, key, decimal(alloc, number)?.bytes())?;
    Ok(())
}

// Adds the line of a value behind its key.
fn add_fact(
    alloc: Global,
    lines: &mut Vec<Vec<u8>>,
    key: &[u8],
    value: &[u8],
) -> Result<(), AllocError>
    ensures { OnOk result (map (λ line. line.items) lines.new.items
        ≡ map (λ line. line.items) lines.old.items ++ (key.now ++ value.now) ∷ []) }
{
    let mut line = key.to_vec(alloc)?;
    line.extend_from_slice(value)?;
    lines.push(line)?;
    Ok(())
}
