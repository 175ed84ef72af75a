// A minidisk of many files, beside a plain list of them.
ghost use Rattle.std.specs.Prelude.{◌≡◌, ◌<◌, true, IfOk};
ghost use Rattle.cms_model.specs.Records.{IsValid};

use cms_disk::{FileData, Minidisk, Stored, UnitInfo};
use cms_images::{START, digits};
use cms_journal::BlockSize;
use cms_names::{Format, Name, Part};
use cms_world::{ImageList, QuietWorld, Unit};
use std::alloc::{AllocError, Global};
use std::test::Fail;

const FILES: u16 = 2_000;

const VOLID: [u8; 6] = [0xD4, 0xC1, 0xD5, 0xE8, 0xF0, 0xF1];

const OLD: u8 = 0xD6;

const NEW: u8 = 0xD5;

// A file by the letter and the number of its name, with its mode number.
#[derive(Clone, Copy)]
struct Listed {
    letter: u8,
    number: u16,
    mode: u8,
}

// A device of 4,000 blocks of 4,096 bytes.
fn device() -> UnitInfo
    ensures blocks { result.unit.blocks ≡ 4000 }
    ensures writable { result.writable ≡ true }
{
    UnitInfo {
        vdev: 0x191,
        unit: Unit {
            number: 0,
            blocks: 4_000,
        },
        bsize: BlockSize::new(4_096),
        writable: true,
    }
}

// A letter and four digits.
fn name_of(letter: u8, number: u16) -> Option<Name> {
    let [thousands, hundreds, tens, ones] = digits(u32::from(number));
    match (
        Part::read(&[letter, thousands, hundreds, tens, ones]),
        Part::read(&[letter]),
    ) {
        (Ok(file), Ok(kind)) => Some(Name { file, kind }),
        _ => None,
    }
}

// One record of a byte.
#[tactic(auto, using(crate::proofs::File::byte), unfolding(cms_fields::specs::Stamps::is_stamp, cms_fields::specs::Stamps::days_of_month))]
fn byte(alloc: Global) -> Result<FileData, AllocError>
    ensures valid { IfOk result IsValid }
{
    Ok(FileData {
        format: Format::F,
        length: 1,
        number: 1,
        stamp: START,
        count: 1,
        bytes: Stored::take(vec![in alloc; 0x40; 1]?),
    })
}

// Puts all of the files, each with these records.
#[tactic(auto, unfolding(cms_fields::specs::Stamps::is_stamp, cms_fields::specs::Stamps::days_of_month))]
fn fill_with(
    alloc: Global,
    world: &mut QuietWorld,
    disk: &mut Minidisk,
    file: &FileData,
) -> Option<()>
    requires { IsValid file.now }
{
    for number in 0..FILES {
        let name = name_of(OLD, number)?;
        disk.put(alloc, world, &name, file, &START).ok()?;
    }
    Some(())
}

// Puts all of the files.
fn fill(alloc: Global, world: &mut QuietWorld, disk: &mut Minidisk) -> Option<()> {
    match byte(alloc) {
        Ok(file) => fill_with(alloc, world, disk, &file),
        Err(_) => None,
    }
}

// A new minidisk with all of the files.
#[tactic(auto, unfolding(cms_fields::specs::Stamps::is_stamp, cms_fields::specs::Stamps::days_of_month))]
fn filled(alloc: Global, world: &mut QuietWorld) -> Option<Minidisk> {
    let Ok(mut disk) = Minidisk::make(alloc, world, &device(), VOLID, &START) else {
        return None;
    };
    let done = fill(alloc, world, &mut disk);
    done.and(Some(disk))
}

// Erases every third file, in the order of their numbers.
#[tactic(auto, unfolding(cms_fields::specs::Stamps::is_stamp, cms_fields::specs::Stamps::days_of_month))]
fn erase_thirds(alloc: Global, world: &mut QuietWorld, disk: &mut Minidisk) -> Option<()> {
    for number in 0..FILES {
        if number % 3 == 2 {
            let name = name_of(OLD, number)?;
            disk.erase(alloc, world, &name, &START).ok()?;
        }
    }
    Some(())
}

// Gives every fifth file of the list another name and mode number.
#[tactic(auto, unfolding(cms_fields::specs::Stamps::is_stamp, cms_fields::specs::Stamps::days_of_month))]
fn rename_fifths(
    alloc: Global,
    world: &mut QuietWorld,
    disk: &mut Minidisk,
    list: &[Listed],
) -> Option<()> {
    for (place, file) in list.iter().enumerate() {
        if place % 5 == 4 {
            let from = name_of(OLD, file.number)?;
            let to = name_of(NEW, file.number)?;
            disk.rename(alloc, world, &from, &to, 2, &START).ok()?;
        }
    }
    Some(())
}

// All of the files.
fn all(alloc: Global) -> Result<Vec<Listed>, AllocError> {
    let mut list = Vec::new(alloc);
    for number in 0..FILES {
        list.push(Listed {
            letter: OLD,
            number,
            mode: 1,
        })?;
    }
    Ok(list)
}

// The list without every third file: the last takes its place.
fn without_thirds(list: &mut Vec<Listed>) {
    for number in 0..FILES {
        if number % 3 == 2 {
            if let Some(place) = list.iter().position(|file| file.number == number) {
                list.swap_remove(place);
            }
        }
    }
}

// Whether these are the minidisk's files, in their order.
fn holds(disk: &Minidisk, list: &[Listed]) -> bool {
    if disk.count() as usize != list.len() {
        return false;
    }
    for (place, file) in list.iter().enumerate() {
        if place as u32 >= disk.count() {
            return false;
        }
        let info = disk.info(place as u32);
        let Some(name) = name_of(file.letter, file.number) else {
            return false;
        };
        if info.name != name || info.number != file.mode {
            return false;
        }
    }
    true
}

// The list with every fifth file renamed.
fn with_new_names(list: &mut Vec<Listed>) {
    for place in 0..list.len() {
        if place % 5 == 4 {
            list[place].letter = NEW;
            list[place].mode = 2;
        }
    }
}

// Whether a minidisk's files are as in the list at first, then where every third is erased, and then where every fifth is renamed.
fn keeps_order(
    alloc: Global,
    world: &mut QuietWorld,
    disk: &mut Minidisk,
    list: &mut Vec<Listed>,
) -> Option<bool> {
    let filled = holds(disk, list);
    erase_thirds(alloc, world, disk)?;
    without_thirds(list);
    let erased = holds(disk, list);
    rename_fifths(alloc, world, disk, list)?;
    with_new_names(list);
    Some(filled && erased && holds(disk, list))
}

// The same of a new minidisk with all of the files.
fn is_as_list(alloc: Global, world: &mut QuietWorld, list: &mut Vec<Listed>) -> Option<bool> {
    let mut disk = filled(alloc, world)?;
    let kept = keeps_order(alloc, world, &mut disk, list);
    drop(disk);
    kept
}

#[test]
fn many_files_keep_the_order_of_a_plain_list(rt: HostRuntime) -> Result<(), Fail> {
    let alloc = rt.alloc();
    let mut world = QuietWorld::new(ImageList::new(alloc), Vec::new(alloc));
    let mut list = all(alloc)?;
    let kept = is_as_list(alloc, &mut world, &mut list);
    drop(world);
    let count = list.len();
    drop(list);
    assert_eq!(rt; (kept, count), (Some(true), 1_334));
    Ok(())
}
