// Minidisks on the units of worlds in memory, and what is told of them.
ghost use Rattle.std.specs.Prelude.{◌≡◌, IsTrue};
ghost use Rattle.cms_journal.specs.declared.event.Access.TheVariants.{ReadWrite};

use cms_cases::Report;
use cms_disk::{AccessFault, Minidisk, UnitInfo};
use cms_ebcdic::to_host;
use cms_images::{Disk, FILE};
use cms_journal::BlockSize;
use cms_world::{Access, Unit};
use std::alloc::Global;

/// Device 191 on an attached unit.
pub fn info_of(unit: Unit, access: Access) -> UnitInfo
    ensures unit { result.unit ≡ unit }
    ensures bsize { result.bsize ≡ 512 }
    ensures writable { IsTrue result.writable → access ≡ ReadWrite }
{
    UnitInfo {
        vdev: 0x191,
        unit,
        bsize: BlockSize::new(512),
        writable: matches!(access, Access::ReadWrite),
    }
}

/// The minidisk on the unit of a world, which may be written or not.
pub fn minidisk(alloc: Global, world: &mut Disk, access: Access) -> Result<Minidisk, AccessFault> {
    let blocks = (world.image.len() / 512).min(10_000) as u32;
    let info = info_of(Unit { number: 0, blocks }, access);
    Minidisk::access(alloc, world, &info, false)
}

/// The access that a word asks for: `read` to read alone, or any other.
pub fn access_of(word: &str) -> Access {
    match word {
        "read" => Access::ReadOnly,
        _ => Access::ReadWrite,
    }
}

// The letter of the file at a place; a question mark where its name isn't one letter with the type FILE, or leads to another place.
fn letter_at(disk: &Minidisk, place: u32) -> char {
    if place >= disk.count() {
        return '?';
    }
    let name = disk.info(place).name;
    match name.file.as_bytes() {
        [letter] if name.kind.as_bytes() == FILE && disk.find(&name) == Some(place) => {
            char::from(to_host(*letter))
        }
        _ => '?',
    }
}

/// Adds the letters of a minidisk's files, in their order.
pub fn push_letters(into: &mut Report, disk: &Minidisk) {
    for place in 0..disk.count() {
        into.push(letter_at(disk, place));
    }
}
