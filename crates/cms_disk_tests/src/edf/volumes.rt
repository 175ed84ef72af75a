// Volumes on the units of worlds in memory, and what is told of them.
use cms_cases::Report;
use cms_edf::{Held, OpenFault, open_volume};
use cms_images::{Disk, world_with};
use cms_journal::BlockSize;
use cms_world::{Access, MemWorld, Unit, World};
use std::alloc::Global;
use std::process::Abort;

/// TEST01, in EBCDIC.
pub const TEST01: [u8; 6] = [0xE3, 0xC5, 0xE2, 0xE3, 0xF0, 0xF1];

/// Opens the volume on a world's first unit; where it isn't attached, there is no memory.
pub fn open(alloc: Global, world: &mut MemWorld, size: BlockSize) -> Result<Held, OpenFault> {
    if world.units() > 0 {
        return Err(OpenFault::Memory);
    }
    match world.attach("disk", size.bytes(), Access::ReadOnly) {
        Ok(unit) => open_volume(alloc, world, &unit, size),
        Err(_) => Err(OpenFault::Memory),
    }
}

/// The volume that is on the unit.
pub fn volume_on(alloc: Global, world: &mut Disk) -> Option<Held> {
    let unit = Unit {
        number: 0,
        blocks: u32::try_from(world.image.len() / 512).ok()?,
    };
    open_volume(alloc, world, &unit, BlockSize::new(512)).ok()
}

/// Adds the volume id, the bytes of a block, the blocks, those that are free, and the files.
pub fn push_state(into: &mut Report, held: &Held) {
    let space = held.space();
    let volume = if space.volid == TEST01 {
        "TEST01"
    } else {
        "another"
    };
    let numbers = (space.bsize, space.total, space.free, held.count());
    write!(into, "{volume} {numbers:?}")
}

/// Adds the state of the volume that opens in an image, or why none does.
pub fn push_opened<R: Abort>(
    into: &mut Report,
    rt: &R,
    alloc: Global,
    image: &[u8],
    size: BlockSize,
) {
    let mut world = world_with(alloc, image, 0, false).expect(rt, "memory");
    match open(alloc, &mut world, size) {
        Ok(held) => {
            push_state(into, &held);
            drop(held)
        }
        Err(fault) => into.value(&fault),
    }
    drop(world)
}
