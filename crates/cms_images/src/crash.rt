// What a crash leaves of an image.
use cms_world::MemWorld;
use std::alloc::{AllocError, Global};

/// What a crash after so many events leaves of a unit, by these choices; none where the unit isn't attached.
pub fn crashed(
    alloc: Global,
    world: &MemWorld,
    unit: u8,
    at: usize,
    choice: u64,
) -> Result<Option<Vec<u8>>, AllocError> {
    if world.has_unit(unit) && at <= world.events() {
        Ok(Some(world.crash(alloc, unit, at, choice)?))
    } else {
        Ok(None)
    }
}

/// What it leaves of the first unit; nothing where that isn't attached.
pub fn image_left(
    alloc: Global,
    world: &MemWorld,
    at: usize,
    choice: u64,
) -> Result<Vec<u8>, AllocError> {
    if world.has_unit(0) && at <= world.events() {
        world.crash(alloc, 0, at, choice)
    } else {
        Ok(Vec::new(alloc))
    }
}
