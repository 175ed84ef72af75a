// A new image is made.
ghost use Rattle.std.specs.Prelude.{◌≡◌, ◌≤◌, ℕ, List, true};
ghost use Rattle.cms_journal.specs.declared.event.Access as accesses;
ghost use Rattle.cms_fields.specs.Offsets.{IsOffset};
ghost use Rattle.mini_work.specs.Causes.{HasCause, HasEnd, counts, on_world};
ghost use Rattle.mini_work.specs.NewImages.{IsMaking, Makes, first_state};
ghost use Rattle.mini_work.specs.OpenedImages.{Attaches, HasRoom, IsNew, MayUse};

use crate::block_size::open_file;
use crate::clock::ask_clock;
use crate::fault::Fault;
use crate::opened_image::attach;
use crate::output::refuse;
use crate::status::Status;
use cms_disk::{Minidisk, UnitInfo};
use cms_journal::BlockSize;
use cms_world::{Access, World};
use mini_host::{Host, Refusal};
use std::alloc::Global;

// The fewest blocks of a volume.
const LEAST_BLOCKS: u32 = 8;

/// Makes an image with an empty volume.
pub(crate) fn make<W: World, H: Host>(
    alloc: Global,
    world: &mut W,
    host: &mut H,
    image: &str,
    size: BlockSize,
    blocks: u32,
    label: [u8; 6],
    offset: i32,
) -> Result<Status, Fault>
    requires room { HasRoom (W.told world.old) }
    requires offset { IsOffset offset }
    ensures goes { IsNew (W.told world.old)
        → IsMaking image.now size blocks label offset (W.told world.new) result }
    ensures cause { HasEnd (counts W.World H.Host world.old host.old)
        (counts W.World H.Host world.new host.new) result }
{
    if open_file(host, image)? {
        return refuse(alloc, host, image, Refusal::IsThere);
    }
    let unit = attach(world, image, size, Access::New(blocks))?;
    if unit.unit.blocks < LEAST_BLOCKS {
        let free = unit.unit.blocks;
        let needed = LEAST_BLOCKS;
        return refuse(alloc, host, image, Refusal::NoRoom { needed, free });
    }
    match make_volume(alloc, world, &unit, label, offset) {
        Ok(()) => Ok(Status::Done),
        Err(fault) => {
            refuse(alloc, host, image, Refusal::MadeEmpty)?;
            Err(fault)
        }
    }
}

// Makes an empty volume on a unit.
fn make_volume<W: World>(
    alloc: Global,
    world: &mut W,
    unit: &UnitInfo,
    label: [u8; 6],
    offset: i32,
) -> Result<(), Fault>
    requires least { 8 ≤ unit.now.unit.blocks }
    requires offset { IsOffset offset }
    requires writable { unit.now.writable ≡ true }
    requires may { MayUse (W.told world.old) unit.now }
    ensures goes { (name : List ℕ) (size : ℕ) (access : accesses.Access)
        (a : Attaches name size access (W.told world.old) unit.now)
        → Makes unit.now (first_state a.alone.unit) label offset (W.told world.old)
        (W.told world.new) result }
    ensures cause { (n : ℕ) → HasCause (on_world W.World world.old n)
        (on_world W.World world.new n) result }
{
    let stamp = ask_clock(world, offset)?;
    drop(Minidisk::make(alloc, world, unit, label, &stamp)?);
    Ok(())
}
