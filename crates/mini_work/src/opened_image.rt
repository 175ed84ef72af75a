// Images are attached and opened.
ghost use Rattle.std.specs.Prelude.{◌≡◌, ℕ, List, min, true, None, IfOk, IfSome};
ghost use Rattle.cms_journal.specs.Journal.{may_write};
ghost use Rattle.cms_model.specs.declared.fault.OpenFault.TheVariants.{Device};
ghost use Rattle.cms_journal.specs.Limits.{most_blocks};
ghost use Rattle.cms_journal.specs.declared.event.Access as accesses;
ghost use Rattle.cms_journal.specs.declared.event.Access.TheVariants.{ReadOnly};
ghost use Rattle.mini_work.specs.Causes.{AreLater, Counts, HasCause, OneRose, counts, on_world};
ghost use Rattle.mini_work.specs.Checks.{Holds, IsShut, is_test};
ghost use Rattle.mini_work.specs.CommandActs.{MayChange};
ghost use Rattle.mini_work.specs.FoundDisks.{FindsDisk};
ghost use Rattle.mini_work.specs.OpenedImages.{Attaches, HasRoom, IsNew, IsUnwritten, MayUse, Opens};
ghost use Rattle.mini_work.specs.HostTold.{SameFiles};

use crate::block_size::find_size;
use crate::fault::Fault;
use crate::output::refuse;
use cms_disk::{AccessFault, Minidisk, OpenFault, UnitInfo};
use cms_edf::{Held, open_volume};
use cms_journal::{BlockSize, MOST_BLOCKS};
use cms_world::{Access, Unit, World};
use mini_host::{Host, Refusal};
use mini_words::Image;
use std::alloc::Global;

// The device that the unit of an image has.
const DEVICE: u16 = 1;

/// Attaches an image.
pub(crate) fn attach<W: World>(
    world: &mut W,
    name: &str,
    size: BlockSize,
    access: Access,
) -> Result<UnitInfo, Fault>
    requires room { HasRoom (W.told world.old) }
    ensures attaches { IfOk result (λ info. IsNew (W.told world.old)
        → Attaches name.now size access (W.told world.new) info) }
    ensures may { IfOk result (MayUse (W.told world.new)) }
    ensures size { IfOk result (λ info. info.bsize ≡ size) }
    ensures access { IfOk result (λ info. info.writable ≡ may_write access) }
    ensures unwritten { IsNew (W.told world.old) → IsUnwritten (W.told world.new) }
    ensures cause { (n : ℕ) → HasCause (on_world W.World world.old n)
        (on_world W.World world.new n) result }
{
    match world.attach(name, size.bytes(), access) {
        Ok(unit) => Ok(UnitInfo {
            vdev: DEVICE,
            unit: looked_at(unit),
            bsize: size,
            writable: may_write(access),
        }),
        Err(_) => Err(Fault::Image),
    }
}

// What is looked at of a unit.
fn looked_at(unit: Unit) -> Unit
    ensures number { result.number ≡ unit.number }
    ensures blocks { result.blocks ≡ min unit.blocks most_blocks }
{
    Unit {
        number: unit.number,
        blocks: unit.blocks.min(MOST_BLOCKS),
    }
}

fn may_write(access: Access) -> bool
    ensures { result ≡ may_write access }
{
    match access {
        Access::ReadOnly => false,
        Access::ReadWrite | Access::New(_) => true,
    }
}

/// The minidisk of an image; none where there is none: that was said.
pub(crate) fn open_disk<W: World, H: Host>(
    alloc: Global,
    world: &mut W,
    host: &mut H,
    image: &Image,
    access: Access,
) -> Result<Option<Minidisk>, Fault>
    requires room { HasRoom (W.told world.old) }
    ensures { FindsDisk W.World H.Host image.now.name access world.old world.new
        host.old host.new result }
{
    match find_size(alloc, host, image)? {
        Some(size) => open_sized(alloc, world, host, image.name.text(), size, access),
        None => Ok(None),
    }
}

// Attaches an image with blocks of a size, and opens it.
fn open_sized<W: World, H: Host>(
    alloc: Global,
    world: &mut W,
    host: &mut H,
    image: &str,
    size: BlockSize,
    access: Access,
) -> Result<Option<Minidisk>, Fault>
    requires room { HasRoom (W.told world.old) }
    ensures { FindsDisk W.World H.Host image.now access world.old world.new
        host.old host.new result }
{
    let unit = attach(world, image, size, access)?;
    open_unit(alloc, world, host, image, &unit)
}

// Opens the minidisk on an attached unit.
fn open_unit<W: World, H: Host>(
    alloc: Global,
    world: &mut W,
    host: &mut H,
    image: &str,
    unit: &UnitInfo,
) -> Result<Option<Minidisk>, Fault>
    requires { MayUse (W.told world.old) unit.now }
    ensures opens { IfOk result (λ found. IfSome found
        (λ disk. (name : List ℕ) (size : ℕ) (access : accesses.Access)
        → Attaches name size access (W.told world.old) unit.now
        → Opens name size access (W.told world.new) disk)) }
    ensures told { W.told world.new ≡ W.told world.old }
    ensures may { IfOk result (λ found. IfSome found (MayChange (W.told world.new))) }
    ensures files { SameFiles (H.told host.old) (H.told host.new) }
    ensures writable { IfOk result (λ found. IfSome found
        (λ disk. disk.writable ≡ unit.now.writable)) }
    ensures cause { HasCause (counts W.World H.Host world.old host.old)
        (counts W.World H.Host world.new host.new) result }
{
    match Minidisk::access(alloc, world, unit, false) {
        Ok(disk) => Ok(Some(disk)),
        Err(AccessFault::Open(why)) => refuse_volume(alloc, host, image, why),
        Err(AccessFault::Sync) => Err(Fault::Image),
    }
}

/// The volume that an image is; none where it is none: that was said.
pub(crate) fn open_held<W: World, H: Host>(
    alloc: Global,
    world: &mut W,
    host: &mut H,
    image: &Image,
) -> Result<Option<Held>, Fault>
    requires room { HasRoom (W.told world.old) }
    ensures holds { IfOk result (λ found. IfSome found
        (λ held. IsNew (W.told world.old) → Holds image.now.name (W.told world.new) held.volume)) }
    ensures shut { IfOk result (λ found. found ≡ None → IsNew (W.told world.old)
        → IsShut image.now.name (W.told world.new)) }
    ensures unwritten { IsNew (W.told world.old) → IsUnwritten (W.told world.new) }
    ensures cause { HasCause (counts W.World H.Host world.old host.old)
        (counts W.World H.Host world.new host.new) result }
{
    match find_size(alloc, host, image)? {
        Some(size) => hold_sized(alloc, world, host, image.name.text(), size),
        None => Ok(None),
    }
}

// Attaches an image with blocks of a size, and opens the volume that it is.
fn hold_sized<W: World, H: Host>(
    alloc: Global,
    world: &mut W,
    host: &mut H,
    image: &str,
    size: BlockSize,
) -> Result<Option<Held>, Fault>
    requires room { HasRoom (W.told world.old) }
    ensures holds { IfOk result (λ found. IfSome found
        (λ held. IsNew (W.told world.old) → Holds image.now (W.told world.new) held.volume)) }
    ensures shut { IfOk result (λ found. found ≡ None → IsNew (W.told world.old)
        → IsShut image.now (W.told world.new)) }
    ensures unwritten { IsNew (W.told world.old) → IsUnwritten (W.told world.new) }
    ensures cause { HasCause (counts W.World H.Host world.old host.old)
        (counts W.World H.Host world.new host.new) result }
{
    let unit = attach(world, image, size, Access::ReadOnly)?;
    hold_unit(alloc, world, host, image, &unit)
}

// The volume on an attached unit.
fn hold_unit<W: World, H: Host>(
    alloc: Global,
    world: &mut W,
    host: &mut H,
    image: &str,
    unit: &UnitInfo,
) -> Result<Option<Held>, Fault>
    requires { MayUse (W.told world.old) unit.now }
    ensures holds { IfOk result (λ found. IfSome found (λ held. (name : List ℕ) (size : ℕ)
        → Attaches name size ReadOnly (W.told world.old) unit.now
        → Holds name (W.told world.new) held.volume)) }
    ensures shut { IfOk result (λ found. found ≡ None → (name : List ℕ) (size : ℕ)
        → Attaches name size ReadOnly (W.told world.old) unit.now
        → IsShut name (W.told world.new)) }
    ensures told { W.told world.new ≡ W.told world.old }
    ensures cause { HasCause (counts W.World H.Host world.old host.old)
        (counts W.World H.Host world.new host.new) result }
{
    match open_volume(alloc, world, &unit.unit, unit.bsize) {
        Ok(held) => Ok(Some(held)),
        Err(why) => refuse_volume(alloc, host, image, why),
    }
}

// Says why an image is no volume, unless it couldn't be read.
fn refuse_volume<H: Host, T: Drop>(
    alloc: Global,
    host: &mut H,
    image: &str,
    why: OpenFault,
) -> Result<Option<T>, Fault>
    ensures none { IfOk result (λ found. found ≡ None) }
    ensures why { IfOk result (λ found. is_test why ≡ true) }
    ensures files { SameFiles (H.told host.old) (H.told host.new) }
    ensures cause { (first : Counts) (f e : ℕ)
        → AreLater first (record { faults = f; edges = e; host = H.faults host.old })
        → (why ≡ Device
        → OneRose first (record { faults = f; edges = e; host = H.faults host.old }))
        → HasCause first (record { faults = f; edges = e; host = H.faults host.new }) result }
{
    match why {
        OpenFault::Device => Err(Fault::Image),
        OpenFault::Memory => Err(Fault::Memory),
        _ => {
            refuse(alloc, host, image, Refusal::NoVolume(why))?;
            Ok(None)
        }
    }
}
