// Files of an image are erased or get another name.
ghost use Rattle.std.specs.Prelude.{◌≡◌, ◌≤◌, ℕ, true, IfOk, OnOk};
ghost use Rattle.cms_journal.specs.declared.event.Access.TheVariants.{ReadWrite};
ghost use Rattle.cms_fields.specs.Offsets.{IsOffset};
ghost use Rattle.cms_fields.specs.Stamps.{is_stamp};
ghost use Rattle.cms_model.specs.Changes.{Drop, Rename};
ghost use Rattle.mini_work.specs.Causes.{AreLater, Counts, HasEnd, OneRose, counts, is_broken};
ghost use Rattle.mini_work.specs.Changes.{IsChange, IsTimed, is_denial};
ghost use Rattle.mini_work.specs.CommandActs.{Continues, Goes, MayChange};
ghost use Rattle.mini_work.specs.Commands.{IsErasing, IsErasingAll, IsRenaming, IsWorked};
ghost use Rattle.mini_work.specs.HostTold.{Noted, SameFiles};
ghost use Rattle.mini_work.specs.OpenedImages.{HasRoom, IsNew};
ghost use Rattle.mini_work.specs.Output as spec;
ghost use Rattle.mini_work.specs.declared.status.Status.TheVariants as status;

use crate::chosen_files::{choose, names_of, refuse_idle};
use crate::clock::ask_clock;
use crate::fault::Fault;
use crate::opened_image::open_disk;
use crate::output::{name_word, refuse, say_fault, say_name};
use crate::status::Status;
use cms_disk::{DiskFault, Minidisk};
use cms_fields::Stamp;
use cms_names::Name;
use cms_world::{Access, World};
use mini_host::{Host, Refusal};
use mini_words::{Image, NamePattern};
use std::alloc::Global;

/// Erases the files that names fit, each as an update.
pub(crate) fn erase<W: World, H: Host>(
    alloc: Global,
    world: &mut W,
    host: &mut H,
    image: &Image,
    says: bool,
    offset: i32,
    names: &[NamePattern],
) -> Result<Status, Fault>
    requires room { HasRoom (W.told world.old) }
    requires offset { IsOffset offset }
    ensures goes { IsNew (W.told world.old)
        → IsWorked image.now.name ReadWrite (IsErasing says offset names.now)
        (W.told world.new) result }
    ensures cause { HasEnd (counts W.World H.Host world.old host.old)
        (counts W.World H.Host world.new host.new) result }
{
    match open_disk(alloc, world, host, image, Access::ReadWrite)? {
        Some(mut disk) => {
            let done = erase_fitting(alloc, world, host, &mut disk, says, offset, names);
            drop(disk);
            done
        }
        None => Ok(Status::Refused),
    }
}

// Erases the files of a minidisk that names fit, and says which names fit none.
fn erase_fitting<W: World, H: Host>(
    alloc: Global,
    world: &mut W,
    host: &mut H,
    disk: &mut Minidisk,
    says: bool,
    offset: i32,
    names: &[NamePattern],
) -> Result<Status, Fault>
    requires offset { IsOffset offset }
    requires may { MayChange (W.told world.old) disk.old }
    ensures goes { Continues (IsErasing says offset names.now) (W.told world.old) disk.old
        (W.told world.new) disk.new result }
    ensures cause { disk.old.writable ≡ true
        → HasEnd (counts W.World H.Host world.old host.old)
        (counts W.World H.Host world.new host.new) result }
{
    let all = names_of(alloc, disk)?;
    let chosen = choose(alloc, &all, names)?;
    let erased = erase_chosen(alloc, world, host, disk, &chosen, says, offset)?;
    let idle = refuse_idle(alloc, host, &all, names)?;
    Ok(erased.and(idle))
}

// Asks the clock, and erases files with that stamp.
fn erase_chosen<W: World, H: Host>(
    alloc: Global,
    world: &mut W,
    host: &mut H,
    disk: &mut Minidisk,
    names: &[Name],
    says: bool,
    offset: i32,
) -> Result<Status, Fault>
    requires offset { IsOffset offset }
    requires may { MayChange (W.told world.old) disk.old }
    ensures goes { Continues (IsErasingAll says offset names.now) (W.told world.old) disk.old
        (W.told world.new) disk.new result }
    ensures cause { disk.old.writable ≡ true
        → HasEnd (counts W.World H.Host world.old host.old)
        (counts W.World H.Host world.new host.new) result }
{
    let stamp = ask_clock(world, offset)?;
    erase_all(alloc, world, host, disk, names, &stamp, says)
}

// Erases files one after another.
fn erase_all<W: World, H: Host>(
    alloc: Global,
    world: &mut W,
    host: &mut H,
    disk: &mut Minidisk,
    names: &[Name],
    stamp: &Stamp,
    says: bool,
) -> Result<Status, Fault>
    requires stamp { is_stamp stamp.now ≡ true }
    requires may { MayChange (W.told world.old) disk.old }
    ensures goes { Continues (Goes
        (λ name. IsChange (Drop name) stamp.now says (spec.name_line name)) names.now)
        (W.told world.old) disk.old (W.told world.new) disk.new result }
    ensures cause { disk.old.writable ≡ true
        → HasEnd (counts W.World H.Host world.old host.old)
        (counts W.World H.Host world.new host.new) result }
{
    let mut status = Status::Done;
    for name in names {
        match erase_one(alloc, world, host, disk, name, stamp, says) {
            Ok(one) => status = status.and(one),
            Err(fault) => {
                let word = name_word(alloc, name)?;
                return Err(say_fault(alloc, host, word.as_str(), fault));
            }
        }
    }
    Ok(status)
}

// Erases a file, and says it.
fn erase_one<W: World, H: Host>(
    alloc: Global,
    world: &mut W,
    host: &mut H,
    disk: &mut Minidisk,
    name: &Name,
    stamp: &Stamp,
    says: bool,
) -> Result<Status, Fault>
    requires stamp { is_stamp stamp.now ≡ true }
    requires may { MayChange (W.told world.old) disk.old }
    ensures goes { Continues (IsChange (Drop name.now) stamp.now says (spec.name_line name.now))
        (W.told world.old) disk.old
        (W.told world.new) disk.new result }
    ensures may { MayChange (W.told world.new) disk.new }
    ensures writable { disk.new.writable ≡ disk.old.writable }
    ensures cause { disk.old.writable ≡ true
        → HasEnd (counts W.World H.Host world.old host.old)
        (counts W.World H.Host world.new host.new) result }
{
    match disk.erase(alloc, world, name, stamp) {
        Ok(()) => say_name(alloc, world, name, says),
        Err(why) => refuse_change(alloc, host, name, why),
    }
}

/// Says why a file isn't changed, unless something failed.
pub(crate) fn refuse_change<H: Host>(
    alloc: Global,
    host: &mut H,
    name: &Name,
    why: DiskFault,
) -> Result<Status, Fault>
    ensures refused { IfOk result (λ s. (s ≡ status.Refused) × (is_denial why ≡ true)) }
    ensures noted { OnOk result (Noted (H.told host.old) (H.told host.new)) }
    ensures files { SameFiles (H.told host.old) (H.told host.new) }
    ensures cause { (first : Counts) (f e : ℕ)
        → AreLater first (record { faults = f; edges = e; host = H.faults host.old })
        → (is_broken why ≡ true
        → OneRose first (record { faults = f; edges = e; host = H.faults host.old }))
        → HasEnd first (record { faults = f; edges = e; host = H.faults host.new }) result }
{
    let refusal = match why {
        DiskFault::NotFound => Refusal::NothingFits,
        DiskFault::Exists => Refusal::IsThere,
        DiskFault::Limit(_) => Refusal::TooManyFiles,
        DiskFault::Full { need, free } => Refusal::NoRoom { needed: need, free },
        DiskFault::ReadOnly
        | DiskFault::Device
        | DiskFault::InDoubt
        | DiskFault::Altered
        | DiskFault::Memory => {
            return Err(why.into());
        }
    };
    let word = name_word(alloc, name)?;
    refuse(alloc, host, word.as_str(), refusal)
}

/// Gives a file of an image another name; its mode number stays.
pub(crate) fn rename<W: World, H: Host>(
    alloc: Global,
    world: &mut W,
    host: &mut H,
    image: &Image,
    says: bool,
    offset: i32,
    from: &Name,
    to: &Name,
) -> Result<Status, Fault>
    requires room { HasRoom (W.told world.old) }
    requires offset { IsOffset offset }
    ensures goes { IsNew (W.told world.old)
        → IsWorked image.now.name ReadWrite (IsRenaming says offset from.now to.now)
        (W.told world.new) result }
    ensures cause { HasEnd (counts W.World H.Host world.old host.old)
        (counts W.World H.Host world.new host.new) result }
{
    match open_disk(alloc, world, host, image, Access::ReadWrite)? {
        Some(mut disk) => {
            let done = rename_file(alloc, world, host, &mut disk, says, offset, from, to);
            drop(disk);
            done
        }
        None => Ok(Status::Refused),
    }
}

// Gives a file of a minidisk another name.
fn rename_file<W: World, H: Host>(
    alloc: Global,
    world: &mut W,
    host: &mut H,
    disk: &mut Minidisk,
    says: bool,
    offset: i32,
    from: &Name,
    to: &Name,
) -> Result<Status, Fault>
    requires offset { IsOffset offset }
    requires may { MayChange (W.told world.old) disk.old }
    ensures goes { Continues (IsRenaming says offset from.now to.now) (W.told world.old) disk.old
        (W.told world.new) disk.new result }
    ensures cause { disk.old.writable ≡ true
        → HasEnd (counts W.World H.Host world.old host.old)
        (counts W.World H.Host world.new host.new) result }
{
    let Some(place) = disk.find(from) else {
        return refuse_change(alloc, host, from, DiskFault::NotFound);
    };
    let number = disk.mode_number(place);
    rename_timed(alloc, world, host, disk, from, to, number, says, offset)
}

// Asks the clock, and gives a file another name with that stamp.
fn rename_timed<W: World, H: Host>(
    alloc: Global,
    world: &mut W,
    host: &mut H,
    disk: &mut Minidisk,
    from: &Name,
    to: &Name,
    number: u8,
    says: bool,
    offset: i32,
) -> Result<Status, Fault>
    requires number { number ≤ 6 }
    requires offset { IsOffset offset }
    requires may { MayChange (W.told world.old) disk.old }
    ensures goes { Continues (IsTimed offset
        (λ stamp. IsChange (Rename from.now to.now number) stamp says (spec.name_line to.now)))
        (W.told world.old)
        disk.old (W.told world.new) disk.new result }
    ensures cause { disk.old.writable ≡ true
        → HasEnd (counts W.World H.Host world.old host.old)
        (counts W.World H.Host world.new host.new) result }
{
    let stamp = ask_clock(world, offset)?;
    rename_one(alloc, world, host, disk, from, to, number, &stamp, says)
}

// Gives a file another name, and says it.
fn rename_one<W: World, H: Host>(
    alloc: Global,
    world: &mut W,
    host: &mut H,
    disk: &mut Minidisk,
    from: &Name,
    to: &Name,
    number: u8,
    stamp: &Stamp,
    says: bool,
) -> Result<Status, Fault>
    requires stamp { is_stamp stamp.now ≡ true }
    requires number { number ≤ 6 }
    requires may { MayChange (W.told world.old) disk.old }
    ensures goes { Continues (IsChange (Rename from.now to.now number) stamp.now says
        (spec.name_line to.now)) (W.told world.old) disk.old
        (W.told world.new) disk.new result }
    ensures cause { disk.old.writable ≡ true
        → HasEnd (counts W.World H.Host world.old host.old)
        (counts W.World H.Host world.new host.new) result }
{
    match disk.rename(alloc, world, from, to, number, stamp) {
        Ok(()) => say_name(alloc, world, to, says),
        Err(why) => refuse_change(alloc, host, named_by(from, to, why), why),
    }
}

// The name that a refusal of a renaming is about.
fn named_by<'a>(from: &'a Name, to: &'a Name, why: DiskFault) -> &'a Name {
    match why {
        DiskFault::Exists => to,
        _ => from,
    }
}
