// Files of an image are handed out.
ghost use Rattle.std.specs.Prelude.{◌≡◌, ◌++◌, ◌∷◌, ℕ, [], List, Option, false, true, IfOk, OnOk};
ghost use Rattle.std.specs.String.{string_bytes};
ghost use Rattle.cms_journal.specs.declared.event.Access.TheVariants.{ReadOnly};
ghost use Rattle.cms_journal.specs.Told.{Grown};
ghost use Rattle.cms_model.specs.Minidisks as minidisks;
ghost use Rattle.cms_disk.specs.Disks.{Accessed};
ghost use Rattle.cms_names.specs.declared.name.Name as names;
ghost use Rattle.mini_host.specs.Files.{Files};
ghost use Rattle.mini_work.specs.Gets as spec;
ghost use Rattle.mini_work.specs.Gets.{Begins, HasNoFolder, IsGetting, IsGotBy, IsGotEach, IsGotTo, IsHanded, IsJoined, Keeps, OnHost, WritesAll};
ghost use Rattle.mini_work.specs.Causes.{Counts, HasCause, HasEnd, counts, on_host, on_world};
ghost use Rattle.mini_work.specs.CommandActs.{Continues, Goes, MayChange, both};
ghost use Rattle.mini_work.specs.FileGets.{GetsFile};
ghost use Rattle.mini_work.specs.HandedFiles.{IsBegun, IsInfoOf, shown_in};
ghost use Rattle.mini_work.specs.OpenedImages.{HasRoom, IsNew};
ghost use Rattle.mini_work.specs.HostTold.{Noted, SameFiles};
ghost use Rattle.mini_work.specs.Stands.{Stands};
ghost use Rattle.mini_work.specs.Commands.{IsWorked};
ghost use Rattle.mini_work.specs.declared.handed_file.Way.TheVariants as ways;
ghost use Rattle.mini_work.specs.declared.status.Status as statuses;
ghost use Rattle.mini_work.specs.declared.status.Status.TheVariants as status;

use crate::block_size::is_same;
use crate::change::refuse_change;
use crate::chosen_files::{choose, names_of, refuse_idle};
use crate::fault::Fault;
use crate::handed_file::{Way, hand_out};
use crate::opened_image::open_disk;
use crate::output::{name_word, refuse, say_fault, say_name};
use crate::status::Status;
use cms_disk::{DiskFault, FileInfo, Minidisk};
use cms_names::Name;
use cms_text::Series;
use cms_world::{Access, World};
use mini_forms::Form;
use mini_host::{Host, Refusal};
use mini_words::{Get, Target};
use std::alloc::{AllocError, Global};

/// Hands out the files that names fit.
pub(crate) fn get<W: World, H: Host>(
    alloc: Global,
    world: &mut W,
    host: &mut H,
    get: &Get,
) -> Result<Status, Fault>
    requires { HasRoom (W.told world.old) }
    ensures goes { IsNew (W.told world.old) → IsWorked get.now.image.name ReadOnly
        (OnHost (H.told host.old) (H.told host.new) (IsGetting (H.told host.old) get.now))
        (W.told world.new) result }
    ensures cause { IsNew (W.told world.old)
        → HasEnd (counts W.World H.Host world.old host.old)
        (counts W.World H.Host world.new host.new) result }
{
    match open_disk(alloc, world, host, &get.image, Access::ReadOnly)? {
        Some(disk) => {
            let done = get_fitting(alloc, world, host, &disk, get);
            drop(disk);
            done
        }
        None => Ok(Status::Refused),
    }
}

// Hands out the files of a minidisk that names fit, and says which names fit none.
fn get_fitting<W: World, H: Host>(
    alloc: Global,
    world: &mut W,
    host: &mut H,
    disk: &Minidisk,
    get: &Get,
) -> Result<Status, Fault>
    requires { MayChange (W.told world.old) disk.now }
    ensures goes { Continues (OnHost (H.told host.old) (H.told host.new)
        (IsGetting (H.told host.old) get.now)) (W.told world.old) disk.now
        (W.told world.new) disk.now result }
    ensures cause { (m : minidisks.Minidisk) → Stands (W.told world.old) disk.now m
        → HasEnd (counts W.World H.Host world.old host.old)
        (counts W.World H.Host world.new host.new) result }
{
    let all = names_of(alloc, disk)?;
    let chosen = choose(alloc, &all, get.names.as_slice())?;
    let got = get_chosen(alloc, world, host, disk, get, &chosen)?;
    let idle = refuse_idle(alloc, host, &all, get.names.as_slice())?;
    Ok(got.and(idle))
}

// Hands out files by their names.
fn get_chosen<W: World, H: Host>(
    alloc: Global,
    world: &mut W,
    host: &mut H,
    disk: &Minidisk,
    get: &Get,
    names: &[Name],
) -> Result<Status, Fault>
    requires { MayChange (W.told world.old) disk.now }
    ensures goes { Continues (OnHost (H.told host.old) (H.told host.new)
        (IsGotBy (H.told host.old) get.now get.now.target names.now))
        (W.told world.old) disk.now (W.told world.new) disk.now result }
    ensures cause { (m : minidisks.Minidisk) → Stands (W.told world.old) disk.now m
        → HasEnd (counts W.World H.Host world.old host.old)
        (counts W.World H.Host world.new host.new) result }
{
    match &get.target {
        Target::Output => get_joined(alloc, world, host, disk, get.form, names),
        Target::File(file) => get_into(alloc, world, host, disk, get, file.text(), names),
        Target::Folder(folder) => get_each(alloc, world, host, disk, get, folder.text(), names),
    }
}

// Hands out files one behind another, to standard output.
fn get_joined<W: World, H: Host>(
    alloc: Global,
    world: &mut W,
    host: &mut H,
    disk: &Minidisk,
    form: Form,
    names: &[Name],
) -> Result<Status, Fault>
    requires { MayChange (W.told world.old) disk.now }
    ensures goes { Continues (OnHost (H.told host.old) (H.told host.new)
        (Goes (IsHanded form) names.now)) (W.told world.old) disk.now
        (W.told world.new) disk.now result }
    ensures cause { (m : minidisks.Minidisk) → Stands (W.told world.old) disk.now m
        → HasEnd (counts W.World H.Host world.old host.old)
        (counts W.World H.Host world.new host.new) result }
{
    let mut status = Status::Done;
    for name in names {
        match get_one(alloc, world, host, disk, form, Way::Output, name) {
            Ok(one) => status = status.and(one),
            Err(fault) => {
                let word = name_word(alloc, name)?;
                return Err(say_fault(alloc, host, word.as_str(), fault));
            }
        }
    }
    Ok(status)
}

// Hands out files, joined, into a host file.
fn get_into<W: World, H: Host>(
    alloc: Global,
    world: &mut W,
    host: &mut H,
    disk: &Minidisk,
    get: &Get,
    file: &str,
    names: &[Name],
) -> Result<Status, Fault>
    requires { MayChange (W.told world.old) disk.now }
    ensures goes { Continues (OnHost (H.told host.old) (H.told host.new)
        (IsJoined (H.told host.old) get.now file.now names.now))
        (W.told world.old) disk.now (W.told world.new) disk.now result }
    ensures cause { (m : minidisks.Minidisk) → Stands (W.told world.old) disk.now m
        → HasEnd (counts W.World H.Host world.old host.old)
        (counts W.World H.Host world.new host.new) result }
{
    let folder = folder_of(file);
    let there = find_folder(alloc, host, folder)?;
    if !there {
        return Ok(Status::Refused);
    }
    let begun = begin_file(alloc, host, get, file)?;
    if !begun {
        return Ok(Status::Refused);
    }
    let mut written = Series::new(alloc);
    let got = get_begun(alloc, world, host, disk, get, file, names, &mut written);
    drop(written);
    got
}

// Hands out files, joined, into the host file that is begun, and gathers their names.
fn get_begun<W: World, H: Host>(
    alloc: Global,
    world: &mut W,
    host: &mut H,
    disk: &Minidisk,
    get: &Get,
    file: &str,
    names: &[Name],
    written: &mut Series<Name>,
) -> Result<Status, Fault>
    requires may { MayChange (W.told world.old) disk.now }
    requires begun { IsBegun (H.told host.old) }
    requires none { written.old ≡ [] }
    ensures goes { (first before : Option Files) → SameFiles first before
        → Begins before (H.told host.old) get.now file.now true
        → Continues (OnHost first (H.told host.new) (IsJoined first get.now file.now names.now))
        (W.told world.old) disk.now (W.told world.new) disk.now result }
    ensures cause { (m : minidisks.Minidisk) → Stands (W.told world.old) disk.now m
        → HasEnd (counts W.World H.Host world.old host.old)
        (counts W.World H.Host world.new host.new) result }
{
    let status = write_all(alloc, world, host, disk, get.form, names, written)?;
    if written.is_empty() {
        host.discard();
        return Ok(status);
    }
    let kept = keep_file(alloc, host, file)?;
    if !kept {
        return Ok(Status::Refused);
    }
    say_names(alloc, world, written.as_slice(), get.says)?;
    Ok(status)
}

// Types names on standard output, where that is asked for.
fn say_names<W: World>(
    alloc: Global,
    world: &mut W,
    names: &[Name],
    says: bool,
) -> Result<Status, Fault>
    ensures goes { (d : Accessed)
        → Continues (spec.AreSaid says names.now) (W.told world.old) d (W.told world.new) d result }
    ensures cause { (n : ℕ) → HasEnd (on_world W.World world.old n)
        (on_world W.World world.new n) result }
{
    for name in names {
        say_name(alloc, world, name, says)?;
    }
    Ok(Status::Done)
}

// Writes files one behind another into the host file that is begun, and gathers the names of those that weren't refused.
fn write_all<W: World, H: Host>(
    alloc: Global,
    world: &mut W,
    host: &mut H,
    disk: &Minidisk,
    form: Form,
    names: &[Name],
    written: &mut Series<Name>,
) -> Result<Status, Fault>
    requires may { MayChange (W.told world.old) disk.now }
    requires begun { IsBegun (H.told host.old) }
    ensures writes { IfOk result (λ s. (m : minidisks.Minidisk)
        → Stands (W.told world.old) disk.now m
        → WritesAll form m names.now (H.told host.old)
        (H.told host.new) written.old written.new s) }
    ensures told { (m : minidisks.Minidisk) → Stands (W.told world.old) disk.now m
        → W.told world.new ≡ W.told world.old }
    ensures begun { IfOk result (λ s. IsBegun (H.told host.new)) }
    ensures files { IfOk result (λ s. SameFiles (H.told host.old) (H.told host.new)) }
    ensures cause { (m : minidisks.Minidisk) → Stands (W.told world.old) disk.now m
        → HasEnd (counts W.World H.Host world.old host.old)
        (counts W.World H.Host world.new host.new) result }
{
    let mut status = Status::Done;
    for name in names {
        match write_one(alloc, world, host, disk, form, name, written) {
            Ok(one) => status = status.and(one),
            Err(fault) => {
                host.discard();
                let word = name_word(alloc, name)?;
                return Err(say_fault(alloc, host, word.as_str(), fault));
            }
        }
    }
    Ok(status)
}

// Writes a file behind others, and gathers its name if it wasn't refused.
fn write_one<W: World, H: Host>(
    alloc: Global,
    world: &mut W,
    host: &mut H,
    disk: &Minidisk,
    form: Form,
    name: &Name,
    written: &mut Series<Name>,
) -> Result<Status, Fault>
    requires may { MayChange (W.told world.old) disk.now }
    requires begun { IsBegun (H.told host.old) }
    ensures writes { IfOk result (λ s.
        (m : minidisks.Minidisk) (xs : List names.Name) (first : Option Files)
        (before : List names.Name) (t : statuses.Status)
        → Stands (W.told world.old) disk.now m
        → WritesAll form m xs first (H.told host.old) before written.old t
        → WritesAll form m (xs ++ name.now ∷ []) first (H.told host.new) before written.new
        (both t s)) }
    ensures told { (m : minidisks.Minidisk) → Stands (W.told world.old) disk.now m
        → W.told world.new ≡ W.told world.old }
    ensures grown { Grown (W.told world.old) (W.told world.new) }
    ensures begun { IfOk result (λ s. IsBegun (H.told host.new)) }
    ensures files { IfOk result (λ s. SameFiles (H.told host.old) (H.told host.new)) }
    ensures cause { (m : minidisks.Minidisk) → Stands (W.told world.old) disk.now m
        → HasEnd (counts W.World H.Host world.old host.old)
        (counts W.World H.Host world.new host.new) result }
{
    match get_one(alloc, world, host, disk, form, Way::File, name)? {
        Status::Done => {
            written.push(*name)?;
            Ok(Status::Done)
        }
        other => Ok(other),
    }
}

// Begins a host file; where it may not be, that is said.
fn begin_file<H: Host>(alloc: Global, host: &mut H, get: &Get, file: &str) -> Result<bool, Fault>
    ensures goes { IfOk result (Begins (H.told host.old) (H.told host.new) get.now file.now) }
    ensures cause { (c : Counts) → HasCause (on_host c (H.faults host.old))
        (on_host c (H.faults host.new)) result }
{
    let same = is_same(host, file, get.image.name.text())?;
    if same {
        return bar(alloc, host, file, Refusal::IsImage);
    }
    match host.begin(file, get.replaces) {
        Ok(true) => Ok(true),
        Ok(false) => bar(alloc, host, file, Refusal::IsThere),
        Err(_) => Err(Fault::Host),
    }
}

// Says a refusal of a word, and answers false.
fn bar<H: Host>(alloc: Global, host: &mut H, word: &str, refusal: Refusal) -> Result<bool, Fault>
    ensures no { IfOk result (λ may. may ≡ false) }
    ensures files { SameFiles (H.told host.old) (H.told host.new) }
    ensures cause { (c : Counts) → HasCause (on_host c (H.faults host.old))
        (on_host c (H.faults host.new)) result }
{
    refuse(alloc, host, word, refusal)?;
    Ok(false)
}

// Gives the host file that is begun its name; where another has it meanwhile, that is said.
fn keep_file<H: Host>(alloc: Global, host: &mut H, file: &str) -> Result<bool, Fault>
    requires { IsBegun (H.told host.old) }
    ensures goes { IfOk result (Keeps (H.told host.old) (H.told host.new)) }
    ensures cause { (c : Counts) → HasCause (on_host c (H.faults host.old))
        (on_host c (H.faults host.new)) result }
{
    match host.keep() {
        Ok(true) => Ok(true),
        Ok(false) => bar(alloc, host, file, Refusal::IsThere),
        Err(_) => Err(Fault::Host),
    }
}

// Hands out each file into a host file of its own in a folder.
fn get_each<W: World, H: Host>(
    alloc: Global,
    world: &mut W,
    host: &mut H,
    disk: &Minidisk,
    get: &Get,
    folder: &str,
    names: &[Name],
) -> Result<Status, Fault>
    requires { MayChange (W.told world.old) disk.now }
    ensures goes { Continues (OnHost (H.told host.old) (H.told host.new)
        (IsGotEach (H.told host.old) get.now folder.now names.now))
        (W.told world.old) disk.now (W.told world.new) disk.now result }
    ensures cause { (m : minidisks.Minidisk) → Stands (W.told world.old) disk.now m
        → HasEnd (counts W.World H.Host world.old host.old)
        (counts W.World H.Host world.new host.new) result }
{
    let there = find_folder(alloc, host, folder)?;
    if !there {
        return Ok(Status::Refused);
    }
    get_named(alloc, world, host, disk, get, folder, names)
}

// Hands out each file into a host file of its own in a folder that is there.
fn get_named<W: World, H: Host>(
    alloc: Global,
    world: &mut W,
    host: &mut H,
    disk: &Minidisk,
    get: &Get,
    folder: &str,
    names: &[Name],
) -> Result<Status, Fault>
    requires { MayChange (W.told world.old) disk.now }
    ensures goes { Continues (OnHost (H.told host.old) (H.told host.new)
        (Goes (IsGotTo get.now folder.now) names.now)) (W.told world.old) disk.now
        (W.told world.new) disk.now result }
    ensures cause { (m : minidisks.Minidisk) → Stands (W.told world.old) disk.now m
        → HasEnd (counts W.World H.Host world.old host.old)
        (counts W.World H.Host world.new host.new) result }
{
    let mut status = Status::Done;
    for name in names {
        let path = path_of(alloc, folder, name)?;
        match get_to(alloc, world, host, disk, get, path.as_str(), name) {
            Ok(one) => status = status.and(one),
            Err(fault) => {
                host.discard();
                return Err(say_fault(alloc, host, path.as_str(), fault));
            }
        }
    }
    Ok(status)
}

// The folder of a host file.
fn folder_of(file: &str) -> &str
    ensures { result.now ≡ spec.folder_of file.now }
{
    match file.rsplit_once('/') {
        Some((folder, _)) => or_root(folder),
        None => ".",
    }
}

// The folder that stands before a stroke.
fn or_root(folder: &str) -> &str
    ensures { result.now ≡ spec.or_root folder.now }
{
    if folder.is_empty() { "/" } else { folder }
}

// Whether there is a folder; where there is none, that is said.
fn find_folder<H: Host>(alloc: Global, host: &mut H, folder: &str) -> Result<bool, Fault>
    ensures none { IfOk result (λ there. there ≡ false → HasNoFolder (H.told host.old) folder.now) }
    ensures files { IfOk result (λ there. SameFiles (H.told host.old) (H.told host.new)) }
    ensures cause { (c : Counts) → HasCause (on_host c (H.faults host.old))
        (on_host c (H.faults host.new)) result }
{
    match host.has_folder(folder) {
        Ok(true) => Ok(true),
        Ok(false) => bar(alloc, host, folder, Refusal::NoFolder),
        Err(_) => Err(Fault::Host),
    }
}

// The host file of a name in a folder: fn.ft in small letters.
fn path_of(alloc: Global, folder: &str, name: &Name) -> Result<String, AllocError>
    ensures { IfOk result (λ path. string_bytes path ≡ spec.path_of folder.now name.now) }
{
    let word = name_word(alloc, name)?;
    let last = word.as_str().to_ascii_lowercase(alloc)?;
    format!(in alloc; "{folder}/{last}")
}

// Hands out a file into a host file of its own.
fn get_to<W: World, H: Host>(
    alloc: Global,
    world: &mut W,
    host: &mut H,
    disk: &Minidisk,
    get: &Get,
    path: &str,
    name: &Name,
) -> Result<Status, Fault>
    requires { MayChange (W.told world.old) disk.now }
    ensures goes { Continues (OnHost (H.told host.old) (H.told host.new)
        (spec.IsGotAs get.now path.now name.now)) (W.told world.old) disk.now
        (W.told world.new) disk.now result }
    ensures refused { (m : minidisks.Minidisk) → Stands (W.told world.old) disk.now m
        → spec.RefusesFor (H.told host.old) get.now path.now
        (shown_in get.now.form m name.now) result }
    ensures grown { Grown (W.told world.old) (W.told world.new) }
    ensures cause { (m : minidisks.Minidisk) → Stands (W.told world.old) disk.now m
        → HasEnd (counts W.World H.Host world.old host.old)
        (counts W.World H.Host world.new host.new) result }
{
    let begun = begin_file(alloc, host, get, path)?;
    if !begun {
        return Ok(Status::Refused);
    }
    match get_one(alloc, world, host, disk, get.form, Way::File, name)? {
        Status::Done => {}
        other => {
            host.discard();
            return Ok(other);
        }
    }
    let kept = keep_file(alloc, host, path)?;
    if !kept {
        return Ok(Status::Refused);
    }
    say_name(alloc, world, name, get.says)
}

// Hands out a file; where the form can't show its records that is said, before its first byte.
fn get_one<W: World, H: Host>(
    alloc: Global,
    world: &mut W,
    host: &mut H,
    disk: &Minidisk,
    form: Form,
    way: Way,
    name: &Name,
) -> Result<Status, Fault>
    requires may { MayChange (W.told world.old) disk.now }
    requires begun { way ≡ ways.File → IsBegun (H.told host.old) }
    ensures { GetsFile W.World H.Host way form name.now disk.now world.old world.new
        host.old host.new result }
{
    match disk.find(name) {
        Some(place) => get_file(alloc, world, host, disk, form, way, name, &disk.info(place)),
        None => refuse_change(alloc, host, name, DiskFault::NotFound),
    }
}

// Hands out the file of a name, of which this is told.
fn get_file<W: World, H: Host>(
    alloc: Global,
    world: &mut W,
    host: &mut H,
    disk: &Minidisk,
    form: Form,
    way: Way,
    name: &Name,
    info: &FileInfo,
) -> Result<Status, Fault>
    requires may { MayChange (W.told world.old) disk.now }
    requires info { IsInfoOf name.now disk.now.volume info.now }
    requires begun { way ≡ ways.File → IsBegun (H.told host.old) }
    ensures { GetsFile W.World H.Host way form name.now disk.now world.old world.new
        host.old host.new result }
{
    match hand_out(alloc, world, host, disk, form, way, name, info) {
        Ok(true) => Ok(Status::Done),
        Ok(false) => refuse_lines(alloc, host, name),
        Err(fault) => Err(fault),
    }
}

// Says that a file has a record that is no line.
fn refuse_lines<H: Host>(alloc: Global, host: &mut H, name: &Name) -> Result<Status, Fault>
    ensures refused { IfOk result (λ s. s ≡ status.Refused) }
    ensures noted { OnOk result (Noted (H.told host.old) (H.told host.new)) }
    ensures files { SameFiles (H.told host.old) (H.told host.new) }
    ensures cause { (c : Counts) → HasEnd (on_host c (H.faults host.old))
        (on_host c (H.faults host.new)) result }
{
    let word = name_word(alloc, name)?;
    refuse(alloc, host, word.as_str(), Refusal::NotLines)
}
