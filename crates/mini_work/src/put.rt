// Host files are put into an image.
ghost use Rattle.std.specs.Prelude.{◌≡◌, ◌≤◌, ℕ, List, [], true, false, None, Some, Ok, IfOk};
ghost use Rattle.std.specs.Option.{ForSome};
ghost use Rattle.cms_journal.specs.Told.{Grown, Told};
ghost use Rattle.cms_journal.specs.declared.event.Access.TheVariants.{ReadWrite};
ghost use Rattle.cms_fields.specs.Offsets.{IsOffset};
ghost use Rattle.cms_fields.specs.Stamps.{is_stamp};
ghost use Rattle.cms_fields.specs.declared.time.Stamp as stamps;
ghost use Rattle.cms_model.specs.Changes as model;
ghost use Rattle.cms_model.specs.Changes.{file_named};
ghost use Rattle.cms_model.specs.Minidisks as minidisks;
ghost use Rattle.cms_held.specs.BlockWriters.{CanWrite};
ghost use Rattle.cms_held.specs.FileWriters.{Drafts};
ghost use Rattle.cms_held.specs.Drafts.{Front};
ghost use Rattle.cms_edf.specs.FileDrafts.{IsSomeDraft};
ghost use Rattle.cms_disk.specs.Disks.{Accessed, place_of};
ghost use Rattle.cms_disk.specs.Drafts.{GoesOn, IsFull, IsSameDraft};
ghost use Rattle.cms_copyfile.specs.Measures.{measured};
ghost use Rattle.mini_forms.specs.Readers.{IsSize};
ghost use Rattle.mini_forms.specs.RecordReads.{records_in, size_in, start_of};
ghost use Rattle.mini_host.specs.Files.{Files};
ghost use Rattle.mini_host.specs.declared.content.HostFile as hosts;
ghost use Rattle.mini_work.specs.Causes.{Counts, HasCause, HasEnd, counts, on_host};
ghost use Rattle.mini_work.specs.Changes.{IsChange};
ghost use Rattle.mini_work.specs.Drafts.{Begins, FillsSo, IsMeasuredFor, IsShapeOf, IsThere};
ghost use Rattle.mini_work.specs.CommandActs.{Continues, Goes, MayChange};
ghost use Rattle.mini_work.specs.OpenedImages.{HasRoom, IsNew};
ghost use Rattle.mini_work.specs.Layouts as layouts;
ghost use Rattle.mini_work.specs.Puts as spec;
ghost use Rattle.mini_work.specs.HostTold.{SameFiles, files_in};
ghost use Rattle.mini_work.specs.FilePuts.{FindsRefusal, IsReady, PutsFile};
ghost use Rattle.mini_work.specs.Puts.{IsPut, IsPutting};
ghost use Rattle.mini_work.specs.HostRecords.{IsOpen};
ghost use Rattle.mini_work.specs.Output.{name_line};
ghost use Rattle.mini_work.specs.Stands.{Stands};
ghost use Rattle.mini_work.specs.Commands.{IsWorked};

use crate::block_size::{is_same, open_file};
use crate::change::refuse_change;
use crate::clock::ask_clock;
use crate::fault::Fault;
use crate::host_records::{FileFault, form_of, measure_file, put_records};
use crate::opened_image::open_disk;
use crate::output::{refuse, say_fault, say_name};
use crate::status::Status;
use cms_copyfile::{Measure, shape_of};
use cms_disk::{Draft, DraftShape, Minidisk};
use cms_fields::Stamp;
use cms_names::Name;
use cms_world::{Access, ImageName, World};
use mini_forms::{Layout, Reader};
use mini_host::{Host, Refusal};
use mini_words::{Put, name};
use std::alloc::Global;

/// Puts host files into an image, each as an update.
pub(crate) fn put<W: World, H: Host>(
    alloc: Global,
    world: &mut W,
    host: &mut H,
    put: &Put,
) -> Result<Status, Fault>
    requires room { HasRoom (W.told world.old) }
    requires offset { IsOffset put.now.offset }
    requires number { put.now.number ≤ 6 }
    requires size { IsSize (size_in (start_of put.now.layout)) }
    ensures goes { (files : List hosts.HostFile) → files_in (H.told host.old) ≡ Some files
        → IsNew (W.told world.old)
        → IsWorked put.now.image.name ReadWrite (IsPutting files put.now)
        (W.told world.new) result }
    ensures cause { HasEnd (counts W.World H.Host world.old host.old)
        (counts W.World H.Host world.new host.new) result }
{
    match open_disk(alloc, world, host, &put.image, Access::ReadWrite)? {
        Some(mut disk) => {
            let done = put_timed(alloc, world, host, &mut disk, put);
            drop(disk);
            done
        }
        None => Ok(Status::Refused),
    }
}

// Asks the clock, and puts host files with that stamp.
fn put_timed<W: World, H: Host>(
    alloc: Global,
    world: &mut W,
    host: &mut H,
    disk: &mut Minidisk,
    put: &Put,
) -> Result<Status, Fault>
    requires offset { IsOffset put.now.offset }
    requires number { put.now.number ≤ 6 }
    requires size { IsSize (size_in (start_of put.now.layout)) }
    requires may { MayChange (W.told world.old) disk.old }
    ensures goes { (files : List hosts.HostFile) → files_in (H.told host.old) ≡ Some files
        → Continues (IsPutting files put.now) (W.told world.old) disk.old
        (W.told world.new) disk.new result }
    ensures cause { disk.old.writable ≡ true
        → HasEnd (counts W.World H.Host world.old host.old)
        (counts W.World H.Host world.new host.new) result }
{
    let stamp = ask_clock(world, put.offset)?;
    put_all(alloc, world, host, disk, put, put.files.as_slice(), &stamp)
}

// Puts host files one after another.
fn put_all<W: World, H: Host>(
    alloc: Global,
    world: &mut W,
    host: &mut H,
    disk: &mut Minidisk,
    put: &Put,
    words: &[ImageName],
    stamp: &Stamp,
) -> Result<Status, Fault>
    requires stamp { is_stamp stamp.now ≡ true }
    requires number { put.now.number ≤ 6 }
    requires size { IsSize (size_in (start_of put.now.layout)) }
    requires may { MayChange (W.told world.old) disk.old }
    ensures goes { (files : List hosts.HostFile) → files_in (H.told host.old) ≡ Some files
        → Continues (Goes (IsPut files put.now stamp.now) words.now) (W.told world.old) disk.old
        (W.told world.new) disk.new result }
    ensures cause { disk.old.writable ≡ true
        → HasEnd (counts W.World H.Host world.old host.old)
        (counts W.World H.Host world.new host.new) result }
{
    let mut status = Status::Done;
    for word in words {
        match put_one(alloc, world, host, disk, put, word.text(), stamp) {
            Ok(one) => status = status.and(one),
            Err(fault) => return Err(say_fault(alloc, host, word.text(), fault)),
        }
    }
    Ok(status)
}

// Puts a host file.
fn put_one<W: World, H: Host>(
    alloc: Global,
    world: &mut W,
    host: &mut H,
    disk: &mut Minidisk,
    put: &Put,
    file: &str,
    stamp: &Stamp,
) -> Result<Status, Fault>
    requires stamp { is_stamp stamp.now ≡ true }
    requires number { put.now.number ≤ 6 }
    requires size { IsSize (size_in (start_of put.now.layout)) }
    requires may { MayChange (W.told world.old) disk.old }
    ensures { PutsFile W.World H.Host put.now stamp.now file.now world.old world.new
        host.old host.new disk.old disk.new result }
{
    match name_for(put, file) {
        Some(name) => put_as(alloc, world, host, disk, put, file, &name, stamp),
        None => refuse(alloc, host, file, Refusal::NoName),
    }
}

// Puts a host file as the file of a name.
fn put_as<W: World, H: Host>(
    alloc: Global,
    world: &mut W,
    host: &mut H,
    disk: &mut Minidisk,
    put: &Put,
    file: &str,
    name: &Name,
    stamp: &Stamp,
) -> Result<Status, Fault>
    requires stamp { is_stamp stamp.now ≡ true }
    requires number { put.now.number ≤ 6 }
    requires size { IsSize (size_in (start_of put.now.layout)) }
    requires may { MayChange (W.told world.old) disk.old }
    requires named { spec.name_for put.now.name file.now ≡ Some name.now }
    ensures { PutsFile W.World H.Host put.now stamp.now file.now world.old world.new
        host.old host.new disk.old disk.new result }
{
    match find_refusal(host, disk, put, file, name)? {
        Some(refusal) => refuse(alloc, host, file, refusal),
        None => put_named(alloc, world, host, disk, put, file, name, stamp),
    }
}

// Puts the host file that is open as the file of a name.
fn put_named<W: World, H: Host>(
    alloc: Global,
    world: &mut W,
    host: &mut H,
    disk: &mut Minidisk,
    put: &Put,
    file: &str,
    name: &Name,
    stamp: &Stamp,
) -> Result<Status, Fault>
    requires stamp { is_stamp stamp.now ≡ true }
    requires number { put.now.number ≤ 6 }
    requires size { IsSize (size_in (start_of put.now.layout)) }
    requires may { MayChange (W.told world.old) disk.old }
    requires named { spec.name_for put.now.name file.now ≡ Some name.now }
    requires over { put.now.replaces ≡ false → place_of name.now disk.old.volume ≡ None }
    requires ready { IsReady file.now (H.told host.old) }
    ensures { PutsFile W.World H.Host put.now stamp.now file.now world.old world.new
        host.old host.new disk.old disk.new result }
{
    match measure_file(alloc, host, put.layout) {
        Ok(measure) => put_measured(alloc, world, host, disk, put, file, name, stamp, &measure),
        Err(FileFault::Form(why)) => refuse(alloc, host, file, Refusal::BadForm(why)),
        Err(FileFault::Changed) => refuse(alloc, host, file, Refusal::Changed),
        Err(FileFault::Fault(fault)) => Err(fault),
    }
}

// The name that a host file gets: the one that was said, or what stands before the dot of its last component and behind it.
fn name_for(put: &Put, file: &str) -> Option<Name>
    ensures { result ≡ spec.name_for put.now.name file.now }
{
    match put.name {
        Some(name) => Some(name),
        None => name(last_part(file)),
    }
}

// What stands behind the last stroke of a host file's name, or all of it.
fn last_part(file: &str) -> &str
    ensures { result.now ≡ spec.last_part file.now }
{
    match file.rsplit_once('/') {
        Some((_, last)) => last,
        None => file,
    }
}

// Why a host file isn't put that isn't read yet, if for something; else it is open.
fn find_refusal<H: Host>(
    host: &mut H,
    disk: &Minidisk,
    put: &Put,
    file: &str,
    name: &Name,
) -> Result<Option<Refusal>, Fault>
    requires { spec.name_for put.now.name file.now ≡ Some name.now }
    ensures finds { IfOk result (FindsRefusal put.now file.now disk.now
        (H.told host.old) (H.told host.new)) }
    ensures over { IfOk result (λ found. found ≡ None → put.now.replaces ≡ false
        → place_of name.now disk.now.volume ≡ None) }
    ensures files { SameFiles (H.told host.old) (H.told host.new) }
    ensures cause { (c : Counts) → HasCause (on_host c (H.faults host.old))
        (on_host c (H.faults host.new)) result }
{
    if disk.has(name) && !put.replaces {
        return Ok(Some(Refusal::IsThere));
    }
    let same = is_same(host, file, put.image.name.text())?;
    if same {
        return Ok(Some(Refusal::IsImage));
    }
    let there = open_file(host, file)?;
    if !there {
        return Ok(Some(Refusal::NotThere));
    }
    Ok(None)
}

// The mode number of the file of a name, or the one that is given where none has it.
fn number_for(disk: &Minidisk, name: &Name, given: u8) -> u8
    requires { given ≤ 6 }
    ensures fits { result ≤ 6 }
    ensures number { (told : Told) (m : minidisks.Minidisk) → Stands told disk.now m
        → result ≡ spec.number_for given (file_named name.now m.files) }
{
    match disk.find(name) {
        Some(place) => disk.mode_number(place),
        None => given,
    }
}

// What the file is to be. One that is there keeps its mode number.
fn shape_for(
    disk: &Minidisk,
    put: &Put,
    name: &Name,
    stamp: &Stamp,
    measure: &Measure,
) -> DraftShape
    requires { put.now.number ≤ 6 }
    ensures shape { (records : List (List ℕ))
        → measure.now ≡ measured (layouts.format_of put.now.layout) records
        → IsShapeOf put.now.layout records stamp.now result }
    ensures fits { (records : List (List ℕ))
        → measure.now ≡ measured (layouts.format_of put.now.layout) records → result.number ≤ 6 }
    ensures number { (records : List (List ℕ))
        → measure.now ≡ measured (layouts.format_of put.now.layout) records
        → (told : Told) (m : minidisks.Minidisk) → Stands told disk.now m
        → result.number ≡ spec.number_for put.now.number (file_named name.now m.files) }
{
    let number = number_for(disk, name, put.number);
    shape_of(form_of(put.layout), number, *stamp, measure)
}

// Puts the host file that was measured as the file of a name.
fn put_measured<W: World, H: Host>(
    alloc: Global,
    world: &mut W,
    host: &mut H,
    disk: &mut Minidisk,
    put: &Put,
    file: &str,
    name: &Name,
    stamp: &Stamp,
    measure: &Measure,
) -> Result<Status, Fault>
    requires stamp { is_stamp stamp.now ≡ true }
    requires number { put.now.number ≤ 6 }
    requires size { IsSize (size_in (start_of put.now.layout)) }
    requires may { MayChange (W.told world.old) disk.old }
    requires named { spec.name_for put.now.name file.now ≡ Some name.now }
    requires over { put.now.replaces ≡ false → place_of name.now disk.old.volume ≡ None }
    requires there { IsThere (H.told host.old) file.now }
    requires measured { IsMeasuredFor (H.told host.old) file.now put.now.layout measure.now }
    ensures { PutsFile W.World H.Host put.now stamp.now file.now world.old world.new
        host.old host.new disk.old disk.new result }
{
    let there = open_file(host, file)?;
    if !there {
        return refuse(alloc, host, file, Refusal::Changed);
    }
    let shape = shape_for(disk, put, name, stamp, measure);
    match disk.draft(alloc, name, &shape, stamp) {
        Ok(draft) => put_draft(alloc, world, host, disk, put, file, name, draft),
        Err(why) => refuse_change(alloc, host, name, why),
    }
}

// Puts the records of the open host file in a draft, and makes that a file of the minidisk.
fn put_draft<W: World, H: Host>(
    alloc: Global,
    world: &mut W,
    host: &mut H,
    disk: &mut Minidisk,
    put: &Put,
    file: &str,
    name: &Name,
    mut draft: Draft,
) -> Result<Status, Fault>
    requires size { IsSize (size_in (start_of put.now.layout)) }
    requires may { MayChange (W.told world.old) disk.old }
    requires writable { disk.old.writable ≡ true }
    requires planned { IsSomeDraft disk.old.volume draft }
    requires room { 1 ≤ disk.old.spare }
    requires opened { IsOpen (H.told host.old) }
    ensures goes { (h : Files) (bytes : List ℕ) (change : model.Change) (stamp : stamps.Stamp)
        (records : List (List ℕ))
        → H.told host.old ≡ Some h → h.left ≡ Some bytes
        → records_in put.now.layout bytes ≡ Ok records
        → Begins (W.told world.old) disk.old draft change stamp records
        → Continues (IsChange change stamp put.now.says (name_line name.now))
        (W.told world.old) disk.old (W.told world.new) disk.new result }
    ensures may { MayChange (W.told world.new) disk.new }
    ensures files { SameFiles (H.told host.old) (H.told host.new) }
    ensures writable { disk.new.writable ≡ disk.old.writable }
    ensures cause { HasEnd (counts W.World H.Host world.old host.old)
        (counts W.World H.Host world.new host.new) result }
{
    let full = match fill(alloc, world, host, put.layout, &mut draft) {
        Ok(full) => full,
        Err(fault) => {
            drop(draft);
            return Err(fault);
        }
    };
    if !full {
        drop(draft);
        return refuse(alloc, host, file, Refusal::Changed);
    }
    disk.commit(world, draft)?;
    say_name(alloc, world, name, put.says)
}

// Puts the records of the open host file in a draft, and says whether it has all of its records then.
fn fill<W: World, H: Host>(
    alloc: Global,
    world: &mut W,
    host: &mut H,
    layout: Layout,
    draft: &mut Draft,
) -> Result<bool, Fault>
    requires size { IsSize (size_in (start_of layout)) }
    requires opened { IsOpen (H.told host.old) }
    requires ready { ForSome (W.told world.old) (λ j. CanWrite j.units draft.old.writer.writer) }
    ensures fills { (start : Told) (d : Accessed) (m : minidisks.Minidisk) (change : model.Change)
        (stamp : stamps.Stamp)
        (records : List (List ℕ)) (h : Files) (bytes : List ℕ)
        → GoesOn start (W.told world.old) d m draft.old change stamp [] records
        → H.told host.old ≡ Some h → h.left ≡ Some bytes → records_in layout bytes ≡ Ok records
        → FillsSo start (W.told world.new) d m draft.new change stamp records result }
    ensures full { IfOk result (λ all. all ≡ true → IsFull draft.new.writer) }
    ensures same { IsSameDraft draft.old draft.new }
    ensures grown { Grown (W.told world.old) (W.told world.new) }
    ensures files { SameFiles (H.told host.old) (H.told host.new) }
    ensures cause { HasCause (counts W.World H.Host world.old host.old)
        (counts W.World H.Host world.new host.new) result }
{
    let mut reader = Reader::new(alloc, layout)?;
    match put_records(alloc, world, host, &mut reader, draft) {
        Ok(()) => Ok(is_full(draft)),
        Err(FileFault::Fault(fault)) => Err(fault),
        Err(FileFault::Form(_)) => Ok(false),
        Err(FileFault::Changed) => Ok(false),
    }
}

// Whether a draft has all of its records.
fn is_full(draft: &Draft) -> bool
    ensures full { result ≡ true → IsFull draft.now.writer }
    ensures all { (front : Front) (records : List (List ℕ))
        → Drafts draft.now.writer front records [] → result ≡ true }
{
    if draft.records_left() != 0 {
        return false;
    }
    draft.bytes_left() == 0
}
