// The records of a file are handed out.
ghost use Rattle.std.specs.Prelude.{◌≡◌, ◌≤◌, ℕ, List, Some, IfOk, OnOk};
ghost use Rattle.std.specs.List.{list_all};
ghost use Rattle.std.specs.Option.{ForSome};
ghost use Rattle.cms_journal.specs.Journal.{HasBlocks, Journal};
ghost use Rattle.cms_journal.specs.Told.{Grown};
ghost use Rattle.cms_fields.specs.Limits.{longest_record};
ghost use Rattle.cms_model.specs.Changes.{file_named};
ghost use Rattle.cms_model.specs.LawsUpdates.{now};
ghost use Rattle.cms_model.specs.Minidisks as minidisks;
ghost use Rattle.cms_disk.specs.Cursors.{HasLeft};
ghost use Rattle.cms_disk.specs.Disks.{IsReadable};
ghost use Rattle.mini_forms.specs.Output.{is_line, written};
ghost use Rattle.mini_work.specs.Causes.{HasCause, counts, on_world};
ghost use Rattle.mini_work.specs.HandedFiles as spec;
ghost use Rattle.mini_work.specs.FileGets.{HandsFile};
ghost use Rattle.mini_work.specs.HandedFiles.{IsBegun, IsInfoOf, Puts};
ghost use Rattle.mini_work.specs.HostTold.{SameFiles};
ghost use Rattle.mini_work.specs.Stands.{Stands};
ghost use Rattle.mini_work.specs.declared.handed_file.Way.TheVariants as ways;

use crate::fault::Fault;
use crate::output::type_bytes;
use cms_disk::{Cursor, FileInfo, Minidisk};
use cms_names::{Format, Name};
use cms_world::World;
use mini_forms::{Form, is_line, write_record};
use mini_host::Host;
use std::alloc::Global;

/// Where bytes go.
#[derive(Clone, Copy)]
pub(crate) enum Way {
    /// to standard output
    Output,
    /// behind those of the host file that is begun
    File,
}

/// Hands out the file of a name, of which this is told, if the form can show it, and says whether it can.
pub(crate) fn hand_out<W: World, H: Host>(
    alloc: Global,
    world: &mut W,
    host: &mut H,
    disk: &Minidisk,
    form: Form,
    way: Way,
    name: &Name,
    info: &FileInfo,
) -> Result<bool, Fault>
    requires blocks { ForSome (W.told world.old) (λ j. IsReadable j disk.now) }
    requires info { IsInfoOf name.now disk.now.volume info.now }
    requires begun { way ≡ ways.File → IsBegun (H.told host.old) }
    ensures { HandsFile W.World H.Host way form name.now disk.now world.old world.new
        host.old host.new result }
{
    let can = can_show(alloc, world, disk, form, name)?;
    if !can {
        return Ok(false);
    }
    let mut cursor = disk.cursor(alloc, name)?;
    let handed = hand_records(alloc, world, host, &mut cursor, form, info.format, way);
    drop(cursor);
    match handed {
        Ok(()) => Ok(true),
        Err(fault) => Err(fault),
    }
}

// Whether a form can show the records of a file.
fn can_show<W: World>(
    alloc: Global,
    world: &mut W,
    disk: &Minidisk,
    form: Form,
    name: &Name,
) -> Result<bool, Fault>
    requires blocks { ForSome (W.told world.old) (λ j. IsReadable j disk.now) }
    ensures shows { IfOk result (λ can. (m : minidisks.Minidisk) (f : minidisks.File)
        → Stands (W.told world.old) disk.now m
        → file_named name.now m.files ≡ Some f → can ≡ spec.can_show form f.records) }
    ensures told { W.told world.new ≡ W.told world.old }
    ensures cause { (m : minidisks.Minidisk) (f : minidisks.File)
        → Stands (W.told world.old) disk.now m → file_named name.now m.files ≡ Some f
        → (n : ℕ) → HasCause (on_world W.World world.old n) (on_world W.World world.new n) result }
{
    match form {
        Form::Text => {
            let mut cursor = disk.cursor(alloc, name)?;
            let lines = are_lines(world, &mut cursor);
            drop(cursor);
            lines
        }
        Form::Binary | Form::Records => Ok(true),
    }
}

// Whether each record that is left can be a line.
fn are_lines<W: World>(world: &mut W, cursor: &mut Cursor) -> Result<bool, Fault>
    requires blocks { ForSome (W.told world.old)
        (λ j. HasBlocks j.units cursor.old.unit cursor.old.total cursor.old.bsize) }
    ensures lines { IfOk result (λ all. (j : Journal) (records : List (List ℕ))
        → W.told world.old ≡ Some j
        → HasLeft (now j cursor.old.unit) cursor.old records → all ≡ list_all is_line records) }
    ensures told { W.told world.new ≡ W.told world.old }
    ensures cause { (j : Journal) (records : List (List ℕ)) → W.told world.old ≡ Some j
        → HasLeft (now j cursor.old.unit) cursor.old records
        → (n : ℕ) → HasCause (on_world W.World world.old n) (on_world W.World world.new n) result }
{
    'records: while cursor.next(world)? {
        if !is_line(cursor.text()) {
            return Ok(false);
        }
    }
    Ok(true)
}

// Hands out the records that are left of a file of this format.
fn hand_records<W: World, H: Host>(
    alloc: Global,
    world: &mut W,
    host: &mut H,
    cursor: &mut Cursor,
    form: Form,
    format: Format,
    way: Way,
) -> Result<(), Fault>
    requires blocks { ForSome (W.told world.old)
        (λ j. HasBlocks j.units cursor.old.unit cursor.old.total cursor.old.bsize) }
    requires short { cursor.old.begun.longest ≤ longest_record }
    requires begun { way ≡ ways.File → IsBegun (H.told host.old) }
    ensures puts { (j : Journal) (records : List (List ℕ)) → W.told world.old ≡ Some j
        → HasLeft (now j cursor.old.unit) cursor.old records
        → Puts way (W.told world.old) (W.told world.new) (H.told host.old) (H.told host.new)
        (written form format records) result }
    ensures grown { Grown (W.told world.old) (W.told world.new) }
    ensures files { OnOk result (SameFiles (H.told host.old) (H.told host.new)) }
    ensures begun { OnOk result (way ≡ ways.File → IsBegun (H.told host.new)) }
    ensures cause { (j : Journal) (records : List (List ℕ)) → W.told world.old ≡ Some j
        → HasLeft (now j cursor.old.unit) cursor.old records
        → HasCause (counts W.World H.Host world.old host.old)
        (counts W.World H.Host world.new host.new) result }
{
    let mut buffer = Vec::new(alloc);
    'records: while cursor.next(world)? {
        buffer.clear();
        write_record(&mut buffer, form, format, cursor.text())?;
        put_out(world, host, way, &buffer)?;
    }
    Ok(())
}

// Puts bytes out.
fn put_out<W: World, H: Host>(
    world: &mut W,
    host: &mut H,
    way: Way,
    bytes: &[u8],
) -> Result<(), Fault>
    requires begun { way ≡ ways.File → IsBegun (H.told host.old) }
    ensures puts { Puts way (W.told world.old) (W.told world.new) (H.told host.old)
        (H.told host.new) bytes.now result }
    ensures begun { way ≡ ways.File → IsBegun (H.told host.new) }
    ensures cause { HasCause (counts W.World H.Host world.old host.old)
        (counts W.World H.Host world.new host.new) result }
{
    match way {
        Way::Output => type_bytes(world, bytes),
        Way::File => match host.write(bytes) {
            Ok(()) => Ok(()),
            Err(_) => Err(Fault::Host),
        },
    }
}
