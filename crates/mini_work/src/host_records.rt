// The records of host files.
ghost use Rattle.std.specs.Prelude.{◌≡◌, ◌∷◌, ◌++◌, ◌<◌, ◌≤◌, ◌+◌, ℕ, List, [], length, take, Some, IfOk, IfErr, OnErr, OnOk};
ghost use Rattle.std.specs.Option.{ForSome};
ghost use Rattle.cms_journal.specs.Told.{Grown, Told};
ghost use Rattle.cms_held.specs.BlockWriters.{CanWrite};
ghost use Rattle.cms_fields.specs.declared.time.Stamp as stamps;
ghost use Rattle.cms_model.specs.Changes as model;
ghost use Rattle.cms_model.specs.Minidisks as minidisks;
ghost use Rattle.cms_disk.specs.Disks.{Accessed};
ghost use Rattle.cms_disk.specs.Drafts.{GoesOn, IsSameDraft};
ghost use Rattle.mini_forms.specs.Readers.{IsSize};
ghost use Rattle.mini_forms.specs.RecordReads.{read_from, size_in, start_of, unread};
ghost use Rattle.mini_host.specs.Files.{Files};
ghost use Rattle.mini_work.specs.Causes.{Counts, HasCause, HasFileCause, counts, on_host, on_world};
ghost use Rattle.mini_work.specs.Layouts as layouts;
ghost use Rattle.mini_work.specs.HostTold.{SameFiles};
ghost use Rattle.mini_work.specs.Layouts.{sized};
ghost use Rattle.mini_work.specs.HostRecords.{IsCounted, IsOpen, IsReadOn, Measures, MeasuresLast, MeasuresTo, PutsAll, PutsSo, PutsText};

use crate::fault::Fault;
use cms_copyfile::{FileForm, Measure, put_copy};
use cms_disk::{DiskFault, Draft};
use cms_names::Format;
use cms_world::World;
use mini_forms::{FormFault, Layout, Reader};
use mini_host::Host;
use std::alloc::{AllocError, Global};

// The bytes that are read at a time.
const ROOM: usize = 4096;

/// Why the records of a host file aren't taken.
#[derive(Clone, Copy)]
pub(crate) enum FileFault {
    /// it stands for no records
    Form(FormFault),
    /// they aren't those that were measured
    Changed,
    /// something failed
    Fault(Fault),
}

impl From<FormFault> for FileFault {
    ghost use Rattle.std.specs.Prelude.{◌≡◌};
    ghost use Rattle.mini_work.specs.declared.host_records.FileFault.TheVariants as fault;

    ghost from_gives = { λ why e. e ≡ fault.Form why };

    fn from(why: FormFault) -> FileFault {
        FileFault::Form(why)
    }
}

impl From<Fault> for FileFault {
    ghost use Rattle.std.specs.Prelude.{◌≡◌};
    ghost use Rattle.mini_work.specs.declared.host_records.FileFault.TheVariants as fault;

    ghost from_gives = { λ why e. e ≡ fault.Fault why };

    fn from(why: Fault) -> FileFault {
        FileFault::Fault(why)
    }
}

impl From<AllocError> for FileFault {
    ghost use Rattle.std.specs.Prelude.{◌≡◌};
    ghost use Rattle.mini_work.specs.declared.host_records.FileFault.TheVariants as fault;
    ghost use Rattle.mini_work.specs.declared.fault.Fault.TheVariants.{Memory};

    ghost from_gives = { λ _ e. e ≡ fault.Fault Memory };

    fn from(_want: AllocError) -> FileFault {
        FileFault::Fault(Fault::Memory)
    }
}

/// The format of the records that a layout gives, and their length at F.
pub(crate) fn form_of(layout: Layout) -> FileForm
    ensures format { result.format ≡ layouts.format_of layout }
    ensures length { result.length ≡ layouts.size_of layout }
{
    match layout {
        Layout::Text(Some(length)) | Layout::Binary(length) | Layout::Records(Some(length)) => {
            FileForm {
                format: Format::F,
                length,
            }
        }
        Layout::Text(None) | Layout::Records(None) => FileForm {
            format: Format::V,
            length: 0,
        },
    }
}

// Reads more bytes of the open host file into the front of a slice, and says how many: none are its end.
fn read_more<H: Host>(host: &mut H, into: &mut [u8]) -> Result<usize, Fault>
    requires some { 0 < length into.old }
    requires opened { IsOpen (H.told host.old) }
    ensures within { IfOk result (λ n. n ≤ length into.old) }
    ensures reads { IfOk result (λ n. (h : Files) (left : List ℕ) → H.told host.old ≡ Some h
        → h.left ≡ Some left
        → IsReadOn n left into.new h (H.told host.new)) }
    ensures rest { IfOk result (λ n. H.rest host.new + n ≤ H.rest host.old) }
    ensures opened { IsOpen (H.told host.new) }
    ensures files { SameFiles (H.told host.old) (H.told host.new) }
    ensures cause { (c : Counts) → HasCause (on_host c (H.faults host.old))
        (on_host c (H.faults host.new)) result }
{
    match host.read(into) {
        Ok(count) => Ok(count),
        Err(_) => Err(Fault::Host),
    }
}

// Measures the record that a byte makes whole, if it does.
fn measure_next(
    format: Format,
    reader: &mut Reader,
    measure: &mut Measure,
    byte: u8,
) -> Result<(), FormFault>
    requires format { format ≡ sized (size_in reader.old.place) }
    requires counted { IsCounted reader.old measure.old }
    ensures measures { OnOk result (MeasuresTo reader.old reader.new measure.old measure.new
        (byte ∷ []) []) }
    ensures fault { IfErr result (λ why. (rest : List ℕ)
        → read_from reader.old (byte ∷ rest) ≡ Err why) }
{
    let whole = reader.feed(byte)?;
    if !whole {
        return Ok(());
    }
    measure.add(format, reader.record());
    Ok(())
}

// Measures the records that bytes make whole.
fn measure_bytes(
    format: Format,
    reader: &mut Reader,
    measure: &mut Measure,
    bytes: &[u8],
) -> Result<(), FormFault>
    requires format { format ≡ sized (size_in reader.old.place) }
    requires counted { IsCounted reader.old measure.old }
    ensures measures { OnOk result (MeasuresTo reader.old reader.new measure.old measure.new
        bytes.now []) }
    ensures fault { IfErr result (λ why. (rest : List ℕ)
        → read_from reader.old (bytes.now ++ rest) ≡ Err why) }
{
    let mut place = 0;
    while place < bytes.len() {
        place = reader.skip(bytes, place);
        measure_next(format, reader, measure, bytes[place])?;
        place += 1;
    }
    Ok(())
}

// Measures the last record, if the file's end makes one whole.
fn measure_last(format: Format, reader: &mut Reader, measure: &mut Measure) -> Result<(), FormFault>
    requires format { format ≡ sized (size_in reader.old.place) }
    requires counted { IsCounted reader.old measure.old }
    ensures measures { OnOk result (MeasuresLast reader.old measure.old measure.new) }
    ensures fault { IfErr result (λ why. read_from reader.old [] ≡ Err why) }
{
    let whole = reader.end()?;
    if !whole {
        return Ok(());
    }
    measure.add(format, reader.record());
    Ok(())
}

/// Measures the records of the open host file.
pub(crate) fn measure_file<H: Host>(
    alloc: Global,
    host: &mut H,
    layout: Layout,
) -> Result<Measure, FileFault>
    requires size { IsSize (size_in (start_of layout)) }
    requires opened { IsOpen (H.told host.old) }
    ensures measures { Measures (H.told host.old) layout result }
    ensures files { SameFiles (H.told host.old) (H.told host.new) }
    ensures cause { (c : Counts) → HasFileCause (on_host c (H.faults host.old))
        (on_host c (H.faults host.new)) result }
{
    let mut reader = Reader::new(alloc, layout)?;
    let mut buffer = vec![in alloc; 0; ROOM]?;
    measure_open(host, layout, &mut reader, &mut buffer)
}

// Measures the records of the open host file, of which nothing was read yet.
fn measure_open<H: Host>(
    host: &mut H,
    layout: Layout,
    reader: &mut Reader,
    buffer: &mut [u8],
) -> Result<Measure, FileFault>
    requires room { 0 < length buffer.old }
    requires fresh { reader.old ≡ unread layout }
    requires opened { IsOpen (H.told host.old) }
    ensures measures { Measures (H.told host.old) layout result }
    ensures files { SameFiles (H.told host.old) (H.told host.new) }
    ensures cause { (c : Counts) → HasFileCause (on_host c (H.faults host.old))
        (on_host c (H.faults host.new)) result }
{
    let format = form_of(layout).format;
    let mut measure = Measure::new();
    'reads: loop {
        let count = read_more(host, buffer)?;
        if count == 0 {
            break 'reads;
        }
        measure_bytes(format, reader, &mut measure, front(buffer, count))?;
    }
    measure_last(format, reader, &mut measure)?;
    Ok(measure)
}

// The first so many of bytes.
fn front(bytes: &[u8], count: usize) -> &[u8]
    requires { count ≤ length bytes.now }
    ensures { result.now ≡ take count bytes.now }
{
    &bytes[..count]
}

// Puts a record in a draft.
fn put_text<W: World>(world: &mut W, draft: &mut Draft, text: &[u8]) -> Result<(), FileFault>
    requires ready { ForSome (W.told world.old) (λ j. CanWrite j.units draft.old.writer.writer) }
    ensures puts { (start : Told) (d : Accessed) (m : minidisks.Minidisk) (change : model.Change)
        (stamp : stamps.Stamp)
        (done more : List (List ℕ))
        → GoesOn start (W.told world.old) d m draft.old change stamp done (text.now ∷ more)
        → PutsText start (W.told world.new) d m draft.new change stamp
        (done ++ text.now ∷ []) more result }
    ensures same { IsSameDraft draft.old draft.new }
    ensures still { ForSome (W.told world.new) (λ j. CanWrite j.units draft.new.writer.writer) }
    ensures grown { Grown (W.told world.old) (W.told world.new) }
    ensures cause { (n : ℕ) → HasFileCause (on_world W.World world.old n)
        (on_world W.World world.new n) result }
{
    match put_copy(world, draft, text) {
        Ok(()) => Ok(()),
        Err(DiskFault::Altered) => Err(FileFault::Changed),
        Err(why) => Err(FileFault::Fault(why.into())),
    }
}

// Puts the record that a byte makes whole, if it does, in a draft.
fn put_next<W: World>(
    world: &mut W,
    reader: &mut Reader,
    draft: &mut Draft,
    byte: u8,
) -> Result<(), FileFault>
    requires ready { ForSome (W.told world.old) (λ j. CanWrite j.units draft.old.writer.writer) }
    ensures puts { (start : Told) (d : Accessed) (m : minidisks.Minidisk) (change : model.Change)
        (stamp : stamps.Stamp)
        (done more : List (List ℕ)) (rest : List ℕ)
        → GoesOn start (W.told world.old) d m draft.old change stamp done more
        → read_from reader.old (byte ∷ rest) ≡ Ok more
        → PutsSo start
        (W.told world.new) d m draft.new change stamp done more reader.new rest result }
    ensures same { IsSameDraft draft.old draft.new }
    ensures still { ForSome (W.told world.new) (λ j. CanWrite j.units draft.new.writer.writer) }
    ensures grown { Grown (W.told world.old) (W.told world.new) }
    ensures cause { (n : ℕ) → HasFileCause (on_world W.World world.old n)
        (on_world W.World world.new n) result }
{
    let whole = reader.feed(byte)?;
    if !whole {
        return Ok(());
    }
    put_text(world, draft, reader.record())
}

// Puts the records that bytes make whole in a draft.
fn put_bytes<W: World>(
    world: &mut W,
    reader: &mut Reader,
    draft: &mut Draft,
    bytes: &[u8],
) -> Result<(), FileFault>
    requires ready { ForSome (W.told world.old) (λ j. CanWrite j.units draft.old.writer.writer) }
    ensures puts { (start : Told) (d : Accessed) (m : minidisks.Minidisk) (change : model.Change)
        (stamp : stamps.Stamp)
        (done more : List (List ℕ)) (rest : List ℕ)
        → GoesOn start (W.told world.old) d m draft.old change stamp done more
        → read_from reader.old (bytes.now ++ rest) ≡ Ok more
        → PutsSo start
        (W.told world.new) d m draft.new change stamp done more reader.new rest result }
    ensures same { IsSameDraft draft.old draft.new }
    ensures still { ForSome (W.told world.new) (λ j. CanWrite j.units draft.new.writer.writer) }
    ensures grown { Grown (W.told world.old) (W.told world.new) }
    ensures cause { (n : ℕ) → HasFileCause (on_world W.World world.old n)
        (on_world W.World world.new n) result }
{
    let mut place = 0;
    while place < bytes.len() {
        place = reader.skip(bytes, place);
        put_next(world, reader, draft, bytes[place])?;
        place += 1;
    }
    Ok(())
}

// Puts the last record in a draft, if the file's end makes one whole.
fn put_last<W: World>(
    world: &mut W,
    reader: &mut Reader,
    draft: &mut Draft,
) -> Result<(), FileFault>
    requires ready { ForSome (W.told world.old) (λ j. CanWrite j.units draft.old.writer.writer) }
    ensures puts { (start : Told) (d : Accessed) (m : minidisks.Minidisk) (change : model.Change)
        (stamp : stamps.Stamp)
        (done more : List (List ℕ))
        → GoesOn start (W.told world.old) d m draft.old change stamp done more
        → read_from reader.old [] ≡ Ok more
        → PutsAll start (W.told world.new) d m draft.new change stamp (done ++ more) result }
    ensures same { IsSameDraft draft.old draft.new }
    ensures grown { Grown (W.told world.old) (W.told world.new) }
    ensures cause { (n : ℕ) → HasFileCause (on_world W.World world.old n)
        (on_world W.World world.new n) result }
{
    let whole = reader.end()?;
    if !whole {
        return Ok(());
    }
    put_text(world, draft, reader.record())
}

/// Puts the records of the open host file in a draft, behind a reader that took none of its bytes yet.
pub(crate) fn put_records<W: World, H: Host>(
    alloc: Global,
    world: &mut W,
    host: &mut H,
    reader: &mut Reader,
    draft: &mut Draft,
) -> Result<(), FileFault>
    requires opened { IsOpen (H.told host.old) }
    requires ready { ForSome (W.told world.old) (λ j. CanWrite j.units draft.old.writer.writer) }
    ensures puts { (start : Told) (d : Accessed) (m : minidisks.Minidisk) (change : model.Change)
        (stamp : stamps.Stamp)
        (records : List (List ℕ)) (h : Files) (bytes : List ℕ)
        → GoesOn start (W.told world.old) d m draft.old change stamp [] records
        → H.told host.old ≡ Some h → h.left ≡ Some bytes → read_from reader.old bytes ≡ Ok records
        → PutsAll start (W.told world.new) d m draft.new change stamp records result }
    ensures same { IsSameDraft draft.old draft.new }
    ensures grown { Grown (W.told world.old) (W.told world.new) }
    ensures files { SameFiles (H.told host.old) (H.told host.new) }
    ensures cause { HasFileCause (counts W.World H.Host world.old host.old)
        (counts W.World H.Host world.new host.new) result }
{
    let mut buffer = vec![in alloc; 0; ROOM]?;
    put_open(world, host, reader, draft, &mut buffer)
}

// Puts the records of the open host file in a draft.
fn put_open<W: World, H: Host>(
    world: &mut W,
    host: &mut H,
    reader: &mut Reader,
    draft: &mut Draft,
    buffer: &mut [u8],
) -> Result<(), FileFault>
    requires room { 0 < length buffer.old }
    requires opened { IsOpen (H.told host.old) }
    requires ready { ForSome (W.told world.old) (λ j. CanWrite j.units draft.old.writer.writer) }
    ensures puts { (start : Told) (d : Accessed) (m : minidisks.Minidisk) (change : model.Change)
        (stamp : stamps.Stamp)
        (records : List (List ℕ)) (h : Files) (bytes : List ℕ)
        → GoesOn start (W.told world.old) d m draft.old change stamp [] records
        → H.told host.old ≡ Some h → h.left ≡ Some bytes → read_from reader.old bytes ≡ Ok records
        → PutsAll start (W.told world.new) d m draft.new change stamp records result }
    ensures same { IsSameDraft draft.old draft.new }
    ensures grown { Grown (W.told world.old) (W.told world.new) }
    ensures files { SameFiles (H.told host.old) (H.told host.new) }
    ensures cause { HasFileCause (counts W.World H.Host world.old host.old)
        (counts W.World H.Host world.new host.new) result }
{
    'reads: loop {
        let count = read_more(host, buffer)?;
        if count == 0 {
            break 'reads;
        }
        put_bytes(world, reader, draft, front(buffer, count))?;
    }
    put_last(world, reader, draft)
}
