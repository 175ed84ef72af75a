// The second pass over a file that is copied: its records are read again, and their copies are put in a draft.
ghost use Rattle.std.specs.Prelude.{◌≡◌, ◌⊎◌, ◌+◌, ◌<◌, ◌≤◌, ◌++◌, ℕ, List, [], ◌∷◌, true, length, vec_capacity, IfErr, IfOk, OnErr};
ghost use Rattle.std.specs.Option.{ForSome};
ghost use Rattle.cms_journal.specs.Journal.{HasBlocks};
ghost use Rattle.cms_journal.specs.Told.{Told};
ghost use Rattle.cms_fields.specs.Limits.{longest_record};
ghost use Rattle.cms_model.specs.Minidisks as minidisks;
ghost use Rattle.cms_held.specs.BlockWriters.{CanWrite};
ghost use Rattle.cms_fields.specs.declared.time.Stamp as stamps;
ghost use Rattle.cms_model.specs.Changes as model;
ghost use Rattle.cms_disk.specs.Cursors as cursors;
ghost use Rattle.cms_disk.specs.Cursors.{SameFile};
ghost use Rattle.cms_disk.specs.Disks.{Accessed};
ghost use Rattle.cms_disk.specs.Drafts.{GoesOn, IsSameDraft};
ghost use Rattle.cms_world.specs.Seen.{ChangesUnits, seen};
ghost use Rattle.cms_copyfile.specs.Copies.{CopiedTo, CopiesFrom, FailsOn, IsDevices, IsRun, KeepsAll, PutsAhead, PutsCopies, copies_from, copies_to};
ghost use Rattle.cms_copyfile.specs.Outputs.{copies_in};
ghost use Rattle.cms_copyfile.specs.Records.{longest_fit};
ghost use Rattle.cms_copyfile.specs.declared.second_pass.CopyFault.TheVariants.{Altered, Write};

use crate::output::CopyPlan;
use crate::put::put_copy;
use crate::record::copy_record;
use cms_disk::{Cursor, DiskFault, put_run};
use cms_edf::{Draft, DraftShape};
use cms_names::Format;
use cms_world::World;

/// Why the copies of a file aren't put.
#[derive(Clone, Copy)]
pub enum CopyFault {
    /// the device of the file failed
    Read,
    /// the device of the draft failed
    Write,
    /// the records aren't those that were measured
    Altered,
}

// Puts the copy of the record at a place, where it is copied.
fn put_nth<W: World>(
    world: &mut W,
    plan: &CopyPlan,
    place: u32,
    text: &[u8],
    buffer: &mut Vec<u8>,
    draft: &mut Draft,
) -> Result<(), CopyFault>
    requires room { longest_fit plan.now.style.fit (length text.now) ≤ vec_capacity buffer.old }
    requires ready { ForSome (W.told world.old) (λ j. CanWrite j.units draft.old.writer.writer) }
    ensures puts { (start : Told) (d : Accessed) (m : minidisks.Minidisk) (change : model.Change)
        (stamp : stamps.Stamp)
        (front rest : List (List ℕ)) → length front ≡ place → place < plan.now.wanted
        → GoesOn start (W.told world.old) d m draft.old change stamp (copies_to plan.now front)
        (copies_from plan.now place (text.now ∷ rest))
        → PutsCopies start (W.told world.new) d m draft.new change stamp
        (copies_to plan.now (front ++ text.now ∷ []))
        (copies_from plan.now (place + 1) rest) result }
    ensures capacity { vec_capacity buffer.old ≤ vec_capacity buffer.new }
    ensures same { IsSameDraft draft.old draft.new }
    ensures still { ForSome (W.told world.new) (λ j. CanWrite j.units draft.new.writer.writer) }
    ensures fault { IfErr result (λ e. (e ≡ Write) ⊎ (e ≡ Altered)) }
    ensures changes { ChangesUnits (seen W.World world.old)
        (seen W.World world.new) IsDevices result }
{
    if place < plan.skipped {
        return Ok(());
    }
    let kept = plan.style.keeps(text.len());
    if !kept {
        copy_record(buffer, &plan.style, text);
    }
    let copy = if kept { text } else { buffer.as_slice() };
    match put_copy(world, draft, copy) {
        Ok(()) => Ok(()),
        Err(fault) => match fault {
            DiskFault::Altered => Err(CopyFault::Altered),
            _ => Err(CopyFault::Write),
        },
    }
}

// Whether each record as long as those of a file of this shape is its own copy, from a place on.
fn keeps_all(plan: &CopyPlan, shape: &DraftShape, place: u32) -> bool
    ensures { result ≡ true → KeepsAll plan.now shape.now place }
{
    match shape.format {
        Format::F => place >= plan.skipped && plan.style.keeps(shape.length as usize),
        Format::V => false,
    }
}

// How many records from a place on are put at once. The last that is wanted, or left, is none of them.
fn run_ahead(cursor: &Cursor, plan: &CopyPlan, place: u32, draft: &Draft) -> u32
    requires { place < plan.now.wanted }
    ensures { 1 ≤ result → IsRun plan.now draft.now cursor.now place result }
{
    let shape = draft.shape();
    if !keeps_all(plan, shape, place) {
        return 0;
    }
    let most = cursor.left().min(plan.wanted - place).saturating_sub(1);
    cursor.ahead(shape.length, most.min(draft.records_left()))
}

// Puts the records from a place on that lie whole in the block that was read last, where each is its own copy. The last that is wanted,
// or left, is none of them.
fn put_ahead<W: World>(
    world: &mut W,
    cursor: &mut Cursor,
    plan: &CopyPlan,
    place: u32,
    draft: &mut Draft,
) -> Result<u32, CopyFault>
    requires wanted { place < plan.now.wanted }
    requires ready { ForSome (W.told world.old) (λ j. CanWrite j.units draft.old.writer.writer) }
    ensures puts { (start : Told) (d : Accessed) (m : minidisks.Minidisk) (change : model.Change)
        (stamp : stamps.Stamp) (first : cursors.Cursor) (records : List (List ℕ))
        → CopiedTo start (W.told world.old) d m draft.old change stamp plan.now
        first cursor.old records place
        → PutsAhead start (W.told world.new) d m draft.new change stamp plan.now
        first cursor.new records place result }
    ensures wanted { IfOk result (λ n. place + n < plan.now.wanted) }
    ensures behind { (cursor.new ≡ cursor.old) ⊎ (1 ≤ cursor.new.left) }
    ensures stays { OnErr result (cursor.new ≡ cursor.old) }
    ensures file { SameFile cursor.old cursor.new }
    ensures same { IsSameDraft draft.old draft.new }
    ensures still { ForSome (W.told world.new) (λ j. CanWrite j.units draft.new.writer.writer) }
    ensures fault { IfErr result (λ e. e ≡ Write) }
    ensures changes { ChangesUnits (seen W.World world.old)
        (seen W.World world.new) IsDevices result }
{
    let count = run_ahead(cursor, plan, place, draft);
    if count == 0 {
        return Ok(0);
    }
    let size = draft.shape().length;
    let bytes = cursor.run(size, count);
    if bytes.len() > draft.bytes_left() as usize {
        return Ok(0);
    }
    match put_run(world, draft, bytes, count) {
        Ok(()) => {
            cursor.pass(size, count);
            Ok(count)
        }
        Err(_) => Err(CopyFault::Write),
    }
}

// The place behind the last record that is wanted.
fn end_of(plan: &CopyPlan) -> u32
    ensures { result ≡ plan.now.wanted }
{
    plan.wanted
}

/// Reads the records that are wanted, and puts their copies in a draft. It takes no memory: the buffer has room for each copy.
///
/// `Read` says that the device of the file failed, and the draft has the copies of all records that were read; `Write` that the device of
/// the draft did, and no read failed. `Altered` says that they aren't the records that were measured, which is never in a world that tells
/// its journal. Behind a fault the draft is of no more use, and its minidisk is as before.
pub fn put_copies<W: World>(
    world: &mut W,
    cursor: &mut Cursor,
    plan: &CopyPlan,
    buffer: &mut Vec<u8>,
    draft: &mut Draft,
) -> Result<(), CopyFault>
    requires blocks { ForSome (W.told world.old)
        (λ j. HasBlocks j.units cursor.old.unit cursor.old.total cursor.old.bsize) }
    requires short { cursor.old.begun.longest ≤ longest_record }
    requires room { longest_fit plan.now.style.fit cursor.old.begun.longest
        ≤ vec_capacity buffer.old }
    requires ready { ForSome (W.told world.old) (λ j. CanWrite j.units draft.old.writer.writer) }
    ensures puts { (start : Told) (d : Accessed) (m : minidisks.Minidisk) (change : model.Change)
        (stamp : stamps.Stamp)
        (records : List (List ℕ))
        → CopiesFrom start (W.told world.old) d m draft.old change stamp plan.now cursor.old records
        → PutsCopies start (W.told world.new) d m draft.new change stamp
        (copies_in plan.now records) [] result }
    ensures unit { (start : Told) (d : Accessed) (m : minidisks.Minidisk) (change : model.Change)
        (stamp : stamps.Stamp) (records : List (List ℕ))
        → CopiesFrom start (W.told world.old) d m draft.old change stamp plan.now cursor.old records
        → FailsOn start (W.told world.new) d m draft.new change stamp plan.now
        cursor.old cursor.new records result }
    ensures capacity { vec_capacity buffer.old ≤ vec_capacity buffer.new }
    ensures same { IsSameDraft draft.old draft.new }
    ensures still { ForSome (W.told world.new) (λ j. CanWrite j.units draft.new.writer.writer) }
    ensures changes { ChangesUnits (seen W.World world.old)
        (seen W.World world.new) IsDevices result }
{
    let end = end_of(plan);
    let mut place = 0;
    'copies: while place < end {
        place += put_ahead(world, cursor, plan, place, draft)?;
        match cursor.next(world) {
            Ok(true) => put_nth(world, plan, place, cursor.text(), buffer, draft)?,
            Ok(false) => return Ok(()),
            Err(fault) => match fault {
                DiskFault::Altered => return Err(CopyFault::Altered),
                _ => return Err(CopyFault::Read),
            },
        }
        place += 1;
    }
    Ok(())
}
