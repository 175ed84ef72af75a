// Copies that are written as a file.
ghost use Rattle.std.specs.Prelude.{◌≡◌, ◌≢◌, ◌≤◌, None, true, vec_capacity, IfSome, IsSome};
ghost use Rattle.std.specs.Option.{ForSome};
ghost use Rattle.cms_journal.specs.Journal.{HasBlocks};
ghost use Rattle.cms_fields.specs.Limits.{longest_record};
ghost use Rattle.cms_fields.specs.Stamps.{is_stamp};
ghost use Rattle.cms_search.specs.Drafts.{MayCommit};
ghost use Rattle.cms_search.specs.Searches.{item_at};
ghost use Rattle.cms_world.specs.Seen.{seen};
ghost use Rattle.cms_copyfile.specs.Drafts.{CopyFailsOn, FillFailsOn, FillsSeat, FinishesSeat, MayWrite, PlansSeat, WritesSeat};
ghost use Rattle.cms_copyfile.specs.Records.{longest_fit};
ghost use Rattle.cms_copyfile.specs.declared.draft.Written.TheVariants.{Unread};

use crate::output::CopyPlan;
use crate::second_pass::{CopyFault, put_copies};
use cms_disk::{Cursor, DiskFault, Draft, DraftShape};
use cms_fields::Stamp;
use cms_names::Name;
use cms_search::AccessTable;
use cms_world::World;
use std::alloc::Global;

/// What becomes of the file of the output's name.
#[derive(Clone, Copy)]
pub enum CopyWrite {
    /// a file of the copies takes its place, or stands last
    Whole,
    /// the copies are added to it
    Added,
}

/// A file that is to be written, and where.
#[derive(Clone, Copy)]
pub struct CopyTarget {
    /// the letter of its disk, A is 0
    pub letter: u8,
    pub name: Name,
    /// the place of the file of that name, if it is there already
    pub there: Option<u32>,
    pub write: CopyWrite,
    /// that of the whole file
    pub shape: DraftShape,
    /// that of the directory then
    pub stamp: Stamp,
}

/// What writing copies came to.
#[derive(Clone, Copy)]
pub enum Written {
    /// the update of the output's disk came to this
    Came(Result<(), DiskFault>),
    /// the device of the input failed; the output's disk is as before
    Unread,
    /// the input's records aren't those that were measured; the output's disk is as before
    Altered,
}

// Makes a draft a file of the disk of a letter, where it has all its records.
fn finish<W: World>(world: &mut W, table: &mut AccessTable, letter: u8, draft: Draft) -> Written
    requires accessed { IsSome (item_at table.old.seats letter) }
    requires may { ForSome (item_at table.old.seats letter)
        (λ s. MayCommit (W.told world.old) s.disk draft) }
    requires unread { ForSome (item_at table.old.seats letter) (λ s. s.reading ≡ None) }
    ensures finishes { IfSome (item_at table.old.seats letter) (λ s. FinishesSeat
        (seen W.World world.old)
        (seen W.World world.new) table.old table.new letter s draft result) }
    ensures read { result ≢ Unread }
{
    if draft.records_left() != 0 {
        drop(draft);
        return Written::Altered;
    }
    if draft.bytes_left() != 0 {
        drop(draft);
        return Written::Altered;
    }
    Written::Came(table.commit(world, letter, draft))
}

// Reads the records that are wanted, puts their copies in a draft, and makes it a file of the disk of a letter. It takes no memory: the
// buffer has room for each copy.
fn fill<W: World>(
    world: &mut W,
    table: &mut AccessTable,
    letter: u8,
    mut draft: Draft,
    cursor: &mut Cursor,
    plan: &CopyPlan,
    buffer: &mut Vec<u8>,
) -> Written
    requires accessed { IsSome (item_at table.old.seats letter) }
    requires may { ForSome (item_at table.old.seats letter)
        (λ s. MayCommit (W.told world.old) s.disk draft) }
    requires unread { ForSome (item_at table.old.seats letter) (λ s. s.reading ≡ None) }
    requires blocks { ForSome (W.told world.old)
        (λ j. HasBlocks j.units cursor.old.unit cursor.old.total cursor.old.bsize) }
    requires short { cursor.old.begun.longest ≤ longest_record }
    requires room { longest_fit plan.now.style.fit cursor.old.begun.longest
        ≤ vec_capacity buffer.old }
    ensures fills { IfSome (item_at table.old.seats letter) (λ s. FillsSeat
        (seen W.World world.old)
        (seen W.World world.new) table.old table.new letter s draft plan.now
        cursor.old result) }
    ensures unit { ForSome (item_at table.old.seats letter) (λ s. FillFailsOn
        (W.told world.old) (W.told world.new) s.disk draft plan.now cursor.old cursor.new result) }
{
    match put_copies(world, cursor, plan, buffer, &mut draft) {
        Ok(()) => finish(world, table, letter, draft),
        Err(CopyFault::Read) => {
            drop(draft);
            Written::Unread
        }
        Err(CopyFault::Write) => {
            drop(draft);
            Written::Came(Err(DiskFault::Device))
        }
        Err(CopyFault::Altered) => {
            drop(draft);
            Written::Altered
        }
    }
}

// Plans what is written.
fn plan_target<W: World>(
    alloc: Global,
    world: &mut W,
    table: &mut AccessTable,
    to: &CopyTarget,
) -> Result<Draft, DiskFault>
    requires accessed { IsSome (item_at table.old.seats to.now.letter) }
    requires may { ForSome (item_at table.old.seats to.now.letter)
        (λ s. MayWrite (W.told world.old) s.disk to.now) }
    requires stamp { is_stamp to.now.stamp ≡ true }
    ensures { IfSome (item_at table.old.seats to.now.letter)
        (λ s. PlansSeat (seen W.World world.old) (seen W.World world.new)
        table.old table.new s to.now result) }
{
    match to.write {
        CopyWrite::Whole => {
            table.draft(alloc, to.letter, to.there, &to.name, &to.shape, &to.stamp)
        }
        CopyWrite::Added => {
            let place = to.there.unwrap();
            table.draft_more(
                alloc, world, to.letter, place, &to.name, &to.shape, &to.stamp,
            )
        }
    }
}

/// Reads the records that are wanted, and writes their copies as a file, or adds them to one. A limit and want of room come before the
/// first write. The buffer has room for each copy.
///
/// `Unread` says that the device of the input failed while the draft went on, a `Device` that came that the output's did and no read of the
/// input failed. `Altered` is never in a world that tells its journal, where the copies were measured.
pub fn write_copies<W: World>(
    alloc: Global,
    world: &mut W,
    table: &mut AccessTable,
    to: &CopyTarget,
    cursor: &mut Cursor,
    plan: &CopyPlan,
    buffer: &mut Vec<u8>,
) -> Written
    requires accessed { IsSome (item_at table.old.seats to.now.letter) }
    requires may { ForSome (item_at table.old.seats to.now.letter)
        (λ s. MayWrite (W.told world.old) s.disk to.now) }
    requires stamp { is_stamp to.now.stamp ≡ true }
    requires blocks { ForSome (W.told world.old)
        (λ j. HasBlocks j.units cursor.old.unit cursor.old.total cursor.old.bsize) }
    requires short { cursor.old.begun.longest ≤ longest_record }
    requires room { longest_fit plan.now.style.fit cursor.old.begun.longest
        ≤ vec_capacity buffer.old }
    ensures writes { IfSome (item_at table.old.seats to.now.letter) (λ s. WritesSeat
        (seen W.World world.old) (seen W.World world.new) table.old table.new s to.now plan.now
        cursor.old result) }
    ensures unit { ForSome (item_at table.old.seats to.now.letter) (λ s. CopyFailsOn
        (W.told world.old) (W.told world.new) s.disk to.now plan.now cursor.old cursor.new result) }
{
    match plan_target(alloc, world, table, to) {
        Ok(draft) => fill(world, table, to.letter, draft, cursor, plan, buffer),
        Err(fault) => Written::Came(Err(fault)),
    }
}
