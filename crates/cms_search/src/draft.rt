// Files that are drafted for the disks of letters.
ghost use Rattle.std.specs.Prelude.{◌≡◌, true, IfSome, IsSome};
ghost use Rattle.std.specs.Option.{ForSome};
ghost use Rattle.cms_fields.specs.Stamps.{is_stamp};
ghost use Rattle.cms_world.specs.Seen.{seen};
ghost use Rattle.cms_edf.specs.FileDrafts.{CanDraft};
ghost use Rattle.cms_disk.specs.Disks.{place_of};
ghost use Rattle.cms_disk.specs.Drafts.{IsFull};
ghost use Rattle.cms_search.specs.Drafts.{CommitsSeat, CommitsTo, DraftsMoreSeat, DraftsSeat, MayCommit, MayDraftMore};
ghost use Rattle.cms_search.specs.Searches.{item_at};

use crate::table::AccessTable;
use cms_disk::{DiskFault, Draft, DraftShape, Minidisk};
use cms_fields::Stamp;
use cms_names::Name;
use cms_world::World;
use std::alloc::Global;

// Makes a drafted file a minidisk's.
fn commit_draft<W: World>(world: &mut W, disk: &mut Minidisk, draft: Draft) -> Result<(), DiskFault>
    requires may { MayCommit (W.told world.old) disk.old draft }
    requires full { IsFull draft.writer }
    ensures { CommitsTo (seen W.World world.old)
        (seen W.World world.new) disk.old disk.new draft result }
{
    disk.commit(world, draft)
}

impl AccessTable {
    /// Plans a file for the disk of an accessed letter, where the place of the file of that name is known, or that there is none, as
    /// `Minidisk`'s call does. Nothing is written, and the disk stays as it is.
    pub fn draft(
        &mut self,
        alloc: Global,
        letter: u8,
        there: Option<u32>,
        name: &Name,
        shape: &DraftShape,
        stamp: &Stamp,
    ) -> Result<Draft, DiskFault>
        requires accessed { IsSome (item_at self.old.seats letter) }
        requires stamp { is_stamp stamp.now ≡ true }
        requires shape { CanDraft shape.now }
        requires there { ForSome (item_at self.old.seats letter)
            (λ s. there ≡ place_of name.now s.disk.volume) }
        ensures { IfSome (item_at self.old.seats letter)
            (λ s. DraftsSeat self.old self.new letter s name.now shape.now stamp.now result) }
    {
        match &mut self.seats[letter as usize] {
            Some(seat) => {
                drop(seat.reading.take());
                seat.disk.draft_at(alloc, there, name, shape, stamp)
            }
            None => unreachable!(),
        }
    }

    /// Plans the addition of records to the file of a name on the disk of an accessed letter, which has this place, as `Minidisk`'s call
    /// does. Nothing is written, and the disk stays as it is.
    pub fn draft_more<W: World>(
        &mut self,
        alloc: Global,
        world: &mut W,
        letter: u8,
        place: u32,
        name: &Name,
        shape: &DraftShape,
        stamp: &Stamp,
    ) -> Result<Draft, DiskFault>
        requires accessed { IsSome (item_at self.old.seats letter) }
        requires may { ForSome (item_at self.old.seats letter)
            (λ s. MayDraftMore (W.told world.old) s.disk place name.now shape.now) }
        requires stamp { is_stamp stamp.now ≡ true }
        ensures { IfSome (item_at self.old.seats letter)
            (λ s. DraftsMoreSeat (seen W.World world.old) (seen W.World world.new)
            self.old self.new letter s name.now shape.now stamp.now result) }
    {
        match &mut self.seats[letter as usize] {
            Some(seat) => {
                drop(seat.reading.take());
                seat.disk
                    .draft_more_at(alloc, world, place, name, shape, stamp)
            }
            None => unreachable!(),
        }
    }

    /// Makes a drafted file, whose records were all put, one of the disk of an accessed letter, as `Minidisk`'s call does.
    pub fn commit<W: World>(
        &mut self,
        world: &mut W,
        letter: u8,
        draft: Draft,
    ) -> Result<(), DiskFault>
        requires accessed { IsSome (item_at self.old.seats letter) }
        requires may { ForSome (item_at self.old.seats letter)
            (λ s. MayCommit (W.told world.old) s.disk draft) }
        requires full { IsFull draft.writer }
        ensures { IfSome (item_at self.old.seats letter)
            (λ s. CommitsSeat (seen W.World world.old) (seen W.World world.new)
            self.old self.new letter s draft result) }
    {
        match &mut self.seats[letter as usize] {
            Some(seat) => {
                drop(seat.reading.take());
                commit_draft(world, &mut seat.disk, draft)
            }
            None => unreachable!(),
        }
    }
}
