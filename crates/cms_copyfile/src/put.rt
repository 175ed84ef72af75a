// The second pass over a file that is copied: its copies are put.
ghost use Rattle.std.specs.Prelude.{◌≡◌, ◌⊎◌, ◌↔◌, ◌++◌, ◌≤◌, ℕ, List, [], ◌∷◌, true, false, length, Err, IsTrue, IfErr, OnOk};
ghost use Rattle.std.specs.Option.{ForSome};
ghost use Rattle.cms_journal.specs.Told.{Told};
ghost use Rattle.cms_fields.specs.Limits.{longest_record};
ghost use Rattle.cms_model.specs.Minidisks as minidisks;
ghost use Rattle.cms_model.specs.Records.{Fits, stored};
ghost use Rattle.cms_held.specs.BlockWriters.{CanWrite};
ghost use Rattle.cms_held.specs.FileWriters.{Drafts};
ghost use Rattle.cms_held.specs.Drafts.{Front};
ghost use Rattle.cms_fields.specs.declared.time.Stamp as stamps;
ghost use Rattle.cms_model.specs.Changes as model;
ghost use Rattle.cms_disk.specs.Changes.{IsDevices};
ghost use Rattle.cms_disk.specs.Disks.{Accessed};
ghost use Rattle.cms_disk.specs.Drafts.{GoesOn, HasMore, IsSameDraft, PutsRecord};
ghost use Rattle.cms_disk.specs.declared.fault.DiskFault.TheVariants.{Altered, Device};
ghost use Rattle.cms_world.specs.Seen.{ChangesUnits, seen};
ghost use Rattle.cms_copyfile.specs.Puts.{ComesNext};

use crate::measure::head_bytes;
use cms_disk::{DiskFault, put_record};
use cms_edf::{Draft, DraftShape};
use cms_fields::LONGEST_RECORD;
use cms_names::Format;
use cms_world::World;

// Whether a file of this shape may have a record.
fn fits(shape: &DraftShape, text: &[u8]) -> bool
    ensures { IsTrue result ↔ Fits shape.now.format shape.now.length text.now }
{
    match shape.format {
        Format::F => text.len() == shape.length as usize,
        Format::V => (1..=LONGEST_RECORD as usize).contains(&text.len()),
    }
}

// Whether so many bytes have room for a record as it is stored.
fn has_bytes(left: u32, format: Format, text: &[u8]) -> bool
    ensures { IsTrue result ↔ (length (stored format (text.now ∷ [])) ≤ left) }
{
    match left.checked_sub(head_bytes(format)) {
        Some(room) => text.len() <= room as usize,
        None => false,
    }
}

// Whether a record may come next in a draft.
fn may_come(draft: &Draft, text: &[u8]) -> bool
    ensures next { result ≡ true → ComesNext draft.now text.now }
    ensures none { result ≡ false → (front : Front) (done more : List (List ℕ))
        → Drafts draft.now.writer front done (text.now ∷ more) → ⊥ }
{
    let shape = draft.shape();
    if !fits(shape, text) {
        return false;
    }
    if draft.records_left() == 0 {
        return false;
    }
    has_bytes(draft.bytes_left(), shape.format, text)
}

/// Puts the next record of a draft. It takes no memory.
///
/// `Device` says that the device failed, `Altered` that the record isn't the one that was measured, which is never where the draft has the
/// records that are to come. The draft is of no more use then, and the minidisk is as before.
pub fn put_copy<W: World>(world: &mut W, draft: &mut Draft, text: &[u8]) -> Result<(), DiskFault>
    requires ready { ForSome (W.told world.old) (λ j. CanWrite j.units draft.old.writer.writer) }
    ensures puts { (start : Told) (d : Accessed) (m : minidisks.Minidisk) (change : model.Change)
        (stamp : stamps.Stamp)
        (done more : List (List ℕ))
        → GoesOn start (W.told world.old) d m draft.old change stamp done (text.now ∷ more)
        → PutsRecord start (W.told world.new) d m draft.new change stamp
        (done ++ text.now ∷ []) more result }
    ensures altered { result ≡ Err Altered → (front : Front) (done more : List (List ℕ))
        → Drafts draft.old.writer front done (text.now ∷ more) → ⊥ }
    ensures more { OnOk result (HasMore draft.old.writer draft.new.writer text.now) }
    ensures same { IsSameDraft draft.old draft.new }
    ensures still { ForSome (W.told world.new) (λ j. CanWrite j.units draft.new.writer.writer) }
    ensures fault { IfErr result (λ e. (e ≡ Device) ⊎ (e ≡ Altered)) }
    ensures changes { ChangesUnits (seen W.World world.old)
        (seen W.World world.new) IsDevices result }
{
    if !may_come(draft, text) {
        return Err(DiskFault::Altered);
    }
    put_record(world, draft, text)
}
