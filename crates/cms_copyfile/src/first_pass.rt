// The copies of a file are measured: as its disk tells them, or else by a first pass over it.
ghost use Rattle.std.specs.Prelude.{◌≡◌, ◌⊎◌, ◌+◌, ◌*◌, ◌^◌, ◌<◌, ◌≤◌, ◌++◌, ℕ, List, [], ◌∷◌, drop, length, map, take, vec_capacity, All, Some, IfOk, IfErr, OnOk};
ghost use Rattle.std.specs.Option.{ForSome};
ghost use Rattle.cms_journal.specs.Journal.{HasBlocks, contents_of};
ghost use Rattle.cms_fields.specs.Limits.{longest_record};
ghost use Rattle.cms_names.specs.declared.name.Format.TheVariants.{V};
ghost use Rattle.cms_model.specs.Records.{Fits};
ghost use Rattle.cms_model.specs.Trees.{image_of};
ghost use Rattle.cms_edf.specs.OpeningSteps.{OfImage};
ghost use Rattle.cms_disk.specs.Cursors.{HasLeft};
ghost use Rattle.cms_disk.specs.Disks.{IsFileInfo};
ghost use Rattle.cms_disk.specs.declared.fault.DiskFault.TheVariants.{Altered, Device};
ghost use Rattle.cms_files.specs.Files.{UnitFile};
ghost use Rattle.cms_files.specs.Told.{info_named, place_named};
ghost use Rattle.cms_world.specs.Seen.{OnlyReads, seen};
ghost use Rattle.cms_copyfile.specs.Measures.{IsMeasure, measured};
ghost use Rattle.cms_copyfile.specs.Outputs.{IsPlan, copies_in};
ghost use Rattle.cms_copyfile.specs.Records.{copied, longest_fit};
ghost use Rattle.cms_copyfile.specs.Told.{IsLeftAs};
ghost use Rattle.cms_copyfile.specs.declared.output.FileForm as forms;

use crate::copy::FileCopy;
use crate::measure::Measure;
use crate::output::CopyPlan;
use crate::record::copy_record;
use crate::told::measure_told;
use cms_disk::{Cursor, DiskFault};
use cms_search::AccessTable;
use cms_world::World;

// Measures the copy of the record at a place, where it is copied.
fn measure_copy(
    plan: &CopyPlan,
    place: u32,
    text: &[u8],
    buffer: &mut Vec<u8>,
    measure: &mut Measure,
)
    requires short { length text.now ≤ longest_record }
    requires size { longest_fit plan.now.style.fit (length text.now) ≤ longest_record }
    requires room { longest_fit plan.now.style.fit (length text.now) ≤ vec_capacity buffer.old }
    requires next { place + 1 < 2 ^ 32 }
    requires few { measure.old.count ≤ place }
    requires bytes { measure.old.bytes ≤ 65537 * place }
    ensures measured { (front : List (List ℕ)) → length front ≡ place
        → measure.old
        ≡ measured plan.now.format (map (copied plan.now.style) (drop plan.now.skipped front))
        → measure.new
        ≡ measured plan.now.format
        (map (copied plan.now.style) (drop plan.now.skipped (front ++ text.now ∷ []))) }
    ensures few { measure.new.count ≤ place + 1 }
    ensures bytes { measure.new.bytes ≤ 65537 * (place + 1) }
    ensures capacity { vec_capacity buffer.old ≤ vec_capacity buffer.new }
{
    if place >= plan.skipped {
        copy_record(buffer, &plan.style, text);
        measure.add(plan.format, buffer);
    }
}

/// Reads the records that are wanted, and measures their copies. It takes no memory: the buffer has room for each copy.
pub fn measure_copies<W: World>(
    world: &mut W,
    cursor: &mut Cursor,
    plan: &CopyPlan,
    buffer: &mut Vec<u8>,
) -> Result<Measure, DiskFault>
    requires blocks { ForSome (W.told world.old)
        (λ j. HasBlocks j.units cursor.old.unit cursor.old.total cursor.old.bsize) }
    requires short { cursor.old.begun.longest ≤ longest_record }
    requires size { longest_fit plan.now.style.fit cursor.old.begun.longest ≤ longest_record }
    requires room { longest_fit plan.now.style.fit cursor.old.begun.longest
        ≤ vec_capacity buffer.old }
    ensures measured { IfOk result (λ m. OfImage (W.told world.old) cursor.old.unit
        (λ image. (records : List (List ℕ))
        → HasLeft image cursor.old records
        → m ≡ measured plan.now.format (copies_in plan.now records))) }
    ensures records { OnOk result (OfImage (W.told world.old) cursor.old.unit
        (λ image. (records : List (List ℕ))
        → HasLeft image cursor.old records
        → All (Fits V longest_record) (take plan.now.wanted records))) }
    ensures sound { (form : forms.FileForm) → IsPlan form cursor.old.left plan.now
        → IfOk result (IsMeasure form) }
    ensures count { IfOk result (λ m. m.count ≤ plan.now.wanted) }
    ensures bytes { IfOk result (λ m. m.bytes < 2 ^ 63) }
    ensures fault { IfErr result (λ e. (e ≡ Device) ⊎ (e ≡ Altered)) }
    ensures never { IfErr result (λ e. e ≡ Altered
        → OfImage (W.told world.old) cursor.old.unit (λ image. (records : List (List ℕ))
        → HasLeft image cursor.old records → ⊥)) }
    ensures capacity { vec_capacity buffer.old ≤ vec_capacity buffer.new }
    ensures reads { OnlyReads (seen W.World world.old) (seen W.World world.new) Device result }
{
    let mut measure = Measure::new();
    for place in 0..plan.wanted {
        if !cursor.next(world)? {
            return Ok(measure);
        }
        measure_copy(plan, place, cursor.text(), buffer, &mut measure);
    }
    Ok(measure)
}

// The copies of a file, of which nothing was read yet, are measured: as its disk tells them, or else by reading it.
pub(crate) fn measure_input<W: World>(
    world: &mut W,
    table: &AccessTable,
    file: &FileCopy,
    cursor: &mut Cursor,
    plan: &CopyPlan,
    buffer: &mut Vec<u8>,
) -> Result<Measure, DiskFault>
    requires blocks { ForSome (W.told world.old)
        (λ j. HasBlocks j.units cursor.old.unit cursor.old.total cursor.old.bsize) }
    requires short { cursor.old.begun.longest ≤ longest_record }
    requires size { longest_fit plan.now.style.fit cursor.old.begun.longest ≤ longest_record }
    requires room { longest_fit plan.now.style.fit cursor.old.begun.longest
        ≤ vec_capacity buffer.old }
    requires sound { IsFileInfo file.now.input }
    requires place { Some file.now.place
        ≡ place_named table.now file.now.found.letter file.now.found.name }
    requires told { Some file.now.input
        ≡ info_named table.now file.now.found.letter file.now.found.name }
    requires left { cursor.old.left ≡ file.now.input.count }
    ensures measured { IfOk result (λ m. OfImage (W.told world.old) cursor.old.unit
        (λ image. (x : UnitFile)
        → IsLeftAs table.now file.now image cursor.old x
        → m ≡ measured plan.now.format (copies_in plan.now x.file.records))) }
    ensures records { OnOk result (OfImage (W.told world.old) cursor.old.unit
        (λ image. (x : UnitFile)
        → IsLeftAs table.now file.now image cursor.old x
        → All (Fits V longest_record) (take plan.now.wanted x.file.records))) }
    ensures sound { (form : forms.FileForm) → IsPlan form file.now.input.count plan.now
        → IfOk result (IsMeasure form) }
    ensures count { IfOk result (λ m. m.count ≤ plan.now.wanted) }
    ensures bytes { IfOk result (λ m. m.bytes < 2 ^ 63) }
    ensures fault { IfErr result (λ e. (e ≡ Device) ⊎ (e ≡ Altered)) }
    ensures never { IfErr result (λ e. e ≡ Altered
        → OfImage (W.told world.old) cursor.old.unit (λ image. (records : List (List ℕ))
        → HasLeft image cursor.old records → ⊥)) }
    ensures capacity { vec_capacity buffer.old ≤ vec_capacity buffer.new }
    ensures reads { OnlyReads (seen W.World world.old) (seen W.World world.new) Device result }
{
    match measure_told(table, file, plan) {
        Some(measure) => Ok(measure),
        None => measure_copies(world, cursor, plan, buffer),
    }
}
