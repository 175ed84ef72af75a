// The copies of a file as they are measured with no read: by what its disk tells of it.
ghost use Rattle.std.specs.Prelude.{◌≡◌, ◌^◌, ◌<◌, ◌≤◌, ℕ, true, List, length, map, All, Some, IfSome};
ghost use Rattle.cms_names.specs.declared.name.Format.TheVariants.{F, V};
ghost use Rattle.cms_model.specs.Records.{Fits};
ghost use Rattle.cms_fields.specs.Limits.{most_records};
ghost use Rattle.cms_disk.specs.Disks.{IsFileInfo};
ghost use Rattle.cms_search.specs.Machine.{Machine};
ghost use Rattle.cms_search.specs.Shows.{Shows};
ghost use Rattle.cms_files.specs.Files.{UnitFile};
ghost use Rattle.cms_files.specs.Told.{info_named, place_named};
ghost use Rattle.cms_copyfile.specs.Measures.{IsMeasure, measured};
ghost use Rattle.cms_copyfile.specs.Outputs.{IsPlan, copies_in};
ghost use Rattle.cms_copyfile.specs.Records.{copied, folded, truncated_if};
ghost use Rattle.cms_copyfile.specs.Told.{IsFoundAs};
ghost use Rattle.cms_copyfile.specs.declared.output.FileForm as forms;

use crate::copy::FileCopy;
use crate::measure::{Measure, head_bytes};
use crate::output::CopyPlan;
use crate::record::{Fit, RecordStyle};
use cms_disk::FileInfo;
use cms_files::stored_found;
use cms_names::Format;
use cms_search::AccessTable;

// How long each record of a file is before it is cut or filled, where all are as long.
fn length_before(info: &FileInfo, style: &RecordStyle) -> Option<u32>
    ensures { IfSome result (λ n. (text : List ℕ) → Fits info.now.format info.now.length text
        → length (truncated_if style.now.truncates style.now.fill (folded style.now.fold text))
        ≡ n) }
{
    match (info.format, style.truncates) {
        (Format::F, false) => Some(info.length),
        _ => None,
    }
}

// How long the copy of each record of a file is, where all are as long.
fn length_of_each(info: &FileInfo, style: &RecordStyle) -> Option<u32>
    ensures { IfSome result (λ n. (text : List ℕ) → Fits info.now.format info.now.length text
        → length (copied style.now text) ≡ n) }
{
    match style.fit {
        Fit::Exactly(size) => Some(size),
        Fit::AtMost(size) => Some(length_before(info, style)?.min(size)),
        Fit::Whole => length_before(info, style),
    }
}

// Of so many copies, all of one length.
fn measure_equal(format: Format, count: u32, size: u32) -> Measure
    requires { count ≤ most_records }
    ensures measured { (records : List (List ℕ)) → All (Fits F size) records
        → length records ≡ count
        → result ≡ measured format records }
    ensures count { result.count ≡ count }
    ensures bytes { result.bytes < 2 ^ 63 }
{
    Measure {
        count,
        bytes: u64::from(count) * (u64::from(head_bytes(format)) + u64::from(size)),
        longest: if count == 0 { 0 } else { size },
    }
}

// How many of a file's records are copied.
fn count_of(info: &FileInfo, plan: &CopyPlan) -> u32
    ensures copies { (records : List (List ℕ)) → info.now.count ≡ length records
        → result ≡ length (copies_in plan.now records) }
    ensures few { result ≤ info.now.count }
    ensures wanted { result ≤ plan.now.wanted }
{
    info.count.min(plan.wanted).saturating_sub(plan.skipped)
}

// Whether no record of a file gets another length.
fn keeps_lengths(info: &FileInfo, style: &RecordStyle) -> bool
    ensures { result ≡ true → (text : List ℕ) → length text ≤ info.now.length
        → length (copied style.now text) ≡ length text }
{
    if style.truncates {
        return false;
    }
    match style.fit {
        Fit::Exactly(_) => false,
        Fit::AtMost(size) => info.length <= size,
        Fit::Whole => true,
    }
}

// Whether all records of a file are copied.
fn copies_all(info: &FileInfo, plan: &CopyPlan) -> bool
    ensures copies { result ≡ true → (records : List (List ℕ)) → info.now.count ≡ length records
        → copies_in plan.now records ≡ map (copied plan.now.style) records }
    ensures wanted { result ≡ true → info.now.count ≤ plan.now.wanted }
{
    plan.skipped == 0 && info.count <= plan.wanted
}

// Whether a file is of varying records, and so is its copy.
fn stays_varying(info: &FileInfo, plan: &CopyPlan) -> bool
    ensures { result ≡ true → (info.now.format ≡ V) × (plan.now.format ≡ V) }
{
    match (info.format, plan.format) {
        (Format::V, Format::V) => true,
        _ => false,
    }
}

// The copies of a file of varying records that are all as long as its records: they fill as many bytes.
fn measure_whole(table: &AccessTable, file: &FileCopy, plan: &CopyPlan) -> Option<Measure>
    requires sound { IsFileInfo file.now.input }
    requires place { Some file.now.place
        ≡ place_named table.now file.now.found.letter file.now.found.name }
    requires told { Some file.now.input
        ≡ info_named table.now file.now.found.letter file.now.found.name }
    ensures measured { IfSome result
        (λ m. (s : Machine) (x : UnitFile) → Shows table.now s → IsFoundAs s file.now x
        → m ≡ measured plan.now.format (copies_in plan.now x.file.records)) }
    ensures sound { (form : forms.FileForm) → IsPlan form file.now.input.count plan.now
        → IfSome result (IsMeasure form) }
    ensures count { IfSome result (λ m. m.count ≤ plan.now.wanted) }
    ensures bytes { IfSome result (λ m. m.bytes < 2 ^ 63) }
{
    let info = &file.input;
    if !stays_varying(info, plan) || !copies_all(info, plan) || !keeps_lengths(info, &plan.style) {
        return None;
    }
    let bytes = stored_found(table, file.at())?;
    Some(Measure {
        count: info.count,
        bytes: u64::from(bytes),
        longest: info.length,
    })
}

// The copies of a file, where what its disk tells of it says how long they are. It doesn't where varying records become others of varying
// lengths, or some of them are copied.
pub(crate) fn measure_told(table: &AccessTable, file: &FileCopy, plan: &CopyPlan) -> Option<Measure>
    requires sound { IsFileInfo file.now.input }
    requires place { Some file.now.place
        ≡ place_named table.now file.now.found.letter file.now.found.name }
    requires told { Some file.now.input
        ≡ info_named table.now file.now.found.letter file.now.found.name }
    ensures measured { IfSome result (λ m. (s : Machine) (x : UnitFile) → Shows table.now s
        → IsFoundAs s file.now x
        → m ≡ measured plan.now.format (copies_in plan.now x.file.records)) }
    ensures sound { (form : forms.FileForm) → IsPlan form file.now.input.count plan.now
        → IfSome result (IsMeasure form) }
    ensures count { IfSome result (λ m. m.count ≤ plan.now.wanted) }
    ensures bytes { IfSome result (λ m. m.bytes < 2 ^ 63) }
{
    let info = &file.input;
    match length_of_each(info, &plan.style) {
        Some(length) => Some(measure_equal(plan.format, count_of(info, plan), length)),
        None => measure_whole(table, file, plan),
    }
}
