// What a file is to be that is drafted of copies.
ghost use Rattle.std.specs.Prelude.{◌≡◌, ◌+◌, ◌^◌, ◌<◌, ◌≤◌, ℕ, true, List};
ghost use Rattle.cms_fields.specs.Stamps.{is_stamp};
ghost use Rattle.cms_names.specs.declared.name.Name as names;
ghost use Rattle.cms_edf.specs.FileDrafts.{CanDraft};
ghost use Rattle.cms_disk.specs.Drafts as drafts;
ghost use Rattle.cms_disk.specs.Drafts.{HaveCounts};
ghost use Rattle.cms_copyfile.specs.Measures.{IsMeasure, length_by, measured};
ghost use Rattle.cms_copyfile.specs.Outputs.{file_with};
ghost use Rattle.cms_copyfile.specs.Shapes as spec;

use crate::measure::Measure;
use crate::output::FileForm;
use cms_disk::{DraftShape, FileInfo};
use cms_fields::Stamp;
use cms_names::Format;

// The length of records in a file: the one given at F, the longest's at V.
fn length_in(form: FileForm, longest: u32) -> u32
    ensures { result ≡ length_by form.format form.length longest }
{
    match form.format {
        Format::F => form.length,
        Format::V => longest,
    }
}

/// The shape of a file of records that were measured.
pub fn shape_of(form: FileForm, number: u8, stamp: Stamp, measure: &Measure) -> DraftShape
    ensures counts { (records : List (List ℕ)) → measure.now ≡ measured form.format records
        → HaveCounts result records }
    ensures file { (name : names.Name) (records : List (List ℕ))
        → measure.now ≡ measured form.format records
        → drafts.file_with name result records ≡ file_with name number form stamp records }
    ensures can { IsMeasure form measure.now → number ≤ 6 → is_stamp stamp ≡ true
        → CanDraft result }
{
    let length = length_in(form, measure.longest);
    DraftShape {
        format: form.format,
        length,
        number,
        stamp,
        count: measure.count,
        bytes: measure.bytes,
    }
}

// The length of records in a file of which this is told, with others behind its own: its own at F, the longest's at V.
fn length_behind(info: &FileInfo, longest: u32) -> u32
    ensures { result ≡ spec.length_behind info.now.format info.now.length longest }
{
    match info.format {
        Format::F => info.length,
        Format::V => info.length.max(longest),
    }
}

/// The shape of a file of which this is told, with so many stored bytes, and with records behind its own that were measured.
pub fn shape_behind(info: &FileInfo, stored: u32, stamp: Stamp, more: &Measure) -> DraftShape
    requires count { info.now.count + more.now.count < 2 ^ 32 }
    requires bytes { more.now.bytes < 2 ^ 63 }
    ensures { result ≡ spec.shape_behind info.now stored stamp more.now }
{
    DraftShape {
        format: info.format,
        length: length_behind(info, more.longest),
        number: info.number,
        stamp,
        count: info.count + more.count,
        bytes: u64::from(stored) + more.bytes,
    }
}
