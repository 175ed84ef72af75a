// Records that are gathered for a file.
ghost use Rattle.std.specs.Prelude.{◌≡◌, ◌≤◌, ◌++◌, ◌↔◌, ℕ, List, [], ◌∷◌, true, length, IfSome, IsSome, OnOk};
ghost use Rattle.cms_names.specs.declared.name.Format.{Format};
ghost use Rattle.cms_fields.specs.Limits.{longest_record};
ghost use Rattle.cms_fields.specs.Stamps.{is_stamp};
ghost use Rattle.cms_model.specs.Records.{length_of};
ghost use Rattle.cms_files.specs.Gathered.{AreData, AreFile, IsGathered, record_in};

use cms_fields::{LONGEST_RECORD, Stamp};
use cms_model::{FileData, Stored};
use cms_names::Format;
use cms_records::{fit, put_var};
use cms_text::BLANK;
use std::alloc::{AllocError, Global};

/// Records of one format that are gathered for a file, as they are stored.
#[derive(Drop)]
pub struct Gathered {
    format: Format,
    // that of each record at F, that of the longest at V
    length: u32,
    count: u32,
    bytes: Vec<u8>,
}

// The length of no records.
fn first_length(format: Format, length: u32) -> u32
    ensures { result ≡ length_of format length [] }
{
    match format {
        Format::F => length,
        Format::V => 0,
    }
}

impl Gathered {
    /// None so far; at F each is to have this length.
    pub fn new(alloc: Global, format: Format, length: u32) -> Gathered
        ensures { IsGathered format length [] result }
    {
        Gathered {
            format,
            length: first_length(format, length),
            count: 0,
            bytes: Vec::new(alloc),
        }
    }

    /// One more: at F the text is cut to the length of the records, or filled with blanks. After an `Err` they are given up.
    pub fn push(&mut self, text: &[u8]) -> Result<(), AllocError>
        requires some { 1 ≤ length text.now }
        requires short { length text.now ≤ longest_record }
        ensures { (format : Format) (size : ℕ) (records : List (List ℕ))
            → IsGathered format size records self.old
            → OnOk result
            (IsGathered format size (records ++ record_in format size text.now ∷ []) self.new) }
    {
        self.count = self.count.checked_add(1).ok_or(AllocError)?;
        match self.format {
            Format::F => fit(&mut self.bytes, text, self.length, BLANK),
            Format::V => {
                self.length = self.length.max(text.len() as u32);
                put_var(&mut self.bytes, text)
            }
        }
    }

    /// The data of a file of them, with this mode number and stamp; none exactly where there is no record, or they have no length that
    /// records may have.
    pub fn data(self, number: u8, stamp: &Stamp) -> Option<FileData>
        requires number { number ≤ 6 }
        requires stamp { is_stamp stamp.now ≡ true }
        ensures data { (format : Format) (size : ℕ) (records : List (List ℕ))
            → IsGathered format size records self
            → IfSome result (AreData format size number stamp.now records) }
        ensures some { (format : Format) (size : ℕ) (records : List (List ℕ))
            → IsGathered format size records self
            → IsSome result ↔ AreFile format size records }
    {
        if self.count < 1 || self.length < 1 || self.length > LONGEST_RECORD {
            return None;
        }
        Some(FileData {
            format: self.format,
            length: self.length,
            number,
            stamp: *stamp,
            count: self.count,
            bytes: Stored::take(self.bytes),
        })
    }
}
