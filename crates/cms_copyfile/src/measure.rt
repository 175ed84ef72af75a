// What is told of records before a file of them is drafted.
ghost use Rattle.std.specs.Prelude.{◌≡◌, ◌+◌, ◌^◌, ◌<◌, ◌≤◌, ◌++◌, ℕ, List, [], ◌∷◌, length};
ghost use Rattle.cms_fields.specs.Limits.{longest_record};
ghost use Rattle.cms_names.specs.declared.name.Format as formats;
ghost use Rattle.cms_model.specs.Records.{stored};
ghost use Rattle.cms_copyfile.specs.Measures.{measured};

use cms_names::Format;

/// How many records there are, how many bytes they fill as they are stored, at V with the two of each record's length, and how long
/// the longest is.
#[derive(Clone, Copy)]
pub struct Measure {
    pub count: u32,
    pub bytes: u64,
    pub longest: u32,
}

// How many bytes stand in front of a record as it is stored.
pub(crate) fn head_bytes(format: Format) -> u32
    ensures stored { (text : List ℕ) → length (stored format (text ∷ [])) ≡ result + length text }
    ensures few { result ≤ 2 }
{
    match format {
        Format::F => 0,
        Format::V => 2,
    }
}

impl Measure {
    /// Of no record.
    pub fn new() -> Measure
        ensures measured { (format : formats.Format) → result ≡ measured format [] }
        ensures none { (result.count ≡ 0) × (result.bytes ≡ 0) }
    {
        Measure {
            count: 0,
            bytes: 0,
            longest: 0,
        }
    }

    /// With one record more.
    pub fn add(&mut self, format: Format, text: &[u8])
        requires short { length text.now ≤ longest_record }
        requires count { self.old.count + 1 < 2 ^ 32 }
        requires bytes { self.old.bytes + 2 ^ 32 < 2 ^ 64 }
        ensures measured { (records : List (List ℕ)) → self.old ≡ measured format records
            → self.new ≡ measured format (records ++ text.now ∷ []) }
        ensures one { self.new.count ≡ self.old.count + 1 }
        ensures few { self.new.bytes ≤ self.old.bytes + 2 + length text.now }
    {
        let size = text.len() as u32;
        self.count += 1;
        self.bytes += u64::from(head_bytes(format) + size);
        self.longest = self.longest.max(size);
    }
}
