// Records as they are copied.
ghost use Rattle.std.specs.Prelude.{◌≡◌, ◌≤◌, ℕ, List, Some, true, length, map, take, vec_capacity};
ghost use Rattle.cms_copyfile.specs.Records as spec;

use cms_ebcdic::{fold_lower, fold_upper};
use cms_text::without_trailing;

/// Which letters of a record become others.
#[derive(Clone, Copy)]
pub enum Fold {
    /// small letters become capitals
    Upper,
    /// capitals become small letters
    Lower,
}

/// How long a record gets.
#[derive(Clone, Copy)]
pub enum Fit {
    /// it is cut, or filled with the fill byte
    Exactly(u32),
    /// it is cut
    AtMost(u32),
    Whole,
}

/// What becomes of each record, in this order.
#[derive(Clone, Copy)]
pub struct RecordStyle {
    pub fold: Option<Fold>,
    /// fill bytes at the end are dropped, but for the first byte of the record
    pub truncates: bool,
    pub fill: u8,
    pub fit: Fit,
}

impl Fit {
    // Whether a record of so many bytes is neither cut nor filled.
    fn keeps(self, size: usize) -> bool
        ensures { result ≡ true → (fill : ℕ) (text : List ℕ) → length text ≡ size
            → spec.fitted_to self fill text ≡ text }
    {
        match self {
            Fit::Exactly(exact) => size == exact as usize,
            Fit::AtMost(most) => size <= most as usize,
            Fit::Whole => true,
        }
    }
}

impl RecordStyle {
    /// Whether each record of so many bytes is its own copy.
    pub fn keeps(&self, size: usize) -> bool
        ensures { result ≡ true → (text : List ℕ) → length text ≡ size
            → spec.copied self.now text ≡ text }
    {
        self.fold.is_none() && !self.truncates && self.fit.keeps(size)
    }
}

fn folded_byte(fold: Fold, byte: u8) -> u8
    ensures { result ≡ spec.folded_byte (Some fold) byte }
{
    match fold {
        Fold::Upper => fold_upper(byte),
        Fold::Lower => fold_lower(byte),
    }
}

// Folds the letters of a text where it stands.
fn fold_letters(text: &mut [u8], fold: Fold)
    ensures { text.new ≡ spec.folded (Some fold) text.old }
{
    for byte in text.iter_mut() {
        *byte = folded_byte(fold, *byte);
    }
}

// Puts a text into a buffer that has room for it, with its letters folded.
fn take_folded(into: &mut Vec<u8>, fold: Option<Fold>, text: &[u8])
    requires { length text.now ≤ vec_capacity into.old }
    ensures text { into.new.items ≡ spec.folded fold text.now }
    ensures capacity { vec_capacity into.old ≤ vec_capacity into.new }
{
    into.clear();
    into.extend_from_slice(text).unwrap();
    if let Some(fold) = fold {
        fold_letters(into, fold);
    }
}

// Drops the fill bytes at the end, but for the first byte.
fn truncate(text: &mut Vec<u8>, fill: u8)
    ensures text { text.new.items ≡ spec.truncated fill text.old.items }
    ensures capacity { vec_capacity text.old ≤ vec_capacity text.new }
{
    let kept = without_trailing(fill, text).len();
    text.truncate(kept.max(1));
}

// Cuts or fills a text in a buffer that has room for it.
fn fit_to(text: &mut Vec<u8>, fit: Fit, fill: u8)
    requires { spec.longest_fit fit (length text.old.items) ≤ vec_capacity text.old }
    ensures text { text.new.items ≡ spec.fitted_to fit fill text.old.items }
    ensures capacity { vec_capacity text.old ≤ vec_capacity text.new }
{
    match fit {
        Fit::Exactly(size) => text.resize(size as usize, fill).unwrap(),
        Fit::AtMost(size) => text.truncate(size as usize),
        Fit::Whole => {}
    }
}

/// Puts a record as it is copied into a buffer in place of what stood there. The buffer has room for the record as it was and for the
/// length that it gets, so this takes no memory.
pub fn copy_record(into: &mut Vec<u8>, style: &RecordStyle, text: &[u8])
    requires { spec.longest_fit style.now.fit (length text.now) ≤ vec_capacity into.old }
    ensures text { into.new.items ≡ spec.copied style.now text.now }
    ensures capacity { vec_capacity into.old ≤ vec_capacity into.new }
{
    take_folded(into, style.fold, text);
    if style.truncates {
        truncate(into, style.fill);
    }
    fit_to(into, style.fit, style.fill);
}
