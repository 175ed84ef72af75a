// What a file becomes that is copied.
ghost use Rattle.std.specs.Prelude.{◌≡◌};
ghost use Rattle.cms_copyfile.specs.Outputs as spec;

use crate::line::CopyStyle;
use crate::record::{Fit, RecordStyle};
use cms_fields::Stamp;
use cms_names::Format;
use cms_operands::WriteMode;

/// The format of a file, and the length of its records at F, of the longest at V.
#[derive(Clone, Copy)]
pub struct FileForm {
    pub format: Format,
    pub length: u32,
}

/// Which records of a file are copied, and what becomes of each.
#[derive(Clone, Copy)]
pub struct CopyPlan {
    /// how many are passed in front of the first
    pub skipped: u32,
    /// how many are read, with those
    pub wanted: u32,
    pub style: RecordStyle,
    /// that of the copy
    pub format: Format,
}

// How many of so many records are read.
pub(crate) fn wanted_of(style: &CopyStyle, count: u32) -> u32
    ensures { result ≡ spec.wanted_of style.now count }
{
    match style.most {
        Some(most) => count.min(style.first.saturating_sub(1).saturating_add(most)),
        None => count,
    }
}

/// The format of the copy of a file; a file that is extended keeps its own.
pub fn form_for(style: &CopyStyle, input: FileForm, extended: Option<FileForm>) -> FileForm
    ensures { result ≡ spec.form_for style.now input extended }
{
    match extended {
        Some(output) => output,
        None => FileForm {
            format: style.format.unwrap_or(input.format),
            length: style.length.unwrap_or(input.length),
        },
    }
}

// How long records get.
fn fit_in(form: FileForm, most: Option<u32>) -> Fit
    ensures { result ≡ spec.fit_in form.format form.length most }
{
    match form.format {
        Format::F => Fit::Exactly(form.length),
        Format::V => match most {
            Some(size) => Fit::AtMost(size),
            None => Fit::Whole,
        },
    }
}

// What becomes of each record in a file of this format.
fn record_style(style: &CopyStyle, form: FileForm) -> RecordStyle
    ensures { result ≡ spec.record_style style.now form }
{
    RecordStyle {
        fold: style.fold,
        truncates: style.truncates,
        fill: style.fill,
        fit: fit_in(form, style.length),
    }
}

/// Which of so many records are copied into a file of this format, and what becomes of each.
pub fn plan_of(style: &CopyStyle, form: FileForm, count: u32) -> CopyPlan
    ensures { result ≡ spec.plan_of style.now form count }
{
    CopyPlan {
        skipped: style.first.saturating_sub(1),
        wanted: wanted_of(style, count),
        style: record_style(style, form),
        format: form.format,
    }
}

/// The mode number of a copy: that of the file that is there already, else the output word's, or else the input's.
pub fn number_for(mode: Option<WriteMode>, input: u8, there: Option<u8>) -> u8
    ensures { result ≡ spec.number_for mode input there }
{
    if let Some(number) = there {
        return number;
    }
    match mode {
        Some(mode) => mode.number.unwrap_or(input),
        None => input,
    }
}

/// The stamp of a copy.
pub fn stamp_for(style: &CopyStyle, input: Stamp, turn: Stamp) -> Stamp
    ensures { result ≡ spec.stamp_for style.now input turn }
{
    if style.old_stamp { input } else { turn }
}
