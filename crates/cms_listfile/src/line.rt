// The lines of files, and their header.
ghost use Rattle.std.specs.Prelude.{◌≡◌, ◌≤◌, ◌+◌, ◌++◌, ◌∷◌, IfOk, OnOk, length, take};
ghost use Rattle.cms_text.specs.Limits.{longest_text};
ghost use Rattle.cms_text.specs.Numbers.{decimal_of};
ghost use Rattle.cms_search.specs.Texts.{left_in, right_in, spaced};
ghost use Rattle.cms_files.specs.Files.{mode_text};
ghost use Rattle.cms_listfile.specs.Lines as spec;
ghost use Rattle.cms_listfile.specs.declared.columns.Years.TheVariants.{Short, Whole};
ghost use Rattle.cms_listfile.specs.Told as told;

use crate::columns::{Columns, Years};
use cms_disk::FileInfo;
use cms_fields::Stamp;
use cms_names::Format;
use cms_operands::coded;
use cms_search::{add_left, add_right, first_column, letter_text};
use cms_text::{BLANK, COLON, STROKE, decimal, ones, tens, without_trailing_blanks};
use std::alloc::{AllocError, Global};

/// A file as it is listed.
#[derive(Clone, Copy)]
pub struct ListedFile {
    /// the letter of its disk, A is 0
    pub letter: u8,
    /// the volume id of its disk, in EBCDIC
    pub volid: [u8; 6],
    pub info: FileInfo,
}

// mm/dd/yyyy hh:mm:ss
fn whole_text(stamp: &Stamp) -> [u8; 19]
    ensures { result ≡ spec.stamp_text Whole stamp.now }
{
    let month = u16::from(stamp.month);
    let day = u16::from(stamp.day);
    let hour = u16::from(stamp.hour);
    let minute = u16::from(stamp.minute);
    let second = u16::from(stamp.second);
    [
        tens(month),
        ones(month),
        STROKE,
        tens(day),
        ones(day),
        STROKE,
        tens(stamp.year / 100),
        ones(stamp.year / 100),
        tens(stamp.year),
        ones(stamp.year),
        BLANK,
        tens(hour),
        ones(hour),
        COLON,
        tens(minute),
        ones(minute),
        COLON,
        tens(second),
        ones(second),
    ]
}

// mm/dd/yy hh:mm:ss
fn short_text(stamp: &Stamp) -> [u8; 17]
    ensures { result ≡ spec.stamp_text Short stamp.now }
{
    let month = u16::from(stamp.month);
    let day = u16::from(stamp.day);
    let hour = u16::from(stamp.hour);
    let minute = u16::from(stamp.minute);
    let second = u16::from(stamp.second);
    [
        tens(month),
        ones(month),
        STROKE,
        tens(day),
        ones(day),
        STROKE,
        tens(stamp.year),
        ones(stamp.year),
        BLANK,
        tens(hour),
        ones(hour),
        COLON,
        tens(minute),
        ones(minute),
        COLON,
        tens(second),
        ones(second),
    ]
}

fn format_text(format: Format) -> [u8; 1]
    ensures { result ≡ spec.format_text format }
{
    match format {
        Format::F => coded(b"F"),
        Format::V => coded(b"V"),
    }
}

fn mode_text(letter: u8, number: u8) -> [u8; 2]
    ensures { result ≡ mode_text letter number }
{
    let [letter] = letter_text(letter);
    [letter, ones(u16::from(number))]
}

// Adds a blank, and a text at the left of so many places, in which it has room.
fn add_text(alloc: Global, line: &mut Vec<u8>, width: usize, text: &[u8]) -> Result<(), AllocError>
    requires { length text.now ≤ width }
    ensures text { OnOk result (line.new.items ≡ line.old.items ++ 0x40 ∷ left_in width text.now) }
    ensures short { OnOk result (length line.new.items ≤ length line.old.items + 1 + width) }
{
    add_left(alloc, line, width, text)
}

// Adds a blank, and a number at the right of so many places. It has ten digits at most.
fn add_number(
    alloc: Global,
    line: &mut Vec<u8>,
    width: usize,
    number: u32,
) -> Result<(), AllocError>
    requires { width ≤ 10 }
    ensures text { OnOk result (line.new.items
        ≡ line.old.items ++ 0x40 ∷ right_in width (decimal_of number)) }
    ensures short { OnOk result (length line.new.items ≤ length line.old.items + 11) }
{
    let digits = decimal(alloc, number)?;
    add_right(alloc, line, width, digits.bytes())
}

impl ListedFile {
    fn to_name(&self, alloc: Global) -> Result<Vec<u8>, AllocError>
        ensures text { IfOk result (λ line. line.items
            ≡ spaced (take 1 (spec.told_columns Short self.now))) }
        ensures short { IfOk result (λ line. length line.items ≤ 8) }
    {
        first_column(alloc, 8, self.info.name.file.as_bytes())
    }

    fn to_kind(&self, alloc: Global) -> Result<Vec<u8>, AllocError>
        ensures text { IfOk result (λ line. line.items
            ≡ spaced (take 2 (spec.told_columns Short self.now))) }
        ensures short { IfOk result (λ line. length line.items ≤ 17) }
    {
        let mut line = self.to_name(alloc)?;
        add_text(alloc, &mut line, 8, self.info.name.kind.as_bytes())?;
        Ok(line)
    }

    fn to_mode(&self, alloc: Global) -> Result<Vec<u8>, AllocError>
        ensures text { IfOk result (λ line. line.items
            ≡ spaced (take 3 (spec.told_columns Short self.now))) }
        ensures short { IfOk result (λ line. length line.items ≤ 20) }
    {
        let mut line = self.to_kind(alloc)?;
        add_text(
            alloc,
            &mut line,
            2,
            &mode_text(self.letter, self.info.number),
        )?;
        Ok(line)
    }

    fn to_format(&self, alloc: Global) -> Result<Vec<u8>, AllocError>
        ensures text { IfOk result (λ line. line.items
            ≡ spaced (take 5 (spec.told_columns Short self.now))) }
        ensures short { IfOk result (λ line. length line.items ≤ 33) }
    {
        let mut line = self.to_mode(alloc)?;
        add_text(alloc, &mut line, 1, &format_text(self.info.format))?;
        add_number(alloc, &mut line, 5, self.info.length)?;
        Ok(line)
    }

    fn to_alloc(&self, alloc: Global) -> Result<Vec<u8>, AllocError>
        ensures text { IfOk result (λ line. line.items
            ≡ spaced (take 7 (spec.told_columns Short self.now))) }
        ensures short { IfOk result (λ line. length line.items ≤ 55) }
    {
        let mut line = self.to_format(alloc)?;
        add_number(alloc, &mut line, 8, self.info.count)?;
        add_number(alloc, &mut line, 8, self.info.blocks)?;
        Ok(line)
    }

    fn to_short_date(&self, alloc: Global) -> Result<Vec<u8>, AllocError>
        ensures text { IfOk result (λ line. line.items
            ≡ spaced (take 8 (spec.told_columns Short self.now))) }
        ensures short { IfOk result (λ line. length line.items ≤ 75) }
    {
        let mut line = self.to_alloc(alloc)?;
        add_text(alloc, &mut line, 17, &short_text(&self.info.stamp))?;
        Ok(line)
    }

    fn to_whole_date(&self, alloc: Global) -> Result<Vec<u8>, AllocError>
        ensures text { IfOk result (λ line. line.items
            ≡ spaced (take 8 (spec.told_columns Whole self.now))) }
        ensures short { IfOk result (λ line. length line.items ≤ 75) }
    {
        let mut line = self.to_alloc(alloc)?;
        add_text(alloc, &mut line, 19, &whole_text(&self.info.stamp))?;
        Ok(line)
    }

    fn to_date(&self, alloc: Global, years: Years) -> Result<Vec<u8>, AllocError>
        ensures text { IfOk result (λ line. line.items
            ≡ spaced (take 8 (spec.told_columns years self.now))) }
        ensures short { IfOk result (λ line. length line.items ≤ 75) }
    {
        match years {
            Years::Short => self.to_short_date(alloc),
            Years::Whole => self.to_whole_date(alloc),
        }
    }

    fn to_label(&self, alloc: Global, years: Years) -> Result<Vec<u8>, AllocError>
        ensures text { IfOk result (λ line. line.items
            ≡ spaced (take 9 (spec.told_columns years self.now))) }
        ensures short { IfOk result (λ line. length line.items ≤ 82) }
    {
        let mut line = self.to_date(alloc, years)?;
        add_text(alloc, &mut line, 6, &self.volid)?;
        Ok(line)
    }

    // The columns up to this one, with one blank between: at most 82 bytes.
    fn columns_to(&self, alloc: Global, last: Columns) -> Result<Vec<u8>, AllocError>
        ensures text { IfOk result (λ line. line.items
            ≡ spaced (take (spec.count_of last)
            (spec.told_columns (spec.years_of last) self.now))) }
        ensures short { IfOk result (λ line. length line.items ≤ 82) }
    {
        match last {
            Columns::Name => self.to_name(alloc),
            Columns::Kind => self.to_kind(alloc),
            Columns::Mode => self.to_mode(alloc),
            Columns::Format => self.to_format(alloc),
            Columns::Alloc => self.to_alloc(alloc),
            Columns::Date(years) => self.to_date(alloc, years),
            Columns::Label(years) => self.to_label(alloc, years),
        }
    }

    /// The line of the file with its columns up to this one, which has room in a text.
    pub fn line(&self, alloc: Global, last: Columns) -> Result<Vec<u8>, AllocError>
        ensures text { IfOk result (λ line. line.items
            ≡ spec.line_to last (spec.told_columns (spec.years_of last) self.now)) }
        ensures short { IfOk result (λ line. length line.items ≤ longest_text) }
    {
        let columns = self.columns_to(alloc, last)?;
        let line = without_trailing_blanks(&columns).to_vec(alloc)?;
        Ok(line)
    }
}

// The header of all columns.
fn full_header(years: Years) -> [u8; 73]
    ensures { result ≡ told.full_header years }
{
    match years {
        Years::Short => {
            coded(b"FILENAME FILETYPE FM F LRECL  RECORDS   BLOCKS DATE     TIME     LABEL   ")
        }
        Years::Whole => {
            coded(b"FILENAME FILETYPE FM F LRECL  RECORDS   BLOCKS DATE       TIME     LABEL ")
        }
    }
}

// How many bytes the columns have up to this one.
fn width(last: Columns) -> usize
    ensures { result ≡ told.width last }
{
    match last {
        Columns::Name => 8,
        Columns::Kind => 17,
        Columns::Mode => 20,
        Columns::Format => 28,
        Columns::Alloc => 46,
        Columns::Date(Years::Short) => 64,
        Columns::Date(Years::Whole) => 66,
        Columns::Label(Years::Short) => 71,
        Columns::Label(Years::Whole) => 73,
    }
}

/// The header of the columns up to this one, which has room in a text.
pub fn header(alloc: Global, last: Columns) -> Result<Vec<u8>, AllocError>
    ensures text { IfOk result (λ line. line.items ≡ spec.header last) }
    ensures short { IfOk result (λ line. length line.items ≤ longest_text) }
{
    let text = full_header(last.years());
    let line = without_trailing_blanks(&text[..width(last)]).to_vec(alloc)?;
    Ok(line)
}
