// A file that is copied, and where its copy goes.
ghost use Rattle.std.specs.Prelude.{◌≡◌, nat_lt, None, Err, IfSome};
ghost use Rattle.std.specs.Option.{option_map};
ghost use Rattle.cms_disk.specs.Disks.{IsFileInfo};
ghost use Rattle.cms_search.specs.Machine.{Machine};
ghost use Rattle.cms_search.specs.Shows.{Shows};
ghost use Rattle.cms_search.specs.declared.fault.SearchFault.TheVariants.{NotFound};
ghost use Rattle.cms_copyfile.specs.Copyfile as spec;
ghost use Rattle.cms_copyfile.specs.FileCopies.{IsFileCopy, copy_number, form_in, form_into, input_at, is_own_output, may_erase_input};
ghost use Rattle.cms_copyfile.specs.Outputs.{extended};

use crate::line::{CopyLine, Existing};
use crate::named_files::NamedFile;
use crate::output::{FileForm, form_for, number_for, wanted_of};
use crate::shown::FileShown;
use cms_disk::FileInfo;
use cms_files::{ToldFile, told_named};
use cms_names::{Name, equal_signs};
use cms_operands::WriteMode;
use cms_search::{AccessTable, Found};

/// A file that is copied, and where its copy goes.
#[derive(Clone, Copy)]
pub struct FileCopy {
    /// the file, as a search found it
    pub found: NamedFile,
    /// its place on its disk, from 0
    pub place: u32,
    /// what its disk tells of it
    pub input: FileInfo,
    /// the letter of the output's disk, A is 0
    pub letter: u8,
    /// the output's name
    pub name: Name,
    /// the place of the file of that name on that disk, if it is there already
    pub there_place: Option<u32>,
    /// what is told of that file
    pub there: Option<FileInfo>,
}

// The place of a file that may be there.
fn place_in(file: &Option<ToldFile>) -> Option<u32>
    ensures { result ≡ option_map (λ f. f.place) file.now }
{
    match file {
        Some(file) => Some(file.place),
        None => None,
    }
}

// What is told of a file that may be there.
fn info_in(file: &Option<ToldFile>) -> Option<FileInfo>
    ensures told { result ≡ option_map (λ f. f.info) file.now }
    ensures sound { IfSome file.now (λ f. IsFileInfo f.info) → IfSome result IsFileInfo }
{
    match file {
        Some(file) => Some(file.info),
        None => None,
    }
}

// The output's letter, or that of the disk on which the input stands.
fn letter_for(mode: Option<WriteMode>, letter: u8) -> u8
    ensures { result ≡ spec.letter_for mode letter }
{
    match mode {
        Some(mode) => mode.letter,
        None => letter,
    }
}

// The format of the records that a file has.
pub(crate) fn form_in(info: &FileInfo) -> FileForm
    ensures { result ≡ form_in info.now }
{
    FileForm {
        format: info.format,
        length: info.length,
    }
}

impl FileCopy {
    /// The file that was found, as a line copies it; none exactly where it isn't there.
    pub fn of(table: &AccessTable, line: &CopyLine, found: &NamedFile) -> Option<FileCopy>
        ensures copy { IfSome result (λ c. IsFileCopy table.now line.now c) }
        ensures found { IfSome result (λ c. c.found ≡ found.now) }
        ensures none { result ≡ None → (s : Machine) → Shows table.now s
            → spec.file_at s found.now ≡ Err NotFound }
    {
        let input = told_named(table, found.letter, &found.name)?;
        let letter = letter_for(line.files.output.mode, found.letter);
        let name = equal_signs(&found.name, &line.files.output.name);
        let there = told_named(table, letter, &name);
        Some(FileCopy {
            found: *found,
            place: input.place,
            input: input.info,
            letter,
            name,
            there_place: place_in(&there),
            there: info_in(&there),
        })
    }

    /// Where its disk has it.
    pub fn at(&self) -> Found
        ensures { result ≡ input_at self.now }
    {
        Found {
            letter: self.found.letter,
            place: self.place,
        }
    }

    /// The file that has the output's name, where the copies are added to it.
    pub fn extended(&self, line: &CopyLine) -> Option<FileInfo>
        ensures { result ≡ extended line.now.style.existing self.now.there }
    {
        match line.style.existing {
            Existing::Extended => self.there,
            Existing::Refused | Existing::Replaced => None,
        }
    }

    /// The format that the copy gets; a file that is extended keeps its own.
    pub fn form(&self, line: &CopyLine) -> FileForm
        ensures { result ≡ form_into line.now self.now }
    {
        let own = match self.extended(line) {
            Some(own) => Some(form_in(&own)),
            None => None,
        };
        form_for(&line.style, form_in(&self.input), own)
    }

    /// The mode number that the copy gets.
    pub fn number(&self, line: &CopyLine) -> u8
        ensures { result ≡ copy_number line.now self.now }
    {
        let there = match self.there {
            Some(there) => Some(there.number),
            None => None,
        };
        number_for(line.files.output.mode, self.input.number, there)
    }

    // Whether it is its own output.
    #[tactic(auto, unfolding(cms_model::specs::Minidisks::same_name, cms_model::specs::Lists::same))]
    fn is_own(&self) -> bool
        ensures { result ≡ is_own_output self.now }
    {
        self.letter == self.found.letter && self.input.name == self.name
    }

    /// Whether a line reads it to its end, and it isn't its own output.
    pub fn may_erase(&self, line: &CopyLine) -> bool
        ensures { result ≡ may_erase_input line.now self.now }
    {
        let count = self.input.count;
        wanted_of(&line.style, count) == count && !self.is_own()
    }

    /// Whether it has none of the records that a line copies.
    pub fn has_too_few(&self, line: &CopyLine) -> bool
        ensures { result ≡ nat_lt self.now.input.count line.now.style.first }
    {
        self.input.count < line.style.first
    }

    /// The file as it is shown.
    pub fn input_shown(&self) -> FileShown
        ensures { result ≡ record {
          letter = self.now.found.letter;
          name = self.now.input.name;
          number = self.now.input.number;
        } }
    {
        FileShown {
            letter: self.found.letter,
            name: self.input.name,
            number: self.input.number,
        }
    }

    /// The output as it is shown.
    pub fn output_shown(&self, line: &CopyLine) -> FileShown
        ensures { result ≡ record {
          letter = self.now.letter;
          name = self.now.name;
          number = copy_number line.now self.now;
        } }
    {
        FileShown {
            letter: self.letter,
            name: self.name,
            number: self.number(line),
        }
    }
}
