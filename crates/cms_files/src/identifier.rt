// File identifiers in the words of a line.
ghost use Rattle.std.specs.Prelude.{◌≡◌};
ghost use Rattle.cms_files.specs.Identifiers as spec;

use cms_line::Token;
use cms_names::{Name, OutId, Part};
use cms_operands::{
    ReadMode, Refusal, coded, name, name_or_all, name_or_same, needed, reading_mode_or_a,
};

/// A file that is read: its name, and the disks on which it is looked for.
#[derive(Clone, Copy)]
pub struct FileInput {
    pub name: Name,
    pub mode: ReadMode,
}

/// The files that are meant by a file name and a file type; none stands for every one.
#[derive(Clone, Copy)]
pub struct NameChoice {
    pub file: Option<Part>,
    pub kind: Option<Part>,
}

/// The type of a procedure's file.
pub fn exec_kind() -> Part
    ensures { result ≡ spec.exec_kind }
{
    Part::read(&coded(b"EXEC")).unwrap()
}

/// A file name and a file type, in a place among the operands and the next.
#[tactic(auto, unfolding(crate::specs::Identifiers::full_name))]
pub fn full_name(operands: &[Token], place: u8) -> Result<Name, Refusal>
    ensures { result ≡ spec.full_name operands.now place }
{
    let place = usize::from(place);
    let file = name(place, needed(operands, place)?)?;
    let kind = name(place + 1, needed(operands, place + 1)?)?;
    Ok(Name { file, kind })
}

/// The same, where `*` stands for every file name or every file type.
#[tactic(auto, unfolding(crate::specs::Identifiers::name_choice))]
pub fn name_choice(operands: &[Token], place: u8) -> Result<NameChoice, Refusal>
    ensures { result ≡ spec.name_choice operands.now place }
{
    let place = usize::from(place);
    let file = name_or_all(place, needed(operands, place)?)?;
    let kind = name_or_all(place + 1, needed(operands, place + 1)?)?;
    Ok(NameChoice { file, kind })
}

/// The same of an output, where `=` stands for the input's.
#[tactic(auto, unfolding(crate::specs::Identifiers::output_name))]
pub fn output_name(operands: &[Token], place: u8) -> Result<OutId, Refusal>
    ensures { result ≡ spec.output_name operands.now place }
{
    let place = usize::from(place);
    let file = name_or_same(place, needed(operands, place)?)?;
    let kind = name_or_same(place + 1, needed(operands, place + 1)?)?;
    Ok(OutId { file, kind })
}

/// A file that is read, in a place among the operands and the two next; its mode may be left out, and is A then.
#[tactic(auto, unfolding(crate::specs::Identifiers::file_input))]
pub fn file_input(operands: &[Token], place: u8) -> Result<FileInput, Refusal>
    ensures { result ≡ spec.file_input operands.now place }
{
    let name = full_name(operands, place)?;
    let place = usize::from(place) + 2;
    let mode = reading_mode_or_a(operands, place)?;
    Ok(FileInput { name, mode })
}

// Whether a part of a name is the one that is given, or any is meant.
fn takes_part(wanted: Option<Part>, part: Part) -> bool
    ensures { result ≡ spec.takes_part wanted part }
{
    match wanted {
        Some(wanted) => wanted == part,
        None => true,
    }
}

impl NameChoice {
    /// Whether it means the file of a name.
    pub fn takes(&self, name: &Name) -> bool
        ensures { result ≡ spec.takes_name self.now name.now }
    {
        takes_part(self.file, name.file) && takes_part(self.kind, name.kind)
    }
}

/// Whether a mode with this number, if it has one, means files of a mode number.
pub fn takes_number(wanted: Option<u8>, number: u8) -> bool
    ensures { result ≡ spec.takes_number wanted number }
{
    match wanted {
        Some(wanted) => number == wanted,
        None => true,
    }
}
