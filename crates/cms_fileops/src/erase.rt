// ERASE.
ghost use Rattle.std.specs.Prelude.{⊤, ◌≡◌, true};
ghost use Rattle.cms_fields.specs.Moments.{is_moment};
ghost use Rattle.cms_operands.specs.Choices.{AnswersLine};
ghost use Rattle.cms_search.specs.Calls.{Acts, IsUsable, course_of, machine_of, spot};
ghost use Rattle.cms_files.specs.Updates.{updated_of};
ghost use Rattle.cms_fileops.specs.Erase as spec;

use cms_edf::Change;
use cms_files::{
    FileUpdate, Listed, NameChoice, Updated, file_text, find_written, name_choice, stop_search,
    tell_updated, update_disk, update_taken,
};
use cms_line::{Token, Tokens};
use cms_names::Name;
use cms_operands::{
    ChosenOption, CommandFault, OptionForm, Refusal, WriteMode, chosen_options, ended, operands,
    writing_mode_or_a,
};
use cms_search::{Course, End, State, refuse_command};
use cms_world::World;
use std::alloc::Global;

/// The files that are erased: those of a disk that a choice of names and a number take.
#[derive(Clone, Copy)]
pub struct EraseFiles {
    pub names: NameChoice,
    pub mode: WriteMode,
}

/// An option of ERASE.
#[derive(Clone, Copy)]
pub enum EraseOption {
    /// TYPE
    TypeFiles,
    NoType,
}

/// What ERASE's line says.
#[derive(Clone, Copy)]
pub struct EraseLine {
    pub files: EraseFiles,
    /// each file is typed
    pub types: bool,
}

#[tactic(auto, unfolding(crate::specs::Erase::erase_operands))]
fn erase_operands(operands: &[Token]) -> Result<EraseFiles, Refusal>
    ensures { result ≡ spec.erase_operands operands.now }
{
    let names = name_choice(operands, 1)?;
    let mode = writing_mode_or_a(operands, 3)?;
    ended(operands, 4)?;
    Ok(EraseFiles { names, mode })
}

fn options() -> [OptionForm<EraseOption>; 2]
    ensures { result ≡ spec.options }
{
    [
        OptionForm::flag(EraseOption::TypeFiles, b"TYPE    ", 2),
        OptionForm::flag(EraseOption::NoType, b"NOTYPE  ", 3),
    ]
}

// Whether files are typed, by one option more.
fn types_with(types: bool, chosen: &ChosenOption<EraseOption>) -> bool
    ensures { result ≡ spec.types_with types chosen.now }
{
    match chosen.option {
        EraseOption::TypeFiles => true,
        EraseOption::NoType => false,
    }
}

// Whether files are typed: the last option says so.
fn types_of(chosen: &[ChosenOption<EraseOption>]) -> bool
    ensures { result ≡ spec.types_of chosen.now }
{
    chosen.iter().fold(false, types_with)
}

/// What ERASE's line says, or why it is refused.
pub fn erase_line(alloc: Global, words: &Tokens) -> Result<EraseLine, CommandFault>
    ensures { AnswersLine (spec.erase_line words.now) result }
{
    let files = erase_operands(operands(words.as_slice()))?;
    let chosen = chosen_options(alloc, &options(), words)?;
    Ok(EraseLine {
        files,
        types: types_of(chosen.as_slice()),
    })
}

// The file of a name on the disk of a letter goes.
fn erase_file<W: World>(
    alloc: Global,
    world: &mut W,
    state: &mut State,
    words: &Tokens,
    letter: u8,
    name: &Name,
) -> Result<Updated, End>
    requires usable { IsUsable (spot W.World world.old state.old) }
    requires moment { is_moment state.old.moment ≡ true }
    ensures acts { Acts (spot W.World world.old state.old) (spot W.World world.new state.new)
        (λ units. spec.erase_file (machine_of state.old units) words.now letter name.now) result
        (updated_of state.new) }
    ensures kept { state.new ≡ record state.old {
      table = state.new.table;
      places = state.new.places;
    } }
{
    match find_written(&state.table, letter, name) {
        Ok(()) => update_disk(alloc, world, state, letter, &Change::Drop { name }),
        Err(fault) => stop_search(alloc, world, state, words, 1, fault),
    }
}

// The erasure of files, as a line asks for it.
#[derive(Clone, Copy)]
struct Erasing<'w> {
    words: &'w Tokens,
    letter: u8,
    types: bool,
}

impl FileUpdate<Listed> for Erasing<'_> {
    ghost tree = { λ e. spec.erase_told e.words.now e.letter e.types };

    ghost takes = { λ e f. ⊤ };

    fn update<W: World>(
        &self,
        alloc: Global,
        world: &mut W,
        state: &mut State,
        file: &Listed,
    ) -> Result<Updated, End> {
        let text = file_text(alloc, self.letter, &file.name, file.number)?;
        let updated = erase_file(alloc, world, state, self.words, self.letter, &file.name)?;
        tell_updated(world, state, updated, self.types, &text)
    }
}

// The files that the line means go.
fn erase_files<W: World>(
    alloc: Global,
    world: &mut W,
    state: &mut State,
    words: &Tokens,
    line: &EraseLine,
) -> Result<Course, End>
    requires usable { IsUsable (spot W.World world.old state.old) }
    requires moment { is_moment state.old.moment ≡ true }
    ensures acts { Acts (spot W.World world.old state.old) (spot W.World world.new state.new)
        (λ units. spec.erase_files (machine_of state.old units) words.now line.now) result
        (course_of state.new) }
    ensures kept { state.new ≡ record state.old {
      table = state.new.table;
      places = state.new.places;
    } }
{
    let EraseFiles { names, mode } = line.files;
    let erasing = Erasing {
        words,
        letter: mode.letter,
        types: line.types,
    };
    update_taken(alloc, world, state, words, &names, &mode, &erasing)
}

/// ERASE: files of a disk go, one update each, in the order in which they stood.
pub fn run_erase<W: World>(
    alloc: Global,
    world: &mut W,
    state: &mut State,
    words: &Tokens,
) -> Result<Course, End>
    requires usable { IsUsable (spot W.World world.old state.old) }
    requires moment { is_moment state.old.moment ≡ true }
    ensures acts { Acts (spot W.World world.old state.old) (spot W.World world.new state.new)
        (λ units. spec.erase (machine_of state.old units) words.now) result (course_of state.new) }
    ensures kept { state.new ≡ record state.old {
      table = state.new.table;
      places = state.new.places;
    } }
{
    match erase_line(alloc, words) {
        Ok(line) => erase_files(alloc, world, state, words, &line),
        Err(fault) => refuse_command(alloc, world, words, fault),
    }
}
