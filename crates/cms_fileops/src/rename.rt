// RENAME.
ghost use Rattle.std.specs.Prelude.{◌≡◌, ◌≤◌, true, IfOk};
ghost use Rattle.cms_fields.specs.Moments.{is_moment};
ghost use Rattle.cms_operands.specs.Choices.{AnswersLine};
ghost use Rattle.cms_operands.specs.Refusals.{text_at};
ghost use Rattle.cms_search.specs.Calls.{Acts, IsUsable, course_of, machine_of, spot};
ghost use Rattle.cms_files.specs.Updates.{updated_of};
ghost use Rattle.cms_fileops.specs.Rename as spec;

use cms_edf::Change;
use cms_files::{
    FileUpdate, Listed, NameChoice, Updated, file_text, find_written, name_choice, output_name,
    stop_exists, stop_search, tell_updated, update_disk, update_taken,
};
use cms_line::{Token, Tokens, Word};
use cms_names::{Name, OutId, equal_signs};
use cms_operands::{
    ChosenOption, CommandFault, OptionForm, Refusal, WriteMode, chosen_options, ended, needed,
    operands, output_mode, writing_mode,
};
use cms_search::{AccessTable, Course, End, State, letter_word, refuse_command};
use cms_world::World;
use std::alloc::{AllocError, Global};

const EQUAL_SIGN: u8 = 0x7E;

// The place of the output's mode in the line.
const OUTPUT_MODE: usize = 6;

/// The files that are renamed, and what they get.
#[derive(Clone, Copy)]
pub struct RenameFiles {
    pub names: NameChoice,
    pub mode: WriteMode,
    pub output: OutId,
    /// the mode number, 0 to 6; without one it stays
    pub number: Option<u8>,
}

/// A name and a mode number that a file gets.
#[derive(Clone, Copy)]
pub struct Renaming {
    pub name: Name,
    /// 0 to 6
    pub number: u8,
}

/// An option of RENAME.
#[derive(Clone, Copy)]
pub enum RenameOption {
    /// TYPE
    TypeFiles,
    NoType,
    /// which has no effect
    Updirt,
}

/// What RENAME's line says.
#[derive(Clone, Copy)]
pub struct RenameLine {
    pub files: RenameFiles,
    /// each file is typed
    pub types: bool,
}

// The number that the output's mode gives, whose letter is the input's.
fn number_for(letter: u8, output: Option<WriteMode>) -> Result<Option<u8>, Refusal>
    ensures { result ≡ spec.number_for letter output }
{
    match output {
        None => Ok(None),
        Some(mode) if mode.letter == letter => Ok(mode.number),
        Some(_) => Err(Refusal::BadMode(6)),
    }
}

#[tactic(auto, unfolding(crate::specs::Rename::rename_operands))]
fn rename_operands(operands: &[Token]) -> Result<RenameFiles, Refusal>
    ensures { result ≡ spec.rename_operands operands.now }
{
    let names = name_choice(operands, 1)?;
    let mode = writing_mode(3, needed(operands, 3)?)?;
    let output = output_name(operands, 4)?;
    let number = number_for(mode.letter, output_mode(6, needed(operands, 6)?)?)?;
    ended(operands, 7)?;
    Ok(RenameFiles {
        names,
        mode,
        output,
        number,
    })
}

fn options() -> [OptionForm<RenameOption>; 3]
    ensures { result ≡ spec.options }
{
    [
        OptionForm::flag(RenameOption::TypeFiles, b"TYPE    ", 2),
        OptionForm::flag(RenameOption::NoType, b"NOTYPE  ", 3),
        OptionForm::flag(RenameOption::Updirt, b"UPDIRT  ", 2),
    ]
}

// Whether files are typed, by one option more.
fn types_with(types: bool, chosen: &ChosenOption<RenameOption>) -> bool
    ensures { result ≡ spec.types_with types chosen.now }
{
    match chosen.option {
        RenameOption::TypeFiles => true,
        RenameOption::NoType => false,
        RenameOption::Updirt => types,
    }
}

// Whether files are typed: the last of TYPE and NOTYPE says so.
fn types_of(chosen: &[ChosenOption<RenameOption>]) -> bool
    ensures { result ≡ spec.types_of chosen.now }
{
    chosen.iter().fold(false, types_with)
}

/// What RENAME's line says, or why it is refused.
pub fn rename_line(alloc: Global, words: &Tokens) -> Result<RenameLine, CommandFault>
    ensures { AnswersLine (spec.rename_line words.now) result }
{
    let files = rename_operands(operands(words.as_slice()))?;
    let chosen = chosen_options(alloc, &options(), words)?;
    Ok(RenameLine {
        files,
        types: types_of(chosen.as_slice()),
    })
}

// What a file gets; without a digit its number stays.
fn renaming_of(files: &RenameFiles, file: &Listed) -> Renaming
    ensures { result ≡ spec.renaming_of files.now file.now }
{
    Renaming {
        name: equal_signs(&file.name, &files.output),
        number: files.number.unwrap_or(file.number),
    }
}

// Whether the new name is that of another file of the disk of a letter.
fn is_others(table: &AccessTable, letter: u8, from: &Name, to: &Name) -> bool
    ensures { spec.AreOthers table.now letter from.now to.now result }
{
    if from == to {
        return false;
    }
    match table.disk(letter) {
        Some(disk) => disk.has(to),
        None => false,
    }
}

// The output's mode as the line has it; = is shown as the letter.
fn mode_shown(alloc: Global, letter: u8, words: &[Token]) -> Result<Word, AllocError>
    ensures { IfOk result (λ word. word ≡ spec.mode_shown letter (text_at words.now 6)) }
{
    match words.get(OUTPUT_MODE) {
        Some(word) if word.text.bytes() == [EQUAL_SIGN].as_slice() => letter_word(alloc, letter),
        Some(word) => Word::of(alloc, word.text.bytes()),
        None => Word::of(alloc, &[]),
    }
}

// The new name is another file's.
fn stop_others<W: World>(
    alloc: Global,
    world: &mut W,
    state: &State,
    words: &Tokens,
    letter: u8,
    name: &Name,
) -> Result<Updated, End>
    ensures { Acts (spot W.World world.old state.now) (spot W.World world.new state.now)
        (λ units. spec.others_name (machine_of state.now units) words.now letter name.now) result
        (updated_of state.now) }
{
    let mode = mode_shown(alloc, letter, words.as_slice())?;
    stop_exists(alloc, world, state, name, mode)
}

// The file of a name on the disk of a letter gets another name or number.
fn rename_file<W: World>(
    alloc: Global,
    world: &mut W,
    state: &mut State,
    words: &Tokens,
    letter: u8,
    from: &Name,
    to: &Renaming,
) -> Result<Updated, End>
    requires usable { IsUsable (spot W.World world.old state.old) }
    requires moment { is_moment state.old.moment ≡ true }
    requires number { to.now.number ≤ 6 }
    ensures acts { Acts (spot W.World world.old state.old) (spot W.World world.new state.new)
        (λ units. spec.rename_file (machine_of state.old units) words.now letter from.now to.now)
        result (updated_of state.new) }
    ensures kept { state.new ≡ record state.old {
      table = state.new.table;
      places = state.new.places;
    } }
{
    match find_written(&state.table, letter, from) {
        Ok(()) if is_others(&state.table, letter, from, &to.name) => {
            stop_others(alloc, world, state, words, letter, &to.name)
        }
        Ok(()) => {
            let change = Change::Rename {
                from,
                to: &to.name,
                number: to.number,
            };
            update_disk(alloc, world, state, letter, &change)
        }
        Err(fault) => stop_search(alloc, world, state, words, 1, fault),
    }
}

// The renaming of files, as a line asks for it.
#[derive(Clone, Copy)]
struct Renamer<'w> {
    words: &'w Tokens,
    line: &'w RenameLine,
}

impl FileUpdate<Listed> for Renamer<'_> {
    ghost tree = { λ r. spec.rename_listed r.words.now r.line.now };

    ghost takes = { λ r f. (spec.renaming_of r.line.now.files f).number ≤ 6 };

    fn update<W: World>(
        &self,
        alloc: Global,
        world: &mut W,
        state: &mut State,
        file: &Listed,
    ) -> Result<Updated, End> {
        let letter = self.line.files.mode.letter;
        let to = renaming_of(&self.line.files, file);
        let text = file_text(alloc, letter, &to.name, to.number)?;
        let updated = rename_file(alloc, world, state, self.words, letter, &file.name, &to)?;
        tell_updated(world, state, updated, self.line.types, &text)
    }
}

// The files that the line means get other names or numbers.
fn rename_files<W: World>(
    alloc: Global,
    world: &mut W,
    state: &mut State,
    words: &Tokens,
    line: &RenameLine,
) -> Result<Course, End>
    requires usable { IsUsable (spot W.World world.old state.old) }
    requires moment { is_moment state.old.moment ≡ true }
    requires number { spec.HasMode line.now.files.number }
    ensures acts { Acts (spot W.World world.old state.old) (spot W.World world.new state.new)
        (λ units. spec.rename_files (machine_of state.old units) words.now line.now) result
        (course_of state.new) }
    ensures kept { state.new ≡ record state.old {
      table = state.new.table;
      places = state.new.places;
    } }
{
    let files = &line.files;
    let renamer = Renamer { words, line };
    update_taken(
        alloc,
        world,
        state,
        words,
        &files.names,
        &files.mode,
        &renamer,
    )
}

/// RENAME: files of a disk get other names or numbers, one update each, in the order in which they stood.
pub fn run_rename<W: World>(
    alloc: Global,
    world: &mut W,
    state: &mut State,
    words: &Tokens,
) -> Result<Course, End>
    requires usable { IsUsable (spot W.World world.old state.old) }
    requires moment { is_moment state.old.moment ≡ true }
    ensures acts { Acts (spot W.World world.old state.old) (spot W.World world.new state.new)
        (λ units. spec.rename (machine_of state.old units) words.now) result (course_of state.new) }
    ensures kept { state.new ≡ record state.old {
      table = state.new.table;
      places = state.new.places;
    } }
{
    match rename_line(alloc, words) {
        Ok(line) => rename_files(alloc, world, state, words, &line),
        Err(fault) => refuse_command(alloc, world, words, fault),
    }
}
