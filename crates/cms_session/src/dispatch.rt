// What a line comes to: an extension answers it, a command is run, or a procedure begins.
ghost use Rattle.std.specs.Prelude.{◌≡◌, ◌≤◌, length, negsuc, true, IfOk};
ghost use Rattle.cms_fields.specs.Moments.{is_moment};
ghost use Rattle.cms_fields.specs.Offsets.{IsOffset};
ghost use Rattle.cms_line.specs.Messages.{message_text};
ghost use Rattle.cms_line.specs.Tokens.{tokens_of};
ghost use Rattle.cms_line.specs.declared.message.Message.TheVariants.{M001};
ghost use Rattle.cms_model.specs.Acts.{saying, typed_line};
ghost use Rattle.cms_search.specs.Calls.{spot, spot_with, Acts, Does, IsUsable, course_of, said};
ghost use Rattle.cms_search.specs.declared.state.Course.TheVariants.{Went};
ghost use Rattle.cms_world.specs.Seen.{seen};
ghost use Rattle.cms_ext.specs.Calls.{ended_of, run_tree};
ghost use Rattle.cms_ext.specs.Objects.{HasPlace, objects_of};
ghost use Rattle.cms_model.specs.Objects.{Start};
ghost use Rattle.cms_session.specs.RoundCalls.{command_tree, issue_tree, issued_beside, issued_started, obey_tree, request_tree, take_up_tree};
ghost use Rattle.cms_session.specs.Lines as spec;

use crate::command::{Command, Request, is_comment, request_of};
use crate::nucleus::{run_nucxdrop, run_nucxmap};
use cms_access::{run_access, run_century, run_format, run_query, run_release};
use cms_cards::{Reader, run as run_cards};
use cms_copyfile::run_copyfile;
use cms_exec::{Started, find_called, run_called, run_exec};
use cms_execio::run_execio;
use cms_ext::{ExtList, ExtReply, Extension, run};
use cms_fileops::{run_erase, run_rename, run_state, run_type};
use cms_line::{Line, Message, Token, Tokens, Word, tokens};
use cms_listfile::run_listfile;
use cms_names::Part;
use cms_operands::given;
use cms_search::{Course, End, State, refuse};
use cms_world::World;
use exec2_run::Exec;
use std::alloc::Global;

// The return code of a line that no command has.
const UNKNOWN: i32 = -3;

/// What a line comes to.
#[derive(Drop)]
pub enum Issued {
    /// its extension or its command has ended so
    Came(Course),
    /// a procedure has begun, before its first statement
    Begun(Exec),
}

// Types that no command has this word, and gives the code.
fn refuse_unknown<W: World>(alloc: Global, world: &mut W, word: &Word) -> Result<Course, End>
    ensures does { Does (seen W.World world.old) (seen W.World world.new)
        (saying (typed_line (message_text (M001 word.now)))) result said }
    ensures went { IfOk result (λ course. course ≡ Went (negsuc 2)) }
{
    let word = Word::of(alloc, word.bytes())?;
    refuse(alloc, world, Message::M001(word), UNKNOWN)
}

// Does what a line with these words asks for, the first of which is this.
fn run_command<W: World>(
    alloc: Global,
    world: &mut W,
    state: &mut State,
    line: &Line,
    words: &Tokens,
    word: &Word,
    command: Command,
) -> Result<Course, End>
    requires usable { IsUsable (spot W.World world.old state.old) }
    requires moment { is_moment state.old.moment ≡ true }
    ensures acts { Acts (spot W.World world.old state.old) (spot W.World world.new state.new)
        (command_tree state.old line.now words.now word.now command) result (course_of state.new) }
    ensures offset { state.new.offset ≡ state.old.offset }
    ensures left { state.new.left ≤ state.old.left }
{
    match command {
        Command::Access => run_access(alloc, world, state, words),
        Command::Release => run_release(alloc, world, state, words),
        Command::Format => run_format(alloc, world, state, words),
        Command::Century => run_century(alloc, world, state, words),
        Command::Query => run_query(alloc, world, state, words),
        Command::Listfile => run_listfile(alloc, world, state, words),
        Command::Rename => run_rename(alloc, world, state, words),
        Command::Erase => run_erase(alloc, world, state, words),
        Command::TypeFile => run_type(alloc, world, state, words),
        Command::State => run_state(alloc, world, state, words),
        Command::Copyfile => run_copyfile(alloc, world, state, words),
        Command::Execio => run_execio(alloc, world, state, line, words),
        Command::Unknown => refuse_unknown(alloc, world, word),
    }
}

// What a call of a procedure comes to.
fn called(started: Started) -> Issued
    ensures { result ≡ issued_started started }
{
    match started {
        Started::Begun(exec) => Issued::Begun(exec),
        Started::Refused(course) => Issued::Came(course),
    }
}

// Does what the first of these words asks for, where so many procedures run; no extension has it.
fn request<W: World>(
    alloc: Global,
    world: &mut W,
    state: &mut State,
    extensions: &mut ExtList,
    reader: &mut Reader,
    running: usize,
    line: &Line,
    words: &Tokens,
) -> Result<Issued, End>
    requires usable { IsUsable (spot W.World world.old state.old) }
    requires moment { is_moment state.old.moment ≡ true }
    requires offset { IsOffset state.old.offset }
    ensures acts { Acts (spot_with W.World world.old state.old
        (objects_of ⟦<dyn Extension as Extension>⟧ extensions.old))
        (spot_with W.World world.new state.new
        (objects_of ⟦<dyn Extension as Extension>⟧ extensions.new))
        (request_tree state.old
        (objects_of ⟦<dyn Extension as Extension>⟧ extensions.old) reader.old running line.now
        words.now)
        result (issued_beside state.new
        (objects_of ⟦<dyn Extension as Extension>⟧ extensions.new) reader.new) }
    ensures offset { state.new.offset ≡ state.old.offset }
    ensures left { state.new.left ≤ state.old.left }
{
    let Some(first) = words.get(0) else {
        return Ok(Issued::Came(Course::Went(0)));
    };
    match request_of(first.text.bytes()) {
        Request::Exec => {
            let started = run_exec(alloc, world, state, line, words, running)?;
            Ok(called(started))
        }
        Request::Nucxdrop => {
            let course = run_nucxdrop(alloc, world, state, extensions, words)?;
            Ok(Issued::Came(course))
        }
        Request::Nucxmap => {
            let course = run_nucxmap(alloc, world, state, extensions, words)?;
            Ok(Issued::Came(course))
        }
        Request::Cards(command) => {
            let course = run_cards(alloc, world, state, reader, words, command)?;
            Ok(Issued::Came(course))
        }
        Request::Command(command) => {
            let course = run_command(alloc, world, state, line, words, &first.text, command)?;
            Ok(Issued::Came(course))
        }
    }
}

/// The place of the extension of a word, which is in upper case; none exactly where the word is no valid name, or no extension has it.
pub fn extension_named(extensions: &ExtList, word: &[u8]) -> Option<u32>
    ensures { result ≡ spec.extension_named
        (objects_of ⟦<dyn Extension as Extension>⟧ extensions.now) word.now }
{
    match Part::read(word) {
        Ok(word) => extensions.find(&word),
        Err(_) => None,
    }
}

// The place of the extension whose word is the first; none exactly where there is no word, or no extension has it.
fn extension_of(extensions: &ExtList, words: &[Token]) -> Option<u32>
    ensures { result ≡ spec.extension_of
        (objects_of ⟦<dyn Extension as Extension>⟧ extensions.now) words.now }
{
    match given(words, 0) {
        Some(text) => extension_named(extensions, text),
        None => None,
    }
}

// The extension in a place answers a line.
fn run_extension<W: World>(
    alloc: Global,
    world: &mut W,
    state: &mut State,
    extensions: &mut ExtList,
    place: u32,
    line: &Line,
) -> Result<Course, End>
    requires usable { IsUsable (spot W.World world.old state.old) }
    requires moment { is_moment state.old.moment ≡ true }
    requires offset { IsOffset state.old.offset }
    requires there { HasPlace place (objects_of ⟦<dyn Extension as Extension>⟧ extensions.old) }
    ensures acts { Acts (spot_with W.World world.old state.old
        (objects_of ⟦<dyn Extension as Extension>⟧ extensions.old))
        (spot_with W.World world.new state.new
        (objects_of ⟦<dyn Extension as Extension>⟧ extensions.new))
        (run_tree state.old (objects_of ⟦<dyn Extension as Extension>⟧ extensions.old) place
        (Start line.now))
        result (ended_of state.new (objects_of ⟦<dyn Extension as Extension>⟧ extensions.new)) }
    ensures offset { state.new.offset ≡ state.old.offset }
    ensures left { state.new.left ≤ state.old.left }
{
    let line = Line::of(alloc, line.bytes())?;
    run(
        alloc,
        world,
        state,
        extensions,
        place,
        ExtReply::Start(line),
    )
}

// Does what a line with these words asks for: an extension answers it, or without one its command is run.
fn obey<W: World>(
    alloc: Global,
    world: &mut W,
    state: &mut State,
    extensions: &mut ExtList,
    reader: &mut Reader,
    running: usize,
    line: &Line,
    words: &Tokens,
) -> Result<Issued, End>
    requires usable { IsUsable (spot W.World world.old state.old) }
    requires moment { is_moment state.old.moment ≡ true }
    requires offset { IsOffset state.old.offset }
    ensures acts { Acts (spot_with W.World world.old state.old
        (objects_of ⟦<dyn Extension as Extension>⟧ extensions.old))
        (spot_with W.World world.new state.new
        (objects_of ⟦<dyn Extension as Extension>⟧ extensions.new))
        (obey_tree state.old
        (objects_of ⟦<dyn Extension as Extension>⟧ extensions.old) reader.old running line.now
        words.now)
        result (issued_beside state.new
        (objects_of ⟦<dyn Extension as Extension>⟧ extensions.new) reader.new) }
    ensures offset { state.new.offset ≡ state.old.offset }
    ensures left { state.new.left ≤ state.old.left }
{
    match extension_of(extensions, words.as_slice()) {
        Some(place) => {
            let course = run_extension(alloc, world, state, extensions, place, line)?;
            Ok(Issued::Came(course))
        }
        None => request(
            alloc, world, state, extensions, reader, running, line, words,
        ),
    }
}

/// Does what a line asks for that the newest of so many procedures issues. A blank line and a comment do nothing, with code 0, and no
/// procedure begins by its name alone.
pub fn issue<W: World>(
    alloc: Global,
    world: &mut W,
    state: &mut State,
    extensions: &mut ExtList,
    reader: &mut Reader,
    running: usize,
    line: &Line,
) -> Result<Issued, End>
    requires usable { IsUsable (spot W.World world.old state.old) }
    requires moment { is_moment state.old.moment ≡ true }
    requires offset { IsOffset state.old.offset }
    ensures acts { Acts (spot_with W.World world.old state.old
        (objects_of ⟦<dyn Extension as Extension>⟧ extensions.old))
        (spot_with W.World world.new state.new
        (objects_of ⟦<dyn Extension as Extension>⟧ extensions.new))
        (issue_tree state.old
        (objects_of ⟦<dyn Extension as Extension>⟧ extensions.old) reader.old running line.now)
        result (issued_beside state.new
        (objects_of ⟦<dyn Extension as Extension>⟧ extensions.new) reader.new) }
    ensures offset { state.new.offset ≡ state.old.offset }
    ensures left { state.new.left ≤ state.old.left }
{
    if is_comment(line.bytes()) {
        return Ok(Issued::Came(Course::Went(0)));
    }
    let words = tokens(alloc, line)?;
    obey(
        alloc, world, state, extensions, reader, running, line, &words,
    )
}

/// Does what a line of CMS asks for that is neither blank nor a comment, where so many procedures run: the procedure that its first word
/// names begins, and without one its extension or its command is run.
pub fn take_up<W: World>(
    alloc: Global,
    world: &mut W,
    state: &mut State,
    extensions: &mut ExtList,
    reader: &mut Reader,
    running: usize,
    line: &Line,
) -> Result<Issued, End>
    requires usable { IsUsable (spot W.World world.old state.old) }
    requires moment { is_moment state.old.moment ≡ true }
    requires offset { IsOffset state.old.offset }
    ensures acts { Acts (spot_with W.World world.old state.old
        (objects_of ⟦<dyn Extension as Extension>⟧ extensions.old))
        (spot_with W.World world.new state.new
        (objects_of ⟦<dyn Extension as Extension>⟧ extensions.new))
        (take_up_tree state.old
        (objects_of ⟦<dyn Extension as Extension>⟧ extensions.old) reader.old running line.now)
        result (issued_beside state.new
        (objects_of ⟦<dyn Extension as Extension>⟧ extensions.new) reader.new) }
    ensures offset { state.new.offset ≡ state.old.offset }
    ensures left { state.new.left ≤ state.old.left }
{
    let words = tokens(alloc, line)?;
    match find_called(&state.table, words.as_slice()) {
        Some(found) => {
            let started = run_called(alloc, world, state, line, &words, &found, running)?;
            Ok(called(started))
        }
        None => obey(
            alloc, world, state, extensions, reader, running, line, &words,
        ),
    }
}
