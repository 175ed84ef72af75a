// The top call: a session as a whole.
ghost use Rattle.std.specs.Prelude.{◌≡◌, ◌≢◌, [], IfOk, Some};
ghost use Rattle.cms_fields.specs.Offsets.{IsOffset};
ghost use Rattle.cms_search.specs.Calls.{Usable, first_state};
ghost use Rattle.cms_search.specs.Tables.{HaveDistinctDevices, new_table};
ghost use Rattle.cms_world.specs.Seen.{seen};
ghost use Rattle.cms_ext.specs.Objects.{objects_of};
ghost use Rattle.cms_session.specs.Headline.{first_console, fresh};
ghost use Rattle.cms_session.specs.Sessions.{FitsWords, HasRoom, RunsNone, RunsOn, SessionIn, WorldCause, refusal_of, status_at, status_of};
ghost use Rattle.cms_words.specs.declared.fault.WordFault.{WordFault};
ghost use Rattle.cms_words.specs.declared.fault.WordFault.TheVariants.{Memory};
ghost use Rattle.cms_session.specs.Words.{AreUnits, Asked, Runs, asked_of, given_by, read_words};

use crate::generator::script;
use crate::session::play;
use crate::state::{Finish, Session};
use crate::status::Status;
use crate::units::attach_all;
use cms_cards::Reader;
use cms_ext::{ExtList, Extension};
use cms_line::Console;
use cms_search::{End, State, UnitList};
use cms_words::{WordFault, Words, read_words};
use cms_world::{Argv, World};
use exec2_run::Stack;
use std::alloc::{AllocError, Global};

// How a session ended that wasn't cut off.
fn status_of(finish: Finish) -> Status
    ensures { result ≡ status_of finish }
{
    match finish {
        Finish::AtEnd => Status::Done,
        Finish::AtTurns => Status::Turns,
    }
}

// How one ended that was.
fn status_at(end: End) -> Status
    ensures { result ≡ status_at end }
{
    match end {
        End::Memory => Status::Memory,
        End::Edge => Status::World,
    }
}

// How a session ends whose words are refused; want of memory is no refusal.
fn refusal(fault: WordFault) -> Status
    ensures { result ≡ refusal_of fault }
{
    match fault {
        WordFault::Memory => Status::Memory,
        WordFault::Syntax
        | WordFault::Unit(_)
        | WordFault::Turns
        | WordFault::Zone
        | WordFault::Twice(_)
        | WordFault::Seed => Status::Usage(fault),
    }
}

// The state of a session at its start. A generated script is given in place of the world's.
fn first_state(alloc: Global, words: &Words, units: UnitList) -> Result<State, AllocError>
    requires { HaveDistinctDevices units }
    ensures { IfOk result (λ state. state
        ≡ record (first_state words.now units) {
          console = first_console
              (given_by words.now.seed);
        }) }
{
    let mut state = State::new(alloc, words, units)?;
    if let Some(seed) = words.seed {
        state.console = Console::new(alloc, Some(script(alloc, seed)?))?;
    }
    Ok(state)
}

// A session on units that were attached.
fn run_on<W: World>(
    alloc: Global,
    world: &mut W,
    words: &Words,
    units: UnitList,
    extensions: ExtList,
) -> Status
    requires usable { Usable (W.told world.old) (new_table units) }
    requires distinct { HaveDistinctDevices units }
    requires offset { IsOffset words.now.offset }
    ensures ran { RunsOn units words.now (objects_of ⟦<dyn Extension as Extension>⟧ extensions)
        (seen W.World world.old) (seen W.World world.new) result }
    ensures no_usage { (fault : WordFault) → result ≢ Status.Usage fault }
    ensures cause { WorldCause (seen W.World world.old) (seen W.World world.new) result }
{
    let Ok(state) = first_state(alloc, words, units) else {
        return Status::Memory;
    };
    let mut session = Session {
        state,
        procedures: Stack::new(alloc),
        reader: Reader::new(alloc),
    };
    let mut extensions = extensions;
    match play(alloc, world, &mut session, &mut extensions) {
        Ok(finish) => status_of(finish),
        Err(end) => status_at(end),
    }
}

// The session that the words ask for.
fn run_words<W: World>(alloc: Global, world: &mut W, words: &Words, extensions: ExtList) -> Status
    requires units { AreUnits words.now.units }
    requires offset { IsOffset words.now.offset }
    requires room { HasRoom (W.told world.old) }
    ensures headline { W.told world.old ≡ Some (fresh [])
        → SessionIn (asked_of words.now) (objects_of ⟦<dyn Extension as Extension>⟧ extensions)
        (seen W.World world.old) (seen W.World world.new) result }
    ensures no_usage { (fault : WordFault) → result ≢ Status.Usage fault }
    ensures cause { WorldCause (seen W.World world.old) (seen W.World world.new) result }
{
    match attach_all(alloc, world, words.units.as_slice()) {
        Ok(units) => run_on(alloc, world, words, units, extensions),
        Err(end) => status_at(end),
    }
}

/// Runs a session of CMS commands: the words say its units and its terms, the world gives its script, and the status says how it ended.
///
/// The words are those of `cms [-t TURNS] [-z ZONE] [-g NUMBER] UNIT...`, the program's name first. Where they are refused the world
/// isn't touched; else the units are attached in their order, 1 to 16, and where one is device 191 and has a volume this is accessed as
/// disk A, without a message. Then lines are run, and the statements of the procedures that they begin, each for a turn, as many as `-t`
/// says and else 1,000,000. Lines of the program stack come first, then those of the script. A line whose first word has a procedure runs
/// it, as `EXEC` does, and up to 50 run one in another. Else the extension of that word answers the line, which may be a command's word
/// too. Else the commands are `ACCESS`, `RELEASE`, `FORMAT`, `QUERY`, `LISTFILE`, `STATE`, `TYPE`, `ERASE`, `RENAME`, `COPYFILE`,
/// `EXECIO`, `PUNCH`, `READCARD`, `DISK`, `NUCXDROP` and `NUCXMAP`; where a device fails in them, message 105 says so. `FORMAT`, `ERASE`,
/// `RENAME`, `COPYFILE`, `EXECIO` with `DISKW`, `LISTFILE` with `EXEC`, `READCARD`, `DISK` with `LOAD` and an extension write to the unit
/// where it is attached so that it may be written, with the stamp of their turn in the zone of `-z`; so do `TYPE` and `EXECIO` with
/// `DISKR` where they erase a file of mode number 3. The session's reader has no deck at the start. With `-g` the script is the generated
/// one of that number, and the world isn't read. A told journal must have at most 240 units.
///
/// - In a world that tells its journal, with no unit and no event yet, the session is a run of the machine of minidisks as lists
///   of named record lists, in which each extension is asked as an object that holds what it held and may do what its `does` allows; a
///   crash at any moment leaves a state that the machine has there.
/// - `Usage` comes exactly where the words are refused, but for want of memory.
/// - `World` comes only where the count of the console, the clock and the attaching rose in this call.
pub fn run_with<W: World>(alloc: Global, words: &Argv, world: &mut W, extensions: ExtList) -> Status
    requires room { HasRoom (W.told world.old) }
    ensures words { FitsWords (read_words words.now) result }
    ensures no_memory { result ≢ Status.Usage Memory }
    ensures refused { RunsNone (read_words words.now)
        → seen W.World world.new ≡ seen W.World world.old }
    ensures headline { (spec : Asked) → read_words words.now ≡ Runs spec
        → W.told world.old ≡ Some (fresh [])
        → SessionIn spec (objects_of ⟦<dyn Extension as Extension>⟧ extensions)
        (seen W.World world.old) (seen W.World world.new) result }
    ensures cause { WorldCause (seen W.World world.old) (seen W.World world.new) result }
{
    match read_words(alloc, words) {
        Ok(words) => run_words(alloc, world, &words, extensions),
        Err(fault) => refusal(fault),
    }
}

/// Runs a session without extensions, as `run_with` of none.
///
/// - In a world that tells its journal, with no unit and no event yet, the session is a run of the machine without objects.
/// - `Usage` comes exactly where the words are refused, but for want of memory.
/// - `World` comes only where the count of the console, the clock and the attaching rose in this call.
pub fn run<W: World>(alloc: Global, words: &Argv, world: &mut W) -> Status
    requires room { HasRoom (W.told world.old) }
    ensures words { FitsWords (read_words words.now) result }
    ensures no_memory { result ≢ Status.Usage Memory }
    ensures refused { RunsNone (read_words words.now)
        → seen W.World world.new ≡ seen W.World world.old }
    ensures headline { (spec : Asked) → read_words words.now ≡ Runs spec
        → W.told world.old ≡ Some (fresh [])
        → SessionIn spec [] (seen W.World world.old) (seen W.World world.new) result }
    ensures cause { WorldCause (seen W.World world.old) (seen W.World world.new) result }
{
    run_with(alloc, words, world, ExtList::new(alloc))
}
