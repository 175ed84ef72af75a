// FORMAT's questions.
ghost use Rattle.std.specs.Prelude.{◌≡◌, ◌≤◌, length, map, IfOk};
ghost use Rattle.std.specs.List.{list_all};
ghost use Rattle.cms_ebcdic.specs.CodePage.{upper_of};
ghost use Rattle.cms_names.specs.Names.{is_name_character};
ghost use Rattle.cms_search.specs.Calls.{Acts, machine_of, spot};
ghost use Rattle.cms_search.specs.Talks.{asked_of};
ghost use Rattle.cms_search.specs.Texts.{left_in};
ghost use Rattle.cms_access.specs.Format as spec;
ghost use Rattle.cms_access.specs.Questions.{label_tree, labelling_of, question_tree};

use cms_ebcdic::fold_upper;
use cms_line::{Line, Message, Word};
use cms_names::is_name_character;
use cms_search::{Asked, Course, End, State, refuse, say_message};
use cms_text::{BLANK, is_keyword, without_leading_blanks, without_trailing_blanks};
use cms_world::World;
use std::alloc::{AllocError, Global};

// The length of a volume id.
const LABEL: usize = 6;

// The return code of a name that isn't valid.
const BAD_NAME: i32 = 20;

/// What the question for a volume id comes to.
#[derive(Clone, Copy)]
pub enum Label {
    /// a volume id, in EBCDIC
    Given([u8; 6]),
    /// there is none, and the command ends so
    Ended(Course),
}

// A line in capital letters.
fn folded(alloc: Global, line: &Line) -> Result<Word, AllocError>
    ensures { IfOk result (λ text. text ≡ map upper_of line.now) }
{
    let text = line.bytes();
    let bytes: Vec<u8> = text.iter().map(|byte| fold_upper(*byte)).collect(alloc)?;
    Ok(Word::take(bytes))
}

/// A line that was asked for, folded and without the blanks around it.
pub fn reply(alloc: Global, line: &Line) -> Result<Word, AllocError>
    ensures { IfOk result (λ text. text ≡ spec.reply line.now) }
{
    let text = folded(alloc, line)?;
    let text = without_trailing_blanks(text.bytes());
    Word::of(alloc, without_leading_blanks(text))
}

/// Whether a reply is that the command is to go on: YES or 1.
#[tactic(auto, unfolding(crate::specs::Format::goes_on))]
pub fn goes_on(text: &[u8]) -> bool
    ensures { result ≡ spec.goes_on text.now }
{
    is_keyword(text, "YES") || is_keyword(text, "1")
}

fn are_name_characters(text: &[u8]) -> bool
    ensures { result ≡ list_all is_name_character text.now }
{
    text.iter().all(|byte| is_name_character(*byte))
}

// Whether a reply is a volume id: 1 to 6 name characters.
#[tactic(auto, unfolding(crate::specs::Format::is_label))]
fn is_label(text: &[u8]) -> bool
    ensures { result ≡ spec.is_label text.now }
{
    (1..=LABEL).contains(&text.len()) && are_name_characters(text)
}

// The volume id of a text, filled with blanks.
fn filled(text: &[u8]) -> [u8; 6]
    requires { length text.now ≤ 6 }
    ensures { result ≡ left_in 6 text.now }
{
    let mut volid = [BLANK; LABEL];
    volid[..text.len()].copy_from_slice(text);
    volid
}

// The volume id that a reply is; any other reply is refused.
fn take_label<W: World>(
    alloc: Global,
    world: &mut W,
    state: &State,
    text: Word,
) -> Result<Label, End>
    ensures { Acts (spot W.World world.old state.now) (spot W.World world.new state.now)
        (λ units. spec.labelled (machine_of state.now units) text) result (labelling_of state.now) }
{
    if is_label(text.bytes()) {
        return Ok(Label::Given(filled(text.bytes())));
    }
    let course = refuse(alloc, world, Message::M062(text), BAD_NAME)?;
    Ok(Label::Ended(course))
}

/// Types a question, and asks for a line. The stack, the console and the turns that are left change with the ask.
pub fn question<W: World>(
    alloc: Global,
    world: &mut W,
    state: &mut State,
    message: Message,
) -> Result<Asked, End>
    ensures acts { Acts (spot W.World world.old state.old) (spot W.World world.new state.new)
        (question_tree state.old message) result (asked_of state.new) }
    ensures kept { state.new ≡ record state.old {
      stack = state.new.stack;
      console = state.new.console;
      left = state.new.left;
    } }
    ensures left { state.new.left ≤ state.old.left }
{
    say_message(alloc, world, message)?;
    state.ask(alloc, world)
}

/// Asks for a volume id. The stack, the console and the turns that are left change with the ask.
pub fn ask_label<W: World>(alloc: Global, world: &mut W, state: &mut State) -> Result<Label, End>
    ensures acts { Acts (spot W.World world.old state.old) (spot W.World world.new state.new)
        (label_tree state.old) result (labelling_of state.new) }
    ensures kept { state.new ≡ record state.old {
      stack = state.new.stack;
      console = state.new.console;
      left = state.new.left;
    } }
    ensures left { state.new.left ≤ state.old.left }
{
    match question(alloc, world, state, Message::M605)? {
        Asked::Given(line) => {
            let text = reply(alloc, &line)?;
            take_label(alloc, world, state, text)
        }
        Asked::Spent => Ok(Label::Ended(Course::OutOfTurns)),
    }
}
