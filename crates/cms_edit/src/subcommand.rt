// The subcommands of the editor, as a line spells them.
ghost use Rattle.std.specs.Prelude.{◌≡◌, ◌≤◌, ◌<◌, ◌∷◌, length, drop, IfSome};
ghost use Rattle.std.specs.Option.{option_map};
ghost use Rattle.cms_text.specs.Limits.{longest_text};
ghost use Rattle.cms_edit.specs.Subcommands as spec;
ghost use Rattle.cms_edit.specs.Subcommands.{HasLines, IsLine, shown};

use cms_text::{
    BLANK, first_word, is_keyword, magnitude, without_leading_blanks, without_one_blank,
};

/// The most digits of a number.
const MOST_DIGITS: usize = 9;

/// What a subcommand begins with.
#[derive(Clone, Copy)]
pub enum Verb {
    Top,
    Bottom,
    Next,
    Up,
    TypeLines,
    Input,
    Replace,
    Delete,
    Locate,
    Change,
    Save,
    End,
}

/// What a line asks the editor to do.
#[derive(Clone, Copy)]
pub enum Subcommand<'a> {
    /// the place before the first line is current
    Top,
    /// the last line is current
    Bottom,
    /// so many lines further down
    Next(u32),
    /// so many lines further up
    Up(u32),
    /// so many lines are said, from the current one on
    TypeLines(u32),
    /// a line behind the current one, which is current then
    Input(&'a [u8]),
    /// the current line becomes this one
    Replace(&'a [u8]),
    /// so many lines are taken out, from the current one on
    Delete(u32),
    /// the next line that contains this is current
    Locate(&'a [u8]),
    /// in the current line the first becomes the second
    Change(&'a [u8], &'a [u8]),
    /// the buffer is put to its file
    Save,
    /// no more subcommands
    End,
}

// The verb that a word is, in capital or small letters.
#[tactic(auto, unfolding(crate::specs::Subcommands::verb_of))]
fn verb_of(word: &[u8]) -> Option<Verb>
    ensures { result ≡ spec.verb_of word.now }
{
    if is_keyword(word, "TOP") {
        Some(Verb::Top)
    } else if is_keyword(word, "BOTTOM") {
        Some(Verb::Bottom)
    } else if is_keyword(word, "NEXT") {
        Some(Verb::Next)
    } else if is_keyword(word, "UP") {
        Some(Verb::Up)
    } else if is_keyword(word, "TYPE") {
        Some(Verb::TypeLines)
    } else if is_keyword(word, "INPUT") {
        Some(Verb::Input)
    } else if is_keyword(word, "REPLACE") {
        Some(Verb::Replace)
    } else if is_keyword(word, "DELETE") {
        Some(Verb::Delete)
    } else if is_keyword(word, "LOCATE") {
        Some(Verb::Locate)
    } else if is_keyword(word, "CHANGE") {
        Some(Verb::Change)
    } else if is_keyword(word, "SAVE") {
        Some(Verb::Save)
    } else if is_keyword(word, "END") {
        Some(Verb::End)
    } else {
        None
    }
}

// What stands behind the first word.
#[tactic(auto, unfolding(crate::specs::Subcommands::behind_word))]
fn behind_word(line: &[u8]) -> &[u8]
    ensures text { result.now ≡ spec.behind_word line.now }
    ensures short { length result.now ≤ length line.now }
{
    let words = without_leading_blanks(line);
    &words[first_word(line).len()..]
}

// The text of a subcommand: what follows one blank behind its word, and one blank where nothing does.
#[tactic(auto, unfolding(crate::specs::Subcommands::text_behind))]
fn text_behind(rest: &[u8]) -> &[u8]
    requires { length rest.now ≤ longest_text }
    ensures text { result.now ≡ spec.text_behind rest.now }
    ensures line { IsLine result.now }
{
    match without_one_blank(rest) {
        [] => &[BLANK],
        text => text,
    }
}

// A subcommand of which no word may follow.
#[tactic(auto, unfolding(crate::specs::Subcommands::alone))]
fn alone<'a>(subcommand: Subcommand<'a>, rest: &[u8]) -> Option<Subcommand<'a>>
    requires { HasLines subcommand }
    ensures value { option_map shown result ≡ spec.alone (shown subcommand.entry) rest.now }
    ensures lines { IfSome result HasLines }
{
    first_word(rest).is_empty().then_some(subcommand)
}

// The number of a subcommand, 1 where no word follows.
#[tactic(auto, unfolding(crate::specs::Subcommands::count_behind))]
fn count_behind(rest: &[u8]) -> Option<u32>
    ensures { result ≡ spec.count_behind rest.now }
{
    let word = first_word(rest);
    if word.is_empty() {
        return Some(1);
    }
    if !first_word(behind_word(rest)).is_empty() {
        return None;
    }
    let count = magnitude(MOST_DIGITS, word)?;
    Some(count as u32)
}

// The place of the first byte that is this one.
fn place_of(byte: u8, text: &[u8]) -> Option<usize>
    ensures place { result ≡ spec.place_of byte text.now }
    ensures within { IfSome result (λ place. place < length text.now) }
{
    text.iter().position(|other| *other == byte)
}

// Two texts, each of which a byte ends.
#[tactic(auto, unfolding(crate::specs::Subcommands::change_between))]
fn change_between(delimiter: u8, text: &[u8]) -> Option<Subcommand<'_>>
    requires { length text.now ≤ longest_text }
    ensures value { option_map shown result ≡ spec.change_between delimiter text.now }
    ensures lines { IfSome result HasLines }
{
    let first = place_of(delimiter, text)?;
    let behind = &text[first + 1..];
    let second = place_of(delimiter, behind)?;
    (second + 1 == behind.len()).then_some(Subcommand::Change(&text[..first], &behind[..second]))
}

// The two texts of a CHANGE, whose first byte delimits.
fn change_in(text: &[u8]) -> Option<Subcommand<'_>>
    requires { length text.now ≤ longest_text }
    ensures value { option_map shown result ≡ spec.change_in text.now }
    ensures lines { IfSome result HasLines }
{
    match text {
        [] => None,
        [delimiter, text @ ..] => change_between(*delimiter, text),
    }
}

// The subcommand of a verb and what stands behind it, if it is one.
#[tactic(auto, unfolding(crate::specs::Subcommands::spelled_by))]
fn spelled_by(verb: Verb, rest: &[u8]) -> Option<Subcommand<'_>>
    requires { length rest.now ≤ longest_text }
    ensures value { option_map shown result ≡ spec.spelled_by verb rest.now }
    ensures lines { IfSome result HasLines }
{
    match verb {
        Verb::Top => alone(Subcommand::Top, rest),
        Verb::Bottom => alone(Subcommand::Bottom, rest),
        Verb::Next => Some(Subcommand::Next(count_behind(rest)?)),
        Verb::Up => Some(Subcommand::Up(count_behind(rest)?)),
        Verb::TypeLines => Some(Subcommand::TypeLines(count_behind(rest)?)),
        Verb::Input => Some(Subcommand::Input(text_behind(rest))),
        Verb::Replace => Some(Subcommand::Replace(text_behind(rest))),
        Verb::Delete => Some(Subcommand::Delete(count_behind(rest)?)),
        Verb::Locate => Some(Subcommand::Locate(text_behind(rest))),
        Verb::Change => change_in(text_behind(rest)),
        Verb::Save => alone(Subcommand::Save, rest),
        Verb::End => alone(Subcommand::End, rest),
    }
}

/// The subcommand that a line of at most 255 bytes spells; none exactly where it spells none.
#[tactic(auto, unfolding(crate::specs::Subcommands::subcommand_of))]
pub fn subcommand_of(line: &[u8]) -> Option<Subcommand<'_>>
    requires { length line.now ≤ longest_text }
    ensures value { option_map shown result ≡ spec.subcommand_of line.now }
    ensures lines { IfSome result HasLines }
{
    let verb = verb_of(first_word(line))?;
    spelled_by(verb, behind_word(line))
}
