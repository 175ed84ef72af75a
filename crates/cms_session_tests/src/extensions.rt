// Extensions for tests. NOTE asks for lines and types them, up to END or an empty one. CARRY copies a file, as in `CARRY A TEXT A B TEXT A`. HEAP writes
// one that is too long. EDIT is the editor. PAD types the texts that are sent to it, and takes no empty one. Any other word has a
// tally of its own.
ghost use Rattle.std.specs.Prelude.{◌≡◌, ◌<◌, IfOk, IfSome};
ghost use Rattle.cms_ext.specs.Replies.{MayBe};

use cms_edit::Editor;
use cms_ext::{ExtList, ExtReply, ExtWant, Extension, Record, Records, Tally};
use cms_line::{Line, Lines, Tokens, tokens};
use cms_names::{Name, Part};
use cms_text::{coded, ebcdic};
use std::alloc::{AllocError, Global};

// The code of what isn't understood.
const UNKNOWN: i32 = 24;

/// Asks for lines.
#[derive(Drop)]
struct Note {}

// A line as lines.
fn line_alone(alloc: Global, line: &Line) -> Result<Lines, AllocError> {
    let mut lines = Lines::new(alloc);
    lines.push(Line::of(alloc, line.bytes())?)?;
    Ok(lines)
}

impl Extension for Note {
    ghost content = { λ n. Rattle.std.specs.Prelude.[] };

    ghost does = { λ before reply want after. Rattle.std.specs.Prelude.true };

    fn turn(&mut self, alloc: Global, reply: &ExtReply) -> Result<ExtWant, AllocError> {
        match reply {
            ExtReply::Start(_) | ExtReply::Went => Ok(ExtWant::Ask),
            ExtReply::Got(line) => {
                if line.bytes().is_empty() || line.bytes() == coded(b"END").as_slice() {
                    return Ok(ExtWant::Done(7));
                }
                Ok(ExtWant::Say(line_alone(alloc, line)?))
            }
            ExtReply::Sub(_) | ExtReply::File(_) | ExtReply::Refused(_) => {
                Ok(ExtWant::Done(UNKNOWN))
            }
        }
    }
}

// A file on the disk of a letter, A is 0.
#[derive(Clone, Copy)]
struct Place {
    name: Name,
    letter: u8,
    ghost lettered: { Rattle.std.specs.Prelude.◌<◌ letter 26 },
}

/// Copies a file.
#[derive(Drop)]
struct Carry {
    to: Option<Place>,
}

// The letters of the tests.
fn letter_of(text: &[u8]) -> Option<u8>
    ensures { IfSome result (λ letter. letter < 26) }
{
    match text {
        [0xC1] => Some(0),
        [0xC2] => Some(1),
        [0xC3] => Some(2),
        _ => None,
    }
}

// The file that three words name.
fn place_at(words: &Tokens, at: usize) -> Option<Place> {
    let words = words.as_slice().get(at..)?;
    let [file, kind, letter, ..] = words else {
        return None;
    };
    let file = Part::read(file.text.bytes()).ok()?;
    let kind = Part::read(kind.text.bytes()).ok()?;
    let letter = letter_of(letter.text.bytes())?;
    Some(Place {
        name: Name { file, kind },
        letter,
    })
}

impl Carry {
    // Both files are named.
    fn start(&mut self, alloc: Global, line: &Line) -> Result<ExtWant, AllocError>
        ensures { IfOk result MayBe }
    {
        let words = tokens(alloc, line)?;
        let Some(from) = place_at(&words, 1) else {
            return Ok(ExtWant::Done(UNKNOWN));
        };
        self.to = place_at(&words, 4);
        Ok(ExtWant::Get(from.name, from.letter))
    }

    // The records become those of the other file.
    fn put(&self, alloc: Global, records: &Records) -> Result<ExtWant, AllocError>
        ensures { IfOk result MayBe }
    {
        let Some(to) = self.to else {
            return Ok(ExtWant::Done(UNKNOWN));
        };
        let mut copy = Records::new(alloc);
        for record in records.as_slice() {
            copy.push(Record::of(alloc, record.bytes())?)?;
        }
        if copy.len() == 0 {
            return Ok(ExtWant::Done(UNKNOWN));
        }
        Ok(ExtWant::Put(to.name, to.letter, copy))
    }
}

impl Extension for Carry {
    ghost content = { λ c. Rattle.std.specs.Prelude.[] };

    ghost does = { λ before reply want after. Rattle.std.specs.Prelude.true };

    fn turn(&mut self, alloc: Global, reply: &ExtReply) -> Result<ExtWant, AllocError> {
        match reply {
            ExtReply::Start(line) => self.start(alloc, line),
            ExtReply::File(records) => self.put(alloc, records),
            ExtReply::Went => Ok(ExtWant::Done(0)),
            ExtReply::Refused(28) => Ok(ExtWant::Done(28)),
            ExtReply::Refused(36) => Ok(ExtWant::Done(36)),
            ExtReply::Refused(_) => Ok(ExtWant::Done(100)),
            ExtReply::Sub(_) | ExtReply::Got(_) => Ok(ExtWant::Done(UNKNOWN)),
        }
    }
}

/// Writes a file of more bytes than a file may have, as in `HEAP A TEXT A`.
#[derive(Drop)]
struct Heap {}

// So many of the longest records are more than a file holds.
const TOO_MANY: usize = 1025;

const LONGEST: usize = 65_535;

impl Heap {
    // The file that a line names gets them.
    fn start(&self, alloc: Global, line: &Line) -> Result<ExtWant, AllocError>
        ensures { IfOk result MayBe }
    {
        let words = tokens(alloc, line)?;
        let Some(to) = place_at(&words, 1) else {
            return Ok(ExtWant::Done(UNKNOWN));
        };
        let blanks = vec![in alloc; 0x40; LONGEST]?;
        let mut records = Records::new(alloc);
        for _ in 0..TOO_MANY {
            records.push(Record::of(alloc, &blanks)?)?;
        }
        if records.len() == 0 {
            return Ok(ExtWant::Done(UNKNOWN));
        }
        Ok(ExtWant::Put(to.name, to.letter, records))
    }
}

impl Extension for Heap {
    ghost content = { λ h. Rattle.std.specs.Prelude.[] };

    ghost does = { λ before reply want after. Rattle.std.specs.Prelude.true };

    fn turn(&mut self, alloc: Global, reply: &ExtReply) -> Result<ExtWant, AllocError> {
        match reply {
            ExtReply::Start(line) => self.start(alloc, line),
            ExtReply::Refused(40) => Ok(ExtWant::Done(40)),
            _ => Ok(ExtWant::Done(UNKNOWN)),
        }
    }
}

/// Types the texts that are sent to it.
#[derive(Drop)]
struct Pad {}

// The code of an empty text.
const EMPTY: i32 = 28;

impl Extension for Pad {
    ghost content = { λ p. Rattle.std.specs.Prelude.[] };

    ghost does = { λ before reply want after. Rattle.std.specs.Prelude.true };

    fn turn(&mut self, alloc: Global, reply: &ExtReply) -> Result<ExtWant, AllocError> {
        match reply {
            ExtReply::Sub(text) if text.bytes().is_empty() => Ok(ExtWant::Done(EMPTY)),
            ExtReply::Sub(text) => Ok(ExtWant::Say(line_alone(alloc, text)?)),
            ExtReply::Went => Ok(ExtWant::Done(0)),
            _ => Ok(ExtWant::Done(UNKNOWN)),
        }
    }
}

/// Hands an extension in under a word; false where it comes back.
pub fn push(alloc: Global, extensions: &mut ExtList, word: &str) -> Result<bool, AllocError> {
    let object: Box<dyn Extension> = match word {
        "NOTE" => Box::new(alloc, Note {})?,
        "CARRY" => Box::new(alloc, Carry { to: None })?,
        "HEAP" => Box::new(alloc, Heap {})?,
        "EDIT" => Box::new(alloc, Editor::new(alloc))?,
        "PAD" => Box::new(alloc, Pad {})?,
        _ => Box::new(alloc, Tally::new())?,
    };
    match Part::read(&ebcdic(alloc, word)?) {
        Ok(word) => Ok(extensions.push(word, object).is_ok()),
        Err(_) => Ok(false),
    }
}
