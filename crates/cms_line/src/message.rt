// The messages of the commands.
ghost use Rattle.std.specs.Prelude.{◌≡◌, ◌++◌, length, map, take, OnOk, OnErr};
ghost use Rattle.cms_line.specs.Messages.{message_text};
ghost use Rattle.cms_line.specs.Phrases.{filled, text_of};

use crate::Word;
use cms_ebcdic::from_host;
use std::alloc::AllocError;

/// A message with its number; each word is what stands in its place, in EBCDIC: a mode word with `=` as the letter, a missing
/// operand as its default, a device as three digits in upper case, an option's word folded.
#[derive(Drop)]
pub enum Message {
    /// an unknown command
    M001(Word),
    /// a file that wasn't found: its name, type and mode
    M002(Word, Word, Word),
    /// an unknown option
    M003(Word),
    /// a line with a character that isn't printable
    M010,
    /// a line of more than 255 bytes
    M011,
    /// a file that is there already: its name, type and mode
    M024(Word, Word, Word),
    /// a bad parameter, and its option
    M029(Word, Word),
    /// the letter of a disk that is read-only
    M037(Word),
    /// a bad mode
    M048(Word),
    /// an operand or a parameter that is missing
    M054,
    /// a bad name
    M062(Word),
    /// the letter of a disk that isn't accessed
    M069(Word),
    /// a bad operand
    M070(Word),
    /// a procedure that stopped: its name, the line's number and the fault's
    M085(Word, Word, Word),
    /// a procedure that isn't run: its name and the reason's number
    M086(Word, Word),
    /// the device of a fault
    M105(Word),
    /// the device of a file whose contents are altered
    M106(Word),
    /// a full disk: its letter, the blocks that are needed and those that are free
    M107(Word, Word, Word),
    /// a device without a volume, and the reason's number
    M112(Word, Word),
    /// a device that isn't there
    M113(Word),
    /// a device that is too small
    M114(Word),
    /// a device in doubt
    M115(Word),
    /// the number of the limit that is reached
    M120(Word),
    /// how many records a file has
    M121(Word),
    /// the word of an extension that isn't there
    M122(Word),
    /// records that no card holds
    M123,
    /// no deck in the reader
    M124,
    /// a deck that no file was dumped to
    M125,
    /// the letter and the device that FORMAT asks of
    M603(Word, Word),
    /// FORMAT asks for a label
    M605,
    /// the letter and the device of a disk that is read-only
    M723(Word, Word),
    /// the blocks that FORMAT made, their letter and device
    M733(Word, Word, Word),
}

// What stands in a text for the next of its words.
const PLACE: u8 = b'&';

// What a message says: a text in ASCII, and the words that belong in its places.
enum Phrase<'m> {
    Text(&'static str),
    One(&'static str, &'m Word),
    Two(&'static str, &'m Word, &'m Word),
    Three(&'static str, &'m Word, &'m Word, &'m Word),
}

// What a message says.
fn phrase_of(message: &Message) -> Phrase<'_>
    ensures { text_of result ≡ message_text message.now }
{
    match message {
        Message::M001(word) => Phrase::One("CMS001E Unknown command &", word),
        Message::M002(file, kind, mode) => Phrase::Three(
            "CMS002E File & & & not found",
            file,
            kind,
            mode,
        ),
        Message::M003(word) => Phrase::One("CMS003E Option & is not valid", word),
        Message::M010 => Phrase::Text("CMS010E Line has an invalid character"),
        Message::M011 => Phrase::Text("CMS011E Line is longer than 255 bytes"),
        Message::M024(file, kind, mode) => Phrase::Three(
            "CMS024E File & & & already exists",
            file,
            kind,
            mode,
        ),
        Message::M029(word, option) => Phrase::Two(
            "CMS029E Parameter & of option & is not valid",
            word,
            option,
        ),
        Message::M037(letter) => Phrase::One("CMS037E Disk & is read-only", letter),
        Message::M048(word) => Phrase::One("CMS048E Mode & is not valid", word),
        Message::M054 => Phrase::Text("CMS054E Operand is missing"),
        Message::M062(word) => Phrase::One("CMS062E Name & is not valid", word),
        Message::M069(letter) => Phrase::One("CMS069E Disk & is not accessed", letter),
        Message::M070(word) => Phrase::One("CMS070E Operand & is not valid", word),
        Message::M085(file, line, fault) => Phrase::Three(
            "CMS085E Procedure & stopped at line & with fault &",
            file,
            line,
            fault,
        ),
        Message::M086(file, reason) => Phrase::Two(
            "CMS086E Procedure & is not run, reason &",
            file,
            reason,
        ),
        Message::M105(vdev) => Phrase::One("CMS105E Device fault on &", vdev),
        Message::M106(vdev) => Phrase::One("CMS106E File contents altered on &", vdev),
        Message::M107(letter, need, free) => Phrase::Three(
            "CMS107E Disk & is full, & blocks needed, & free",
            letter,
            need,
            free,
        ),
        Message::M112(vdev, reason) => Phrase::Two(
            "CMS112E Device & holds no volume, reason &",
            vdev,
            reason,
        ),
        Message::M113(vdev) => Phrase::One("CMS113E Device & does not exist", vdev),
        Message::M114(vdev) => Phrase::One("CMS114E Device & is too small", vdev),
        Message::M115(vdev) => Phrase::One("CMS115E Device & is in doubt", vdev),
        Message::M120(limit) => Phrase::One("CMS120E Limit & reached", limit),
        Message::M121(records) => Phrase::One("CMS121E File has only & records", records),
        Message::M122(word) => Phrase::One("CMS122E Extension & does not exist", word),
        Message::M123 => Phrase::Text("CMS123E File has records longer than 80"),
        Message::M124 => Phrase::Text("CMS124E Reader is empty"),
        Message::M125 => Phrase::Text("CMS125E Deck is not a dump"),
        Message::M603(letter, vdev) => Phrase::Two(
            "CMS603R FORMAT will erase all files on disk & (&). Go on? Enter YES or NO",
            letter,
            vdev,
        ),
        Message::M605 => Phrase::Text("CMS605R Enter disk label"),
        Message::M723(letter, vdev) => Phrase::Two("CMS723I & (&) R/O", letter, vdev),
        Message::M733(blocks, letter, vdev) => Phrase::Three(
            "CMS733I & blocks formatted on & (&)",
            blocks,
            letter,
            vdev,
        ),
    }
}

// Adds an ASCII text in EBCDIC, each of its places filled with the next word.
fn add_filled(into: &mut Vec<u8>, text: &str, words: &[&Word]) -> Result<(), AllocError>
    ensures ok { OnOk result (into.new.items
        ≡ into.old.items ++ filled text.now (map (λ word. word.now) words.now)) }
    ensures front { take (length into.old.items) into.new.items ≡ into.old.items }
{
    let mut nth = 0;
    for byte in text.as_bytes() {
        if *byte != PLACE {
            into.push(from_host(*byte).unwrap_or(0))?;
            continue;
        }
        if let Some(word) = words.get(nth) {
            into.extend_from_slice(word.bytes())?;
        }
        nth += 1;
    }
    Ok(())
}

// Adds what a message says, after `AllocError` a front of it.
#[tactic(auto, unfolding(crate::specs::Phrases::text_of))]
fn add_phrase(into: &mut Vec<u8>, phrase: Phrase<'_>) -> Result<(), AllocError>
    ensures ok { OnOk result (into.new.items ≡ into.old.items ++ text_of phrase.entry) }
    ensures front { take (length into.old.items) into.new.items ≡ into.old.items }
{
    match phrase {
        Phrase::Text(text) => add_filled(into, text, &[]),
        Phrase::One(text, word) => add_filled(into, text, &[word]),
        Phrase::Two(text, word, other) => add_filled(into, text, &[word, other]),
        Phrase::Three(text, word, other, last) => add_filled(into, text, &[word, other, last]),
    }
}

/// Adds the text of a message, in EBCDIC.
pub fn write_message(into: &mut Vec<u8>, message: &Message) -> Result<(), AllocError>
    ensures ok { OnOk result (into.new.items ≡ into.old.items ++ message_text message.now) }
    ensures err { OnErr result (into.new.items ≡ into.old.items) }
{
    let length = into.len();
    match add_phrase(into, phrase_of(message)) {
        Ok(()) => Ok(()),
        Err(error) => {
            into.truncate(length);
            Err(error)
        }
    }
}
