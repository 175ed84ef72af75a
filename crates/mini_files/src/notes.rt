// Notes in words, for a person.
use cms_fields::{EntryFault, LabelFault};
use cms_model::{OpenFault, VarFault};
use mini_forms::FormFault;
use mini_host::{Note, Refusal};
use std::io;

// What is said of a word: a text, with a number or two between its parts.
#[derive(Clone, Copy)]
enum Said {
    Plain(&'static str),
    One(&'static str, u32, &'static str),
    Two(&'static str, u32, &'static str, u32, &'static str),
}

// What a label fails.
fn label_text(fault: LabelFault) -> &'static str {
    match fault {
        LabelFault::Id => "not sound: block 3 doesn't begin with CMS1",
        LabelFault::BlockSize => "not sound: the label's block size is another one",
        LabelFault::Origin => {
            "not sound: the label's directory begins neither in block 4 nor in block 5"
        }
        LabelFault::Count => {
            "not sound: the label counts fewer than 6 blocks, or more than the image has"
        }
        LabelFault::EntrySize => "not sound: the label's entries don't have 64 bytes",
    }
}

// What an entry fails.
fn entry_text(fault: EntryFault) -> &'static str {
    match fault {
        EntryFault::Name => ": its name isn't 1 to 8 characters of names in each part",
        EntryFault::Mode => ": its mode number isn't 0 to 6",
        EntryFault::Format => ": its format is neither F nor V",
        EntryFault::Length => ": the length of its records isn't 1 to 65535",
        EntryFault::Counts => ": its counts of records and blocks don't fit each other",
        EntryFault::Levels => ": its levels aren't those of its data blocks",
        EntryFault::PointerSize => ": its pointers don't have the size of its format's",
        EntryFault::Date => ": its date or time doesn't exist",
    }
}

// Why the data of a file hold no records.
fn records_said(entry: u32, fault: VarFault) -> Said {
    let (before, place, behind) = match fault {
        VarFault::Zero(place) => (": at byte ", place, " a record has the length 0"),
        VarFault::PastEnd(place) => (": the record at byte ", place, " passes the end"),
        VarFault::Left(place) => (
            ": behind the last record, at byte ",
            place,
            ", a whole block is left",
        ),
    };
    Said::Two("not sound: entry ", entry, before, place, behind)
}

// The first test of an opening that an image fails.
fn unsound_said(fault: OpenFault) -> Said {
    match fault {
        OpenFault::Device => Said::Plain("a block can't be read"),
        OpenFault::Memory => Said::Plain("there is no memory"),
        OpenFault::Label(fault) => Said::Plain(label_text(fault)),
        OpenFault::Entry(entry, fault) => Said::One("not sound: entry ", entry, entry_text(fault)),
        OpenFault::Pointer { holder, value } => Said::Two(
            "not sound: block ",
            holder,
            " has the pointer ",
            value,
            ", which isn't allowed there",
        ),
        OpenFault::Crossed(block) => {
            Said::One("not sound: block ", block, " belongs to two files")
        }
        OpenFault::MapMissing(block) => Said::One(
            "not sound: block ",
            block,
            " is in use, and the allocation map has it free",
        ),
        OpenFault::Var(entry, fault) => records_said(entry, fault),
        OpenFault::Twice(entry) => Said::One(
            "not sound: entry ",
            entry,
            ": an entry before it has its name",
        ),
        OpenFault::System(0) => {
            Said::Plain("not sound: the directory's own entry doesn't describe it")
        }
        OpenFault::System(_) => {
            Said::Plain("not sound: the allocation map's entry doesn't describe it")
        }
    }
}

// Why a host file stands for no records.
fn form_said(fault: FormFault) -> Said {
    match fault {
        FormFault::BadCharacter(line) => Said::One(
            "line ",
            line,
            " has bytes that aren't a character to U+00FF in UTF-8",
        ),
        FormFault::CarriageReturn(line) => Said::One(
            "line ",
            line,
            " has a carriage return that isn't right before its line feed",
        ),
        FormFault::LongLine(line) => Said::One(
            "line ",
            line,
            " is longer than a record may be; -L N makes room for N characters",
        ),
        FormFault::BadLength(record) => Said::One(
            "record ",
            record,
            " has the length 0, or another one than -L says",
        ),
        FormFault::Cut(record) => Said::One("the file ends within record ", record, ""),
        FormFault::TooLarge => {
            Said::Plain("a file has at most 1048576 records and 67108864 bytes")
        }
        FormFault::Empty => { Said::Plain("it is empty, and a CMS file has at least one record") }
    }
}

// What is said of a refusal.
fn refusal_said(refusal: Refusal) -> Said {
    match refusal {
        Refusal::NoVolume(fault) => unsound_said(fault),
        Refusal::BadForm(fault) => form_said(fault),
        Refusal::NoBlock(block) => Said::One("it has no block ", block, ""),
        Refusal::NoRoom { needed, free } => {
            Said::Two("it needs ", needed, " blocks, and ", free, " are free")
        }
        Refusal::NothingFits => Said::Plain("no file of the image has such a name"),
        Refusal::NotThere => Said::Plain("there is no such plain file"),
        Refusal::NoFolder => Said::Plain("there is no such folder; make it first"),
        Refusal::IsThere => {
            Said::Plain("a file of this name is there; get and put replace it with -r")
        }
        Refusal::InUse => {
            Said::Plain("it is in use; try again when the other program has ended")
        }
        Refusal::IsImage => Said::Plain("it is the image itself; name another file"),
        Refusal::NoBlockSize => {
            Said::Plain("its block size can't be told from its label; give it with -b")
        }
        Refusal::NoName => Said::Plain("its name isn't FN.FT as CMS has it; give one with -n"),
        Refusal::NotLines => Said::Plain(
            "a record has a line feed or a carriage return; use -f records or -f binary",
        ),
        Refusal::Changed => {
            Said::Plain("it changed while it was read; the image has nothing of it")
        }
        Refusal::TooManyFiles => { Said::Plain("the volume has the most files that it may have") }
        Refusal::ImageFailed => Said::Plain("the image failed; what stands behind isn't done"),
        Refusal::HostFailed => Said::Plain("it failed; what stands behind isn't done"),
        Refusal::OutputFailed => {
            Said::Plain("standard output failed; what stands behind isn't done")
        }
        Refusal::ClockFailed => Said::Plain("the clock failed; nothing is changed"),
        Refusal::MadeEmpty => { Said::Plain("the file was made, and holds no volume; remove it") }
    }
}

/// Says why a host file failed.
pub fn tell_failure<R: Eprint>(rt: &R, word: &str, error: &io::Error) -> io::Result<()> {
    eprintln!(rt; "minidisk: {word}: {error}; what stands behind isn't done")
}

/// Says that a folder couldn't be synced in which files got their names.
pub fn tell_unsettled<R: Eprint>(rt: &R, folder: &str, error: &io::Error) -> io::Result<()> {
    eprintln!(rt; "minidisk: {folder}: {error}; files that were written there may not stay")
}

/// Says a note on standard error, in one line.
pub fn tell<R: Eprint>(rt: &R, note: &Note) -> io::Result<()> {
    let word = note.word.text();
    match refusal_said(note.refusal) {
        Said::Plain(text) => eprintln!(rt; "minidisk: {word}: {text}"),
        Said::One(before, number, behind) => {
            eprintln!(rt; "minidisk: {word}: {before}{number}{behind}")
        }
        Said::Two(before, one, between, other, behind) => {
            eprintln!(rt; "minidisk: {word}: {before}{one}{between}{other}{behind}")
        }
    }
}
