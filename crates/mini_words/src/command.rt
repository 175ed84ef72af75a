// The commands with their help, as clap reads them.
ghost use Rattle.std.specs.Prelude.{◌≡◌, ◌⊎◌, IfOk, IfErr, map, false, true};
ghost use Rattle.clap.specs.Words.{found_of, kind_of, rows_of, subcommand_rows_of};
ghost use Rattle.clap.specs.declared.error.kind.ErrorKind.TheVariants.{OutOfMemory};
ghost use Rattle.mini_words.specs.Commands.{HasForm, are_plain, are_taken, command_in, minidisk, top_form, with_forms};

use crate::command_form::{Argument, CommandForm, Kind, commands_of, new_command};
use clap::{ArgMatches, Command, Error};
use std::alloc::{AllocError, Global};

const SIZE: Argument<'static> = Argument {
    id: "SIZE",
    kind: Kind::Value('b'),
    help: "the image's block size: 512, 1024, 2048 or 4096; left out, it is looked for",
};

const FORM: Argument<'static> = Argument {
    id: "FORM",
    kind: Kind::Value('f'),
    help: "text (the default), binary or records",
};

const SAY: Argument<'static> = Argument {
    id: "SAY",
    kind: Kind::Flag('v'),
    help: "say each file once it is done",
};

const ZONE: Argument<'static> = Argument {
    id: "ZONE",
    kind: Kind::Value('z'),
    help: "the time zone of new dates: E or W and hhmm, as W0500",
};

const IMAGE: Argument<'static> = Argument {
    id: "IMAGE",
    kind: Kind::One,
    help: "the image of a minidisk",
};

const NAMES: &str = "files, as FN.FT; * stands for any letters, % for one";

const EXAMPLES: &str = "\
Examples:
  minidisk make -b 1024 -n 800 -l WORK work.img   a new image with an empty volume
  minidisk put work.img notes.txt                 the lines of a text, as NOTES TXT
  minidisk put -f binary -L 80 work.img deck.bin  80 bytes a record
  minidisk list -l work.img '*.txt'               with sizes and dates
  minidisk get -d out work.img '*.*'              each file as out/fn.ft
  minidisk get work.img notes.txt                 a file to standard output
  minidisk erase -v work.img 'temp%.*'
  minidisk check work.img                         whether it is sound, or why not

A NAME is FN.FT in either case: notes.txt is the file NOTES TXT. In list, get and erase * stands
for any characters and % for one; quote such names, so that the shell leaves them alone.

Exit status: 0 done; 1 something was refused, or isn't sound; 2 the words are refused; 3 there is no
memory; 4 an image, a host file or standard output failed.";

const FORMS: &str = "\
Forms:
  text      each record is a line in UTF-8; code page 037 has U+0000 to U+00FF
  binary    the bytes of the records, joined
  records   each record behind its length: two bytes, the high one first";

const LIST: [Argument<'static>; 4] = [
    Argument {
        id: "LONG",
        kind: Kind::Flag('l'),
        help: "with format, length, records, blocks and date",
    },
    SIZE,
    IMAGE,
    Argument {
        id: "NAME",
        kind: Kind::Any,
        help: NAMES,
    },
];

const INFO: [Argument<'static>; 2] = [SIZE, IMAGE];

const GET: [Argument<'static>; 8] = [
    SIZE,
    FORM,
    Argument {
        id: "REPLACE",
        kind: Kind::Flag('r'),
        help: "replace host files that are there",
    },
    SAY,
    Argument {
        id: "FILE",
        kind: Kind::Value('o'),
        help: "the host file for all of them, joined",
    },
    Argument {
        id: "DIR",
        kind: Kind::Value('d'),
        help: "the folder for a host file of each, as fn.ft",
    },
    IMAGE,
    Argument {
        id: "NAME",
        kind: Kind::Many,
        help: NAMES,
    },
];

const PUT: [Argument<'static>; 10] = [
    SIZE,
    FORM,
    Argument {
        id: "N",
        kind: Kind::Value('L'),
        help: "records of this length, format F; else V",
    },
    Argument {
        id: "DIGIT",
        kind: Kind::Value('m'),
        help: "the mode number of new files, 0 to 6; else 1",
    },
    Argument {
        id: "NAME",
        kind: Kind::Value('n'),
        help: "the name in the image, FN.FT, of one host file",
    },
    Argument {
        id: "REPLACE",
        kind: Kind::Flag('r'),
        help: "replace files that are there",
    },
    SAY,
    ZONE,
    IMAGE,
    Argument {
        id: "FILE",
        kind: Kind::Many,
        help: "host files; - is standard input, and wants -n",
    },
];

const ERASE: [Argument<'static>; 5] = [
    SIZE,
    SAY,
    ZONE,
    IMAGE,
    Argument {
        id: "NAME",
        kind: Kind::Many,
        help: NAMES,
    },
];

const RENAME: [Argument<'static>; 6] = [
    SIZE,
    SAY,
    ZONE,
    IMAGE,
    Argument {
        id: "NAME",
        kind: Kind::One,
        help: "the file, as FN.FT",
    },
    Argument {
        id: "NEW",
        kind: Kind::One,
        help: "its new name, as FN.FT",
    },
];

const MAKE: [Argument<'static>; 5] = [
    Argument {
        id: "SIZE",
        kind: Kind::Needed('b'),
        help: "the block size: 512, 1024, 2048 or 4096",
    },
    Argument {
        id: "BLOCKS",
        kind: Kind::Needed('n'),
        help: "how many blocks, 8 to 1048576",
    },
    Argument {
        id: "LABEL",
        kind: Kind::Needed('l'),
        help: "the volume's label, 1 to 6 characters",
    },
    ZONE,
    Argument {
        id: "IMAGE",
        kind: Kind::One,
        help: "the new image; none may be there",
    },
];

const CHECK: [Argument<'static>; 2] = [
    SIZE,
    Argument {
        id: "IMAGE",
        kind: Kind::Many,
        help: "images of minidisks",
    },
];

const DUMP: [Argument<'static>; 3] = [
    SIZE,
    Argument {
        id: "IMAGE",
        kind: Kind::One,
        help: "an image, sound or not",
    },
    Argument {
        id: "BLOCK",
        kind: Kind::Any,
        help: "numbers of blocks, from 1",
    },
];

static COMMANDS: [CommandForm<'static>; 9] = [
    CommandForm {
        name: "list",
        about: "List the files of an image",
        behind: None,
        arguments: &LIST,
    },
    CommandForm {
        name: "info",
        about: "Tell the label, the blocks and the files",
        behind: None,
        arguments: &INFO,
    },
    CommandForm {
        name: "get",
        about: "Copy files out of an image",
        behind: Some(FORMS),
        arguments: &GET,
    },
    CommandForm {
        name: "put",
        about: "Copy host files into an image",
        behind: Some(FORMS),
        arguments: &PUT,
    },
    CommandForm {
        name: "erase",
        about: "Erase files of an image",
        behind: None,
        arguments: &ERASE,
    },
    CommandForm {
        name: "rename",
        about: "Give a file of an image another name",
        behind: None,
        arguments: &RENAME,
    },
    CommandForm {
        name: "make",
        about: "Make an image with an empty volume",
        behind: None,
        arguments: &MAKE,
    },
    CommandForm {
        name: "check",
        about: "Say whether images are sound",
        behind: None,
        arguments: &CHECK,
    },
    CommandForm {
        name: "dump",
        about: "Show the label, the directory and blocks as they stand",
        behind: None,
        arguments: &DUMP,
    },
];

fn top_command<'a>(alloc: Global) -> Command<'a>
    ensures { HasForm result top_form }
{
    let about = "Look into images of CMS minidisks, and copy files in and out";
    new_command(alloc, "minidisk", about, Some(EXAMPLES))
        .version("0.1.0")
        .subcommand_required(true)
        .disable_help_subcommand(true)
}

// The forms of all commands.
fn forms() -> &'static [CommandForm<'static>]
    ensures all { with_forms top_form result.now ≡ minidisk }
    ensures plain { are_plain result.now ≡ true }
{
    &COMMANDS
}

fn minidisk<'a>(alloc: Global) -> Result<Command<'a>, AllocError>
    ensures { IfOk result (λ c. HasForm c minidisk) }
{
    let commands = commands_of(alloc, forms())?;
    top_command(alloc).subcommands(commands)
}

/// What clap finds in the program's words, its name first: a command with its words. The error is for [`Error::print`], which
/// shows help and the version too, with the exit status of [`Error::exit_code`].
pub fn find_command<'a>(alloc: Global, words: &'a [&'a str]) -> Result<ArgMatches<'a>, Error>
    ensures taken { IfOk result (λ m. are_taken (map (λ s. s.now) words.entry.now) ≡ true) }
    ensures found { IfOk result (λ m. subcommand_rows_of m
        ≡ command_in (map (λ s. s.now) words.entry.now)) }
    ensures refused { IfErr result (λ e. (kind_of e ≡ OutOfMemory)
        ⊎ (are_taken (map (λ s. s.now) words.entry.now) ≡ false)) }
{
    let command = minidisk(alloc)?;
    command.try_get_matches_from(words)
}
