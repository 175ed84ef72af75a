//! CMS minidisks and their commands over image files.
#![tactic(auto)]

mod failures;
mod help;

use cms_edit::Editor;
use cms_ext::{ExtList, Extension, Tally};
use cms_host::{FOLDER, FileWorld, Host, hold_streams};
use cms_names::Part;
use cms_session::{Status, WordFault, run_with};
use cms_text::coded;
use cms_world::Argv;
use failures::{tell_ending, tell_world};
use help::{HELP, VERSION};
use std::alloc::{AllocError, Global};
use std::io::{ErrorKind, IsTerminal};
use std::process::ExitCode;
use std::{env, io};

/// The word of the first extension that the program brings.
const TALLY: &[u8; 5] = b"TALLY";

/// The word of the second.
const EDIT: &[u8; 4] = b"EDIT";

/// Why the words can't be had: there is no memory, or one isn't text.
fn argument_status(error: &io::Error) -> Status {
    if error.kind() == ErrorKind::OutOfMemory {
        Status::Memory
    } else {
        Status::Usage(WordFault::Syntax)
    }
}

/// The words with which the program was called.
fn arguments(rt: &HostRuntime) -> Result<Argv, Status> {
    let mut words = Argv::new(rt.alloc());
    for word in env::args(rt).map_err(|error| argument_status(&error))? {
        words.push(word.as_str()).map_err(|_| Status::Memory)?;
    }
    Ok(words)
}

/// How the program ends.
#[derive(Clone, Copy)]
struct Ending {
    status: Status,
    /// all that was typed could be written
    written: bool,
}

/// A session with TALLY and EDIT under their words.
fn run_session(
    alloc: Global,
    words: &Argv,
    world: &mut FileWorld<Host<&HostRuntime>>,
) -> Result<Status, AllocError> {
    let Ok(tally_word) = Part::read(&coded(TALLY)) else {
        return Ok(Status::Memory);
    };
    let Ok(edit_word) = Part::read(&coded(EDIT)) else {
        return Ok(Status::Memory);
    };
    let tally: Box<dyn Extension> = Box::new(alloc, Tally::new())?;
    let editor: Box<dyn Extension> = Box::new(alloc, Editor::new(alloc))?;
    let mut extensions = ExtList::new(alloc);
    if extensions.push(tally_word, tally).is_err() || extensions.push(edit_word, editor).is_err() {
        return Ok(Status::Memory);
    }
    Ok(run_with(alloc, words, world, extensions))
}

/// A session over real files. Where the world failed it says on standard error what.
fn session(rt: &HostRuntime, words: &Argv) -> Ending {
    let Ok(_streams) = hold_streams(rt) else {
        let _ = eprintln!(rt; "cms: {FOLDER} can't be opened");
        return ended(Status::World);
    };
    let lines = rt.stdout().is_terminal();
    let host = Host::new(rt.alloc(), rt);
    let Ok(mut world) = FileWorld::new(rt.alloc(), host, lines) else {
        return ended(Status::Memory);
    };
    let status = run_session(rt.alloc(), words, &mut world).unwrap_or(Status::Memory);
    let written = world.finish();
    if written && matches!(status, Status::World) {
        tell_world(rt, words, &world);
    }
    Ending { status, written }
}

/// An ending where nothing was typed.
fn ended(status: Status) -> Ending {
    Ending {
        status,
        written: true,
    }
}

/// Types a text.
fn type_text(rt: &HostRuntime, text: &str) -> Ending {
    Ending {
        status: Status::Done,
        written: rt.println(text).is_ok(),
    }
}

/// Types the number of the reason for which words are refused.
fn type_reason(rt: &HostRuntime, status: Status) -> Ending {
    let written = match status {
        Status::Usage(fault) => {
            println!(rt; "cms: words refused, reason {}", fault.number()).is_ok()
        }
        _ => true,
    };
    Ending { status, written }
}

/// What the words ask for: a text of the program itself, or a session.
fn answer(rt: &HostRuntime, words: &Argv) -> Ending {
    match words.get(1) {
        Some("--help" | "-h") => type_text(rt, HELP),
        Some("--version") => type_text(rt, VERSION),
        _ => session(rt, words),
    }
}

fn main(rt: HostRuntime) -> ExitCode {
    let mut ending = match arguments(&rt) {
        Ok(words) => answer(&rt, &words),
        Err(status) => ended(status),
    };
    if ending.written {
        ending = type_reason(&rt, ending.status);
    }
    tell_ending(&rt, ending.status, ending.written);
    ExitCode::from(ending.status.exit_code(ending.written))
}
