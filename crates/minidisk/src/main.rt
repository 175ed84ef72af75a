//! Host files in and out of the images of CMS minidisks.
#![tactic(auto)]

ghost use Rattle.std.specs.Prelude.{All};
ghost use Rattle.mini_words.specs.Ranges.{IsWithin};

use cms_host::{FOLDER, FileWorld, Host, Trouble, hold_streams};
use cms_text::Series;
use cms_world::Argv;
use mini_files::HostFiles;
use mini_words::{Exit, Refused, Request, WordFault, read_requests};
use mini_work::{Status, work};
use std::io::{ErrorKind, IsTerminal};
use std::process::ExitCode;
use std::{env, io};

/// The words with which the program was called.
fn arguments(rt: &HostRuntime) -> io::Result<Argv> {
    let mut words = Argv::new(rt.alloc());
    for word in env::args(rt)? {
        words.push(word.as_str())?;
    }
    Ok(words)
}

/// Says why an image failed. One that is in use is refused.
fn tell_image(rt: &HostRuntime, image: &str, trouble: Option<&Trouble>) -> Exit {
    match trouble {
        Some(Trouble::InUse) => {
            let _ = eprintln!(rt;
                "minidisk: {image}: it is in use; try again when the other program has ended"
            );
            Exit::Refused
        }
        Some(Trouble::Image(error)) => {
            let _ = eprintln!(rt; "minidisk: {image}: {error}; what stands behind isn't done");
            Exit::Failed
        }
        _ => {
            let _ = eprintln!(rt;
                "minidisk: {image}: a block can't be read or written; what stands behind isn't done"
            );
            Exit::Failed
        }
    }
}

/// What a command came to, where its output could be written or not.
fn ending_of(rt: &HostRuntime, status: Status, written: bool) -> Exit {
    match status {
        Status::Failed => Exit::Failed,
        Status::Done | Status::Refused if !written => {
            let _ = eprintln!(rt; "minidisk: standard output can't be written");
            Exit::Failed
        }
        Status::Refused => Exit::Refused,
        Status::Done => Exit::Done,
    }
}

/// One request, in a world of its own.
fn answer(rt: &HostRuntime, request: &Request) -> Exit
    requires { IsWithin request.now }
{
    let lines = rt.stdout().is_terminal();
    let host = Host::new(rt.alloc(), rt);
    let Ok(mut world) = FileWorld::new(rt.alloc(), host, lines) else {
        return Exit::Memory;
    };
    let mut files = HostFiles::new(rt.alloc(), rt);
    let came = work(rt.alloc(), &mut world, &mut files, request);
    let settled = files.finish();
    let written = world.finish();
    let ending = match (came, files.failed_image()) {
        (Err(_), _) => Exit::Memory,
        (Ok(Status::Failed), Some(image)) => tell_image(rt, image, world.trouble()),
        (Ok(status), _) => ending_of(rt, status, written),
    };
    if settled { ending } else { Exit::Failed }
}

/// All requests, one behind another: the gravest ending of theirs.
fn answer_all(rt: &HostRuntime, requests: &Series<Request>) -> Exit
    requires { All IsWithin requests.now }
{
    let Ok(_streams) = hold_streams(rt) else {
        let _ = eprintln!(rt; "minidisk: {FOLDER} can't be opened");
        return Exit::Failed;
    };
    let mut ending = Exit::Done;
    for request in requests.as_slice() {
        ending = ending.and(answer(rt, request));
    }
    ending
}

/// Says why words are refused.
fn tell_refusal(rt: &HostRuntime, refused: Refused) -> Exit {
    match refused {
        Refused::Clap(error) => {
            let printed = error.print(rt);
            Exit::of_clap(&error, printed.is_ok())
        }
        Refused::Word(WordFault::Memory) => Exit::Memory,
        Refused::Word(fault) => {
            let _ = eprintln!(rt; "minidisk: {fault}");
            Exit::Usage
        }
    }
}

fn main(rt: HostRuntime) -> ExitCode {
    let ending = match arguments(&rt) {
        Ok(words) => match read_requests(rt.alloc(), &words) {
            Ok(requests) => answer_all(&rt, &requests),
            Err(refused) => tell_refusal(&rt, refused),
        },
        Err(error) if error.kind() == ErrorKind::OutOfMemory => Exit::Memory,
        Err(_) => {
            let _ = eprintln!(rt; "minidisk: a word isn't text in UTF-8");
            Exit::Usage
        }
    };
    if let Exit::Memory = ending {
        let _ = eprintln!(rt; "minidisk: there is no memory");
    }
    ExitCode::from(ending.code())
}
