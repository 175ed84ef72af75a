// Transcripts, and whether sessions are as these say.
use crate::session::ended_with;
use crate::volumes::{WORDS, YEAR_2000, image, world_at};
use cms_cases::{Report, written_out};
use cms_images::image_left;
use cms_session::Status;
use cms_world::MemWorld;
use std::alloc::Global;
use std::process::Abort;
use std::test::Fail;

/// A session as it should be: the script, what is typed, and the words under which it is handed extensions.
#[derive(Drop)]
pub struct Transcript {
    pub script: Report,
    pub typed: Report,
    pub handed: Report,
}

impl Transcript {
    // Adds what a line says, where the procedure of this name began last.
    fn push(&mut self, procedure: &str, line: &str) {
        if let Some(text) = line.strip_prefix("| ") {
            writeln!(
                self.script,
                "EXECIO 1 DISKW {procedure} EXEC A (STRING {text}"
            );
            self.typed.push_str("R;\n")
        } else if let Some(words) = line.strip_prefix("+ ") {
            self.handed.push_str(words)
        } else if let Some(asked) = line.strip_prefix("> ") {
            writeln!(self.script, "{asked}")
        } else if let Some(last) = line.strip_prefix(">> ") {
            self.script.push_str(last)
        } else if !is_told(line) {
            writeln!(self.typed, "{line}")
        }
    }

    // Adds what the lines of a text say.
    fn push_lines(&mut self, text: &str) {
        let mut procedure = "";
        for line in text.lines() {
            match line.strip_prefix("@ ") {
                Some(name) => procedure = name,
                None => self.push(procedure, line),
            }
        }
    }

    /// What a text says: a line behind a sign for more is one of the script, and behind two of them the script's end, which no line feed
    /// ends. Behind an at sign stands the name of a procedure, and behind a bar each of its lines, which a line of the script writes, with
    /// its ready line. Behind a plus sign stand the words of extensions. The others are typed, but for those that tell of the session
    /// itself.
    pub fn of(alloc: Global, text: &str) -> Transcript {
        let mut transcript = Transcript {
            script: Report::new(alloc),
            typed: Report::new(alloc),
            handed: Report::new(alloc),
        };
        transcript.push_lines(text);
        transcript
    }
}

// Before how a session ends: its status, and as far as they are told its calls of the world, the units that are attached, and the events.
const ENDING: &str = "! ";

// Before the number of a call of the world that fails, behind which stands `landed` where its write lands.
const PLAN: &str = "^ ";

// Before the name of the image that the session leaves of its first unit.
const LEFT: &str = "= ";

// Before the second at which the clock starts, behind 1970-01-01 00:00:00.
const CLOCK: &str = "~ ";

// Whether a line tells of the session itself.
fn is_told(line: &str) -> bool {
    for sign in [ENDING, PLAN, LEFT, CLOCK] {
        if line.starts_with(sign) {
            return true;
        }
    }
    false
}

// What stands in the first line behind this sign; nothing where no line has it.
fn line_behind<'a>(text: &'a str, sign: &str) -> &'a str {
    for line in text.lines() {
        if let Some(told) = line.strip_prefix(sign) {
            return told;
        }
    }
    ""
}

// The second at which the clock starts: the first of the year 2000 where none is told.
fn start(text: &str) -> i64 {
    match line_behind(text, CLOCK) {
        "" => YEAR_2000,
        told => told.parse().unwrap_or(0),
    }
}

// Plans the call that fails.
fn plan<R: Abort>(rt: &R, world: &mut MemWorld, told: &str) {
    let (call, landing) = told.split_once(" ").unwrap_or((told, ""));
    if let Ok(call) = call.parse() {
        world
            .fail_at(call, landing == "landed")
            .expect(rt, "memory")
    }
}

// Whether a session ended as is told: by default it came to the end of its script.
fn ends_as(ended: &str, told: &str) -> bool {
    let told = if told.is_empty() { "Done" } else { told };
    match ended.strip_prefix(told) {
        Some(rest) => rest.starts_with(" "),
        None => false,
    }
}

/// Bytes as a text, where they are one.
pub fn text_of(bytes: &[u8]) -> &str {
    match str::from_utf8(bytes) {
        Ok(text) => text,
        Err(_) => "no text",
    }
}

// Tells how a session ended: its status, its calls of the world, the units, and the events, each with a blank behind it.
fn push_end(into: &mut Report, status: Status, world: &MemWorld) {
    let calls = text_of(world.calls());
    write!(
        into,
        "{status:?} {calls} {} {} ",
        world.units(),
        world.events()
    )
}

/// Adds how a session ends that isn't as its transcript says, its script and what it types, behind what it is; nothing where it is so.
pub fn push_differs<R: Abort>(
    into: &mut Report,
    rt: &R,
    alloc: Global,
    (what, words): (&str, &str),
    world: &mut MemWorld,
    transcript: &Transcript,
    ending: &str,
) {
    let status = ended_with(rt, alloc, words, transcript.handed.text(), world);
    let mut told = Report::new(alloc);
    push_end(&mut told, status, world);
    let is_typed = world.typed() == transcript.typed.text().as_bytes();
    if !ends_as(told.text(), ending) || !is_typed {
        let (script, typed) = (transcript.script.text(), text_of(world.typed()));
        write!(into, "{what}: {}\n{script}\n{typed}", told.text())
    }
}

// Adds the name of the image that the session didn't leave; nothing where it did so, and where no image is named.
fn push_left<R: Abort>(into: &mut Report, rt: &R, alloc: Global, world: &MemWorld, name: &str) {
    if name.is_empty() {
        return;
    }
    let left = image_left(alloc, world, world.events(), 0).expect(rt, "memory");
    if left != image(alloc, name).expect(rt, "memory") {
        into.push_str(name)
    }
}

// Adds what of a session isn't as its text says, behind its images and its words.
fn push_session<R: Abort>(into: &mut Report, rt: &R, alloc: Global, head: &str, text: &str) {
    let (images, words) = head.split_once(": ").unwrap_or((head, WORDS));
    let transcript = Transcript::of(alloc, text);
    let mut world = world_at(rt, alloc, images, transcript.script.text(), start(text));
    plan(rt, &mut world, line_behind(text, PLAN));
    let ending = line_behind(text, ENDING);
    push_differs(
        into,
        rt,
        alloc,
        (head, words),
        &mut world,
        &transcript,
        ending,
    );
    push_left(into, rt, alloc, &world, line_behind(text, LEFT));
    drop(world)
}

// Adds what the first session does that isn't as its transcript says; nothing where all are so.
fn push_sessions<R: Abort>(into: &mut Report, rt: &R, alloc: Global, transcripts: &str) {
    for part in transcripts.split("# ") {
        if let Some((head, text)) = part.split_once("\n")
            && into.text().is_empty()
        {
            push_session(into, rt, alloc, head, text);
        }
    }
}

/// The sessions of all tables are as their transcripts say. Each stands behind a line with the names of its images and, behind a colon, the
/// program's words where they aren't [`WORDS`]. A piece in braces, with a star and a number behind it, stands for so many of it.
pub fn check_sessions<R: Abort>(rt: &R, alloc: Global, tables: &[&str]) -> Result<(), Fail> {
    let mut differing = Report::new(alloc);
    for transcripts in tables {
        let transcripts = written_out(alloc, transcripts);
        push_sessions(&mut differing, rt, alloc, transcripts.text());
    }
    passed(differing.text())
}

/// A test has passed where nothing differs; else it fails by what does.
pub fn passed(differing: &str) -> Result<(), Fail> {
    if differing.is_empty() {
        return Ok(());
    }
    Err(Fail::new(differing))
}
