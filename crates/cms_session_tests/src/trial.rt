// A session whose calls of the world fail one by one, and what a crash leaves of it.
use crate::session::ended;
use crate::transcript::{Transcript, passed, push_differs, text_of};
use crate::volumes::world_named;
use cms_cases::Report;
use cms_images::crashed;
use cms_session::Status;
use cms_world::MemWorld;
use std::alloc::Global;
use std::process::Abort;
use std::test::Fail;

// Which of the blocks that were written and not synced are as written: none, all, and of every two the second or the first.
const CHOICES: [u64; 4] = [0, u64::MAX, 0xAAAA_AAAA_AAAA_AAAA, 0x5555_5555_5555_5555];

// In place of a state that isn't looked at.
const UNTRIED: &str = "-";

/// A session on the images of a name, and a second one that looks at what is left of them.
#[derive(Clone, Copy)]
pub struct Trial {
    pub images: &'static str,
    pub words: &'static str,
    /// the session's transcript
    pub transcript: &'static str,
    /// its calls of the world
    pub calls: &'static [u8],
    /// the words of the second session, and its script
    pub look: [&'static str; 2],
    /// what that types, each behind a line with the name of a state
    pub states: &'static str,
    /// what a crash leaves, each in a line: the first and the last event behind which it may come, and the states that it leaves where
    /// nothing of what isn't synced is written, all of it, and of every two blocks of it the second and the first, a hyphen where that
    /// isn't tried
    pub moments: &'static str,
    /// what a failing call leaves, each behind a line: the first and the last of the calls, the states that it leaves where nothing of
    /// what isn't synced is written, and all of it, and `landed` or `dropped` where it matters whether a write lands. Below that line
    /// stands what the session types where the call is one of a device; where another fails, the session ends there. A hyphen in place of a
    /// state says that the call isn't tried
    pub faults: &'static str,
}

// Numbers from the first to the last, and up to four words behind them.
#[derive(Clone, Copy)]
struct Row<'a> {
    first: usize,
    last: usize,
    words: [&'a str; 4],
    text: &'a str,
}

// The word at a place of the head of a row; empty where there is none.
fn word_of(head: &str, place: usize) -> &str {
    head.split(' ').nth(place).unwrap_or("")
}

// A row of a table.
fn row_of(part: &str) -> Option<Row<'_>> {
    let (head, text) = part.split_once("\n")?;
    Some(Row {
        first: word_of(head, 0).parse().ok()?,
        last: word_of(head, 1).parse().ok()?,
        words: [
            word_of(head, 2),
            word_of(head, 3),
            word_of(head, 4),
            word_of(head, 5),
        ],
        text,
    })
}

impl Row<'_> {
    // Whether it is for this number, and not for another landing of a write.
    fn is_for(&self, number: usize, lands: bool) -> bool {
        let other = if lands { "dropped" } else { "landed" };
        let landing = self.words[2];
        self.first <= number && number <= self.last && landing != other
    }
}

// The first row for a number and the landing of a write.
fn row_for(rows: &str, number: usize, lands: bool) -> Option<Row<'_>> {
    for part in rows.split("# ") {
        if let Some(row) = row_of(part)
            && row.is_for(number, lands)
        {
            return Some(row);
        }
    }
    None
}

// What stands behind a name; nothing where it has no place.
fn named<'a>(parts: &'a str, name: &str) -> &'a str {
    for part in parts.split("# ") {
        if let Some((head, text)) = part.split_once("\n")
            && head == name
        {
            return text;
        }
    }
    ""
}

// Adds what a crash leaves of a unit as the image of a name.
fn add_left<R: Abort>(
    next: &mut MemWorld,
    rt: &R,
    alloc: Global,
    world: &MemWorld,
    (unit, name): (u8, &str),
    at: usize,
    choice: u64,
) {
    if let Some(left) = crashed(alloc, world, unit, at, choice).expect(rt, "memory") {
        next.add_image(name, &left).expect(rt, "memory")
    }
}

impl Trial {
    // Whether a crash after so many events, by these choices, leaves a state.
    fn leaves<R: Abort>(
        &self,
        rt: &R,
        alloc: Global,
        world: &MemWorld,
        at: usize,
        choice: u64,
        state: &str,
    ) -> bool {
        let [words, script] = self.look;
        let mut next = world_named(rt, alloc, self.images, script);
        add_left(&mut next, rt, alloc, world, (0, "A"), at, choice);
        add_left(&mut next, rt, alloc, world, (1, "B"), at, choice);
        ended(rt, alloc, words, &mut next);
        let is_left = next.typed() == named(self.states, state).as_bytes();
        drop(next);
        is_left
    }

    // Of a row of moments, the state that isn't left; nothing where all are.
    fn not_left<'a, R: Abort>(
        &self,
        rt: &R,
        alloc: Global,
        world: &MemWorld,
        at: usize,
        row: &Row<'a>,
    ) -> &'a str {
        for (choice, state) in CHOICES.iter().zip(row.words.iter()) {
            let (choice, state) = (*choice, *state);
            if state != UNTRIED && !self.leaves(rt, alloc, world, at, choice, state) {
                return state;
            }
        }
        ""
    }

    // Adds what a crash at a moment doesn't leave; nothing where something differs before.
    fn push_crash<R: Abort>(
        &self,
        into: &mut Report,
        rt: &R,
        alloc: Global,
        world: &MemWorld,
        at: usize,
    ) {
        if !into.text().is_empty() {
            return;
        }
        let Some(row) = row_for(self.moments, at, true) else {
            return write!(into, "no row of event {at}");
        };
        match self.not_left(rt, alloc, world, at, &row) {
            "" => {}
            state => write!(into, "event {at}: not {state}"),
        }
    }

    // Whether a session that types these lines where no call fails ended as it should where this one did: it types what the row says where
    // the device failed, and else it ends there.
    fn ends(&self, call: usize, status: Status, world: &MemWorld, whole: &str, row: &str) -> bool {
        let before = call.saturating_sub(1);
        if let Some(b'r' | b'w' | b's') = self.calls.get(before).copied() {
            return status == Status::Done && world.typed() == row.as_bytes();
        }
        let calls = self.calls.iter().take(before);
        let lines = world.typed().iter().filter(|byte| **byte == b'\n');
        status == Status::World
            && world.calls().len() == call
            && whole.as_bytes().starts_with(world.typed())
            && lines.count() == calls.filter(|letter| **letter == b'o').count()
    }

    // Whether the states of a row stand where nothing of what isn't synced is written, and all of it.
    fn leaves_both<R: Abort>(
        &self,
        rt: &R,
        alloc: Global,
        world: &MemWorld,
        row: &Row<'_>,
    ) -> bool {
        let [none, all, _, _] = row.words;
        let at = world.events();
        self.leaves(rt, alloc, world, at, 0, none)
            && self.leaves(rt, alloc, world, at, u64::MAX, all)
    }

    // Adds how a session ends and what it types in a world in which this call fails, where that isn't as it should be.
    fn push_ended<R: Abort>(
        &self,
        into: &mut Report,
        rt: &R,
        alloc: Global,
        world: &mut MemWorld,
        whole: &Transcript,
        (call, lands): (u32, bool),
        row: &Row<'_>,
    ) {
        let status = ended(rt, alloc, self.words, world);
        if !self.ends(call as usize, status, world, whole.typed.text(), row.text)
            || !self.leaves_both(rt, alloc, world, row)
        {
            let typed = text_of(world.typed());
            write!(into, "call {call}, {lands}: {status:?}\n{typed}")
        }
    }

    // Adds what differs where this call fails; nothing where something differs before.
    fn push_failing<R: Abort>(
        &self,
        into: &mut Report,
        rt: &R,
        alloc: Global,
        whole: &Transcript,
        call: u32,
        lands: bool,
    ) {
        if !into.text().is_empty() {
            return;
        }
        let Some(row) = row_for(self.faults, call as usize, lands) else {
            return write!(into, "no row of call {call}");
        };
        let state = row.words[0];
        if state == UNTRIED {
            return;
        }
        let mut world = world_named(rt, alloc, self.images, whole.script.text());
        world.fail_at(call, lands).expect(rt, "memory");
        self.push_ended(into, rt, alloc, &mut world, whole, (call, lands), &row);
        drop(world)
    }

    // Adds the first call that fails otherwise than it should; nothing where there is none.
    fn push_failures<R: Abort>(
        &self,
        into: &mut Report,
        rt: &R,
        alloc: Global,
        whole: &Transcript,
    ) {
        let mut call: u32 = 0;
        for _letter in self.calls.iter() {
            call = call.saturating_add(1);
            self.push_failing(into, rt, alloc, whole, call, false);
            self.push_failing(into, rt, alloc, whole, call, true);
        }
    }

    // Adds what isn't as the trial says; nothing where all is so.
    fn push_difference<R: Abort>(&self, into: &mut Report, rt: &R, alloc: Global) {
        let whole = Transcript::of(alloc, self.transcript);
        let mut world = world_named(rt, alloc, self.images, whole.script.text());
        let session = ("whole", self.words);
        push_differs(into, rt, alloc, session, &mut world, &whole, "");
        if world.calls() != self.calls {
            into.push_str(text_of(world.calls()));
        }
        for at in 0..world.events().saturating_add(1) {
            self.push_crash(into, rt, alloc, &world, at);
        }
        drop(world);
        self.push_failures(into, rt, alloc, &whole)
    }
}

/// All is as the trials say: their sessions run without a failure, with a crash at every moment, and with each of their calls failing.
pub fn check_trials<R: Abort>(rt: &R, alloc: Global, trials: &[Trial]) -> Result<(), Fail> {
    let mut differing = Report::new(alloc);
    for trial in trials {
        trial.push_difference(&mut differing, rt, alloc);
    }
    passed(differing.text())
}
