// &LOOP, and the passes of loops.
ghost use Rattle.std.specs.Prelude.{◌≡◌, ◌⊎◌, Ok, Err, Some, true, drop, MatchResult};
ghost use Rattle.exec2_parse.specs.Words.{is_label};
ghost use Rattle.exec2_run.specs.Given.{bound, seen};
ghost use Rattle.exec2_run.specs.Faults.{Answers, Does};
ghost use Rattle.exec2_run.specs.Faults.{Settles};
ghost use Rattle.exec2_run.specs.Loops as spec;

use crate::comparison::{Comparison, test_holds};
use crate::exec::ExecState;
use crate::given::Seen;
use crate::jumps::label_from;
use crate::loops::{Loop, Loops, Passes, Test};
use crate::values::{ended, expanded_words, missing, no_words, value};
use crate::words::ASTERISK;
use crate::{Fault, Want};
use cms_fields::Moment;
use cms_text::{Word, is_keyword, number};
use exec2_parse::is_label;
use std::alloc::{AllocError, Global};

/// The most loops that may be open.
const MOST: usize = 100;

/// The first word that doesn't become nothing, expanded, and the words behind it.
#[derive(Drop)]
struct First<'w> {
    value: Word,
    behind: &'w [Word],
}

impl ExecState {
    /// &LOOP, with a number of lines or a label, and how often they are repeated.
    #[tactic(auto, unfolding(crate::specs::Loops::looped))]
    pub fn repeat(&mut self, words: &[Word]) -> Result<Want, Fault>
        ensures { Does (spec.looped self.old words.now) self.old self.new result }
    {
        let first = first_of(self.alloc, &self.seen(), words)?;
        self.repeat_range(first.value.bytes(), first.behind)
    }

    fn repeat_range(&mut self, range: &[u8], words: &[Word]) -> Result<Want, Fault>
        ensures { Does (spec.range_looped self.old range.now words.now) self.old self.new result }
    {
        let past = self.end_of_range(range)?;
        let passes = passes(self.alloc, &self.seen(), words)?;
        self.open_loop(past, passes)
    }

    /// The place past the range: up to a label below, or so many lines.
    fn end_of_range(&self, word: &[u8]) -> Result<u32, Fault>
        ensures { result ≡ spec.end_of_range self.now word.now }
    {
        if is_label(word) {
            return self.end_at_label(word);
        }
        match number(word) {
            Some(count) if 1 <= count => self.place_below(count.unsigned_abs()),
            _ => Err(Fault::NotNumber),
        }
    }

    fn end_at_label(&self, label: &[u8]) -> Result<u32, Fault>
        requires { is_label label.now ≡ true }
        ensures { result ≡ spec.end_at_label self.now label.now }
    {
        match label_from(&self.lines, label, self.next) {
            Some(place) => Ok(place + 1),
            None => Err(Fault::NoLabel),
        }
    }

    /// Opens a loop up to a place, or goes there where there is no pass.
    #[tactic(auto, unfolding(crate::specs::Loops::opened))]
    fn open_loop(&mut self, past: u32, passes: Passes) -> Result<Want, Fault>
        ensures { Does (spec.opened self.old past passes) self.old self.new result }
    {
        match self.first_pass(passes)? {
            None => {
                self.next = past;
                Ok(Want::Next)
            }
            Some(passes) => self.push_loop(past, passes),
        }
    }

    /// Opens a loop whose first pass begins.
    fn push_loop(&mut self, past: u32, passes: Passes) -> Result<Want, Fault>
        ensures { Does (spec.opened_by self.old past (Some passes)) self.old self.new result }
    {
        if self.loops.len() >= MOST {
            drop(passes);
            return Err(Fault::TooDeep);
        }
        let inner = Loop {
            line: self.line,
            first: self.next,
            past,
            passes,
        };
        match self.loops.push(inner) {
            Ok(()) => Ok(Want::Next),
            Err(refused) => {
                drop(refused);
                Err(Fault::Memory)
            }
        }
    }

    /// What is left once the first pass begins; none where there is no pass.
    fn first_pass(&self, passes: Passes) -> Result<Option<Passes>, Fault>
        ensures { Answers (spec.first_pass (seen self.now) passes) result }
    {
        match passes {
            Passes::Left(count) => Ok(left(count)),
            Passes::While(test) => {
                let holds = test_holds(self.alloc, &self.seen(), &test)?;
                Ok(if_holds(holds, Passes::While(test)))
            }
            Passes::Forever => Ok(Some(Passes::Forever)),
            Passes::Until(test) => Ok(Some(Passes::Until(test))),
        }
    }

    /// Ends the passes and the loops that the next line has left. A fault of a test has the line of its &LOOP, and changes nothing.
    pub fn settle_loops(&mut self, moment: &Moment) -> Result<(), (Fault, u32)>
        ensures { Settles (spec.settled_loops moment.now self.old) self.old self.new result }
    {
        let left = self.loops_left(moment)?;
        drop_first(&mut self.loops, left.over);
        if left.begins {
            self.begin_pass();
        }
        Ok(())
    }

    /// Goes to the first line of the innermost loop, whose next pass begins.
    fn begin_pass(&mut self)
        ensures { self.new ≡ spec.left_open self.old true self.old.loops }
    {
        if let Some(innermost) = self.loops.get(0) {
            self.next = innermost.first;
        }
        self.loops.begin_pass();
    }

    /// Which loops are left where the next line has left some.
    #[tactic(auto, unfolding(crate::specs::Loops::settled_from))]
    fn loops_left(&self, moment: &Moment) -> Result<LoopsLeft, (Fault, u32)>
        ensures { MatchResult result
            (λ left. spec.settled_loops moment.now self.now
            ≡ Ok (spec.left_open self.now left.begins (drop left.over self.now.loops)))
            (λ failure. (failure.0 ≡ Fault.Memory)
            ⊎ (spec.settled_loops moment.now self.now ≡ Err failure)) }
    {
        for over in 0..self.loops.len() {
            let Some(innermost) = self.loops.get(over) else {
                break;
            };
            if self.next == innermost.past {
                match self.begins(innermost, moment) {
                    Ok(true) => return Ok(LoopsLeft { over, begins: true }),
                    Ok(false) => {}
                    Err(fault) => return Err((fault, innermost.line)),
                }
            } else if innermost.has(self.next) {
                return Ok(LoopsLeft {
                    over,
                    begins: false,
                });
            }
        }
        Ok(LoopsLeft {
            over: self.loops.len(),
            begins: false,
        })
    }

    /// Whether another pass of a loop begins whose range was passed. Its test has the line of its &LOOP.
    fn begins(&self, passed: &Loop, moment: &Moment) -> Result<bool, Fault>
        ensures { Answers (spec.begins moment.now self.now passed.now) result }
    {
        match &passed.passes {
            Passes::Left(count) => Ok(*count != 0),
            Passes::Forever => Ok(true),
            Passes::While(test) => {
                test_holds(self.alloc, &self.seen_at(passed.line, moment), test)
            }
            Passes::Until(test) => {
                let holds = test_holds(self.alloc, &self.seen_at(passed.line, moment), test)?;
                Ok(!holds)
            }
        }
    }
}

/// Which loops are left.
#[derive(Clone, Copy)]
struct LoopsLeft {
    /// So many are over, the innermost first.
    over: usize,
    /// Whether the innermost of the others begins another pass.
    begins: bool,
}

fn drop_first(loops: &mut Loops, count: usize)
    ensures { loops.new ≡ drop count loops.old }
{
    for _ in 0..count {
        drop(loops.pop());
    }
}

/// What is left of so many passes once one more begins.
fn left(count: u64) -> Option<Passes>
    ensures { result ≡ spec.left count }
{
    if count == 0 {
        None
    } else {
        Some(Passes::Left(count - 1))
    }
}

fn if_holds(holds: bool, passes: Passes) -> Option<Passes>
    ensures { result ≡ spec.if_holds holds passes }
{
    if holds {
        return Some(passes);
    }
    drop(passes);
    None
}

impl Loop {
    /// Whether a line stands in the range.
    fn has(&self, place: u32) -> bool
        ensures { result ≡ spec.has self.now place }
    {
        self.first <= place && place < self.past
    }
}

#[tactic(auto, unfolding(crate::specs::Loops::first_of))]
fn first_of<'w>(alloc: Global, seen: &Seen<'_>, words: &'w [Word]) -> Result<First<'w>, Fault>
    ensures { MatchResult result
        (λ first. spec.first_of (bound seen.now) words.now ≡ Ok (first.value, first.behind.now))
        (λ fault. (fault ≡ Fault.Memory) ⊎ (spec.first_of (bound seen.now) words.now ≡ Err fault)) }
{
    let mut rest = words;
    while let [word, behind @ ..] = rest {
        let value = value(alloc, seen, word)?;
        if !value.bytes().is_empty() {
            return Ok(First { value, behind });
        }
        rest = behind;
    }
    Err(Fault::BadStatement)
}

/// How often lines are repeated: so often, `*`, or WHILE or UNTIL and a comparison.
fn passes(alloc: Global, seen: &Seen<'_>, words: &[Word]) -> Result<Passes, Fault>
    ensures { Answers (spec.passes (bound seen.now) words.now) result }
{
    let [word, others @ ..] = words else {
        return Err(Fault::BadStatement);
    };
    if is_keyword(word.bytes(), "WHILE") {
        return Ok(Passes::While(test(alloc, seen, others)?));
    }
    if is_keyword(word.bytes(), "UNTIL") {
        return Ok(Passes::Until(test(alloc, seen, others)?));
    }
    counted(alloc, seen, words)
}

fn counted(alloc: Global, seen: &Seen<'_>, words: &[Word]) -> Result<Passes, Fault>
    ensures { Answers (spec.counted (bound seen.now) words.now) result }
{
    let operands = expanded_words(alloc, seen, words)?;
    counted_by(operands.words.as_slice(), operands.is_cut)
}

fn counted_by(words: &[Word], is_cut: bool) -> Result<Passes, Fault>
    ensures { result ≡ spec.counted_by words.now is_cut }
{
    let [count, others @ ..] = words else {
        return Err(missing(is_cut));
    };
    let passes = count_of(count.bytes())?;
    match ended(others, is_cut) {
        Ok(()) => Ok(passes),
        Err(fault) => {
            drop(passes);
            Err(fault)
        }
    }
}

fn count_of(word: &[u8]) -> Result<Passes, Fault>
    ensures { result ≡ spec.count_of word.now }
{
    if let [ASTERISK] = word {
        return Ok(Passes::Forever);
    }
    match number(word) {
        Some(count) if 0 <= count => Ok(Passes::Left(count.unsigned_abs())),
        _ => Err(Fault::NotNumber),
    }
}

/// The comparison of a WHILE or UNTIL, which is expanded at each test.
fn test(alloc: Global, seen: &Seen<'_>, words: &[Word]) -> Result<Test, Fault>
    ensures { Answers (spec.test_in (bound seen.now) words.now) result }
{
    let [left, sign, right, others @ ..] = words else {
        return Err(Fault::BadStatement);
    };
    let Some(comparison) = Comparison::read(sign.bytes()) else {
        return Err(Fault::BadStatement);
    };
    no_words(alloc, seen, others)?;
    Ok(Test {
        left: Word::of(alloc, left.bytes())?,
        comparison,
        right: Word::of(alloc, right.bytes())?,
    })
}
