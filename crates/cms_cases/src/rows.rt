// Rows, and the loop that tries them.
use crate::report::Report;
use crate::words::written_out;
use std::env::var;
use std::test::Fail;

/// Who answers cases of these kinds.
pub trait Subject<C> {
    /// Tells what a case comes to.
    fn tell(&self, kind: &C, case: &str, into: &mut Report);
}

// The variable of the environment by which rows are tried alone: a part of their text.
const ALONE: &str = "CMS_ROW";

// How many rows were tried, and how many of them are wrong.
#[derive(Clone, Copy)]
struct Count {
    tried: u32,
    wrong: u32,
}

// The case of a row and its answer, if it has one.
fn case_and_answer(row: &str) -> (&str, Option<&str>) {
    match row.split_once(" => ") {
        Some((case, answer)) => (case, Some(answer)),
        None => (row, None),
    }
}

impl Count {
    // Tries a row. One without an answer is wrong.
    fn add<C, S: Subject<C>>(&mut self, rt: &HostRuntime, subject: &S, kind: &C, row: &str) {
        let row = written_out(rt.alloc(), row);
        let (case, answer) = case_and_answer(row.text());
        let mut found = Report::new(rt.alloc());
        subject.tell(kind, case, &mut found);
        self.judge(rt, case, found.text(), answer);
    }

    // Counts a case that comes to something, and tells where its answer is another.
    fn judge(&mut self, rt: &HostRuntime, case: &str, found: &str, answer: Option<&str>) {
        self.tried = self.tried.saturating_add(1);
        if Some(found) != answer {
            self.wrong = self.wrong.saturating_add(1);
            let answer = answer.unwrap_or("any answer of its row");
            let _ = eprintln!(rt; "{case} => {found}, not {answer}");
        }
    }

    // Whether all rows were tried and have their answers.
    fn verdict(self, is_whole: bool) -> Result<(), Fail> {
        let Count { tried, wrong } = self;
        if is_whole && tried > 0 && wrong == 0 {
            return Ok(());
        }
        let others = if is_whole {
            ""
        } else {
            ", and no others were tried"
        };
        Err(Fail::new(format_args!("{wrong} of {tried} rows are wrong{others}")))
    }
}

// Tries the rows of each kind that have a part in them.
fn try_with<C, S: Subject<C>>(
    rt: &HostRuntime,
    subject: &S,
    rows: &[(C, &str)],
    part: &str,
) -> Count {
    let mut count = Count { tried: 0, wrong: 0 };
    for (kind, rows) in rows {
        for row in rows.lines() {
            if row.contains(part) {
                count.add(rt, subject, kind, row);
            }
        }
    }
    count
}

/// Tries the rows `CASE => ANSWER` of each kind, and tells on standard error of each whose case comes to another answer. A piece in braces,
/// with a star and a number behind it, stands for so many of it. Where the environment has a text in `CMS_ROW`, only the rows with that text
/// in them are tried; the test then fails in any case, since it says nothing of the others.
pub fn try_rows<C, S: Subject<C>>(
    rt: &HostRuntime,
    subject: &S,
    rows: &[(C, &str)],
) -> Result<(), Fail> {
    match var(rt, ALONE).ok() {
        Some(part) => try_with(rt, subject, rows, &part).verdict(false),
        None => try_with(rt, subject, rows, "").verdict(true),
    }
}
