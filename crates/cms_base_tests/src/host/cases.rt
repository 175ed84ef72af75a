// What a world of files asks of its system, and what comes of real files; and the tests that try them.
use crate::cases::Asked;
use crate::host::{files, steps, streams};
use cms_cases::{Report, Subject, try_rows};
use std::process::Abort;
use std::test::Fail;

// Whose cases they are.
#[derive(Clone, Copy)]
enum Cases {
    Steps,
    Streams,
}

// The rows of each.
const ROWS: &[(Cases, &str)] = &[(Cases::Steps, steps::ROWS), (Cases::Streams, streams::ROWS)];

impl<R: Abort> Subject<Cases> for Asked<'_, R> {
    fn tell(&self, kind: &Cases, case: &str, into: &mut Report) {
        match kind {
            Cases::Steps => steps::tell(into, self.rt, self.alloc, case),
            Cases::Streams => streams::tell(into, case),
        }
    }
}

#[test]
fn systems_are_asked_in_order(rt: HostRuntime) -> Result<(), Fail> {
    try_rows(
        &rt,
        &Asked {
            rt: &rt,
            alloc: rt.alloc(),
        },
        ROWS,
    )
}

#[test]
fn real_files_do_what_is_asked(rt: HostRuntime) -> Result<(), Fail> {
    let mut told = Report::new(rt.alloc());
    files::push(&mut told, &rt).expect(&rt, "files");
    let told = told.text();
    if told == files::TOLD {
        return Ok(());
    }
    Err(Fail::new(told))
}
