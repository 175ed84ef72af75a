// The cases of each module, and the test that tries them.
use crate::{commands, words};
use cms_cases::{Report, Subject, try_rows};
use std::alloc::Global;
use std::process::Abort;
use std::test::Fail;

// Whose cases they are.
#[derive(Clone, Copy)]
enum Cases {
    Commands,
    Words,
}

// The rows of each.
const ROWS: &[(Cases, &str)] = &[
    (Cases::Commands, commands::ROWS),
    (Cases::Words, words::ROWS),
];

// Who is asked for the answers: where there is no memory, or a case can't be made, the test ends.
#[derive(Drop)]
struct Asked<'a, R: Abort> {
    rt: &'a R,
    alloc: Global,
}

impl<R: Abort> Subject<Cases> for Asked<'_, R> {
    fn tell(&self, kind: &Cases, case: &str, into: &mut Report) {
        match kind {
            Cases::Commands => commands::tell(into, self.rt, self.alloc, case),
            Cases::Words => words::tell(into, self.rt, self.alloc, case),
        }
    }
}

#[test]
fn cases_have_their_answers(rt: HostRuntime) -> Result<(), Fail> {
    try_rows(
        &rt,
        &Asked {
            rt: &rt,
            alloc: rt.alloc(),
        },
        ROWS,
    )
}
