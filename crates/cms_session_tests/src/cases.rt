// The cases of each module that has rows, and the test that tries them.
use crate::{decks, edits, generated_scripts, lists};
use cms_cases::{Report, Subject, try_rows};
use std::alloc::Global;
use std::process::Abort;
use std::test::Fail;

// Whose cases they are.
#[derive(Clone, Copy)]
enum Cases {
    Decks,
    GeneratedScripts,
    Edits,
    Lists,
}

// The rows of each.
const ROWS: &[(Cases, &str)] = &[
    (Cases::Decks, decks::ROWS),
    (Cases::GeneratedScripts, generated_scripts::ROWS),
    (Cases::Edits, edits::ROWS),
    (Cases::Lists, lists::ROWS),
];

// Who is asked for the answers: where there is no memory, or a case can't be made, the test ends.
#[derive(Drop)]
struct Asked<'a, R: Abort> {
    rt: &'a R,
    alloc: Global,
}

impl<R: Abort> Subject<Cases> for Asked<'_, R> {
    fn tell(&self, kind: &Cases, case: &str, into: &mut Report) {
        match kind {
            Cases::Decks => decks::tell(into, self.rt, self.alloc, case),
            Cases::GeneratedScripts => generated_scripts::tell(into, self.rt, self.alloc, case),
            Cases::Edits => edits::tell(into, self.rt, self.alloc, case),
            Cases::Lists => lists::tell(into, self.rt, self.alloc, case),
        }
    }
}

#[test]
fn cases_have_their_answers(rt: HostRuntime) -> Result<(), Fail> {
    try_rows(
        &rt,
        &Asked {
            rt: &rt,
            alloc: rt.alloc(),
        },
        ROWS,
    )
}
