// The cases of each module, and the test that tries them.
use crate::{changes, empty_minidisks, puts, reads, shared_blocks};
use cms_cases::{Report, Subject, try_rows};
use std::alloc::Global;
use std::process::Abort;
use std::test::Fail;

/// Who is asked for the answers: where there is no memory, or a case can't be made, the test ends.
#[derive(Drop)]
pub struct Asked<'a, R: Abort> {
    pub rt: &'a R,
    pub alloc: Global,
}

/// The word of a text at a place, from 0, where a blank stands between the words. Empty where there is none.
pub fn word_of(text: &str, place: usize) -> &str {
    text.split(' ').nth(place).unwrap_or("")
}

// Whose cases they are.
#[derive(Clone, Copy)]
enum Cases {
    Reading,
    Putting,
    Changing,
    Sharing,
    Making,
}

// The rows of each.
const ROWS: &[(Cases, &str)] = &[
    (Cases::Reading, reads::ROWS),
    (Cases::Putting, puts::ROWS),
    (Cases::Changing, changes::ROWS),
    (Cases::Sharing, shared_blocks::ROWS),
    (Cases::Making, empty_minidisks::ROWS),
];

impl<R: Abort> Subject<Cases> for Asked<'_, R> {
    fn tell(&self, kind: &Cases, case: &str, into: &mut Report) {
        match kind {
            Cases::Reading => reads::tell(into, self.rt, self.alloc, case),
            Cases::Putting => puts::tell(into, self.rt, self.alloc, case),
            Cases::Changing => changes::tell(into, self.rt, self.alloc, case),
            Cases::Sharing => shared_blocks::tell(into, self.rt, self.alloc, case),
            Cases::Making => empty_minidisks::tell(into, self.rt, self.alloc, case),
        }
    }
}

#[test]
fn cases_have_their_answers(rt: HostRuntime) -> Result<(), Fail> {
    try_rows(
        &rt,
        &Asked {
            rt: &rt,
            alloc: rt.alloc(),
        },
        ROWS,
    )
}
