// The cases of the worlds in memory, and the test that tries them.
use crate::cases::Asked;
use crate::world::{memory, quiet, words};
use cms_cases::{Report, Subject, try_rows};
use std::process::Abort;
use std::test::Fail;

// Whose cases they are.
#[derive(Clone, Copy)]
enum Cases {
    Memory,
    Quiet,
    Words,
}

// The rows of each.
const ROWS: &[(Cases, &str)] = &[
    (Cases::Memory, memory::ROWS),
    (Cases::Quiet, quiet::ROWS),
    (Cases::Words, words::ROWS),
];

impl<R: Abort> Subject<Cases> for Asked<'_, R> {
    fn tell(&self, kind: &Cases, case: &str, into: &mut Report) {
        match kind {
            Cases::Memory => memory::tell(into, self.rt, self.alloc, case),
            Cases::Quiet => quiet::tell(into, self.rt, self.alloc, case),
            Cases::Words => words::tell(into, self.rt, self.alloc, case),
        }
    }
}

#[test]
fn worlds_answer(rt: HostRuntime) -> Result<(), Fail> {
    try_rows(
        &rt,
        &Asked {
            rt: &rt,
            alloc: rt.alloc(),
        },
        ROWS,
    )
}
