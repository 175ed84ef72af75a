// The cases of EXEC 2, and the test that tries them.
use crate::cases::Asked;
use crate::exec2::{functions, procedures, runs};
use cms_cases::{Report, Subject, try_rows};
use std::process::Abort;
use std::test::Fail;

// Whose cases they are.
#[derive(Clone, Copy)]
enum Cases {
    Functions,
    Procedures,
    Runs,
}

// The rows of each.
const ROWS: &[(Cases, &str)] = &[
    (Cases::Functions, functions::ROWS),
    (Cases::Procedures, procedures::ROWS),
    (Cases::Runs, runs::TYPING),
    (Cases::Runs, runs::NOTHING),
    (Cases::Runs, runs::ASSIGNMENT),
    (Cases::Runs, runs::FUNCTIONS),
    (Cases::Runs, runs::COMMANDS),
    (Cases::Runs, runs::EXTENSIONS),
    (Cases::Runs, runs::COMPARISON),
    (Cases::Runs, runs::JUMPS),
    (Cases::Runs, runs::LOOPS),
    (Cases::Runs, runs::CALLS),
    (Cases::Runs, runs::ERRORS),
    (Cases::Runs, runs::READING),
    (Cases::Runs, runs::STACKING),
    (Cases::Runs, runs::ENDS),
    (Cases::Runs, runs::GIVEN),
    (Cases::Runs, runs::LONG),
    (Cases::Runs, runs::LIMITS),
    (Cases::Runs, runs::ENDLESS),
];

impl<R: Abort> Subject<Cases> for Asked<'_, R> {
    fn tell(&self, kind: &Cases, case: &str, into: &mut Report) {
        match kind {
            Cases::Functions => functions::tell(into, self.rt, self.alloc, case),
            Cases::Procedures => procedures::tell(into, self.rt, self.alloc, case),
            Cases::Runs => runs::tell(into, self.rt, self.alloc, case),
        }
    }
}

#[test]
fn procedures_and_functions_answer(rt: HostRuntime) -> Result<(), Fail> {
    try_rows(
        &rt,
        &Asked {
            rt: &rt,
            alloc: rt.alloc(),
        },
        ROWS,
    )
}
