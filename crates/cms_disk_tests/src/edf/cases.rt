// The cases of volumes, and the test that tries them.
use crate::cases::Asked;
use crate::edf::{drafts, empty_volumes, openings, written_files};
use cms_cases::{Report, Subject, try_rows};
use std::process::Abort;
use std::test::Fail;

// Whose cases they are.
#[derive(Clone, Copy)]
enum Cases {
    Opening,
    Drafting,
    Making,
    Writing,
}

// The rows of each.
const ROWS: &[(Cases, &str)] = &[
    (Cases::Opening, openings::ROWS),
    (Cases::Drafting, drafts::ROWS),
    (Cases::Making, empty_volumes::SHAPES),
    (Cases::Making, empty_volumes::ROWS),
    (Cases::Writing, written_files::ROWS),
];

impl<R: Abort> Subject<Cases> for Asked<'_, R> {
    fn tell(&self, kind: &Cases, case: &str, into: &mut Report) {
        match kind {
            Cases::Opening => openings::tell(into, self.rt, self.alloc, case),
            Cases::Drafting => drafts::tell(into, self.rt, self.alloc, case),
            Cases::Making => empty_volumes::tell(into, self.rt, self.alloc, case),
            Cases::Writing => written_files::tell(into, self.rt, self.alloc, case),
        }
    }
}

#[test]
fn volumes_answer(rt: HostRuntime) -> Result<(), Fail> {
    try_rows(
        &rt,
        &Asked {
            rt: &rt,
            alloc: rt.alloc(),
        },
        ROWS,
    )
}
