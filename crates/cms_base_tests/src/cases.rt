// The cases of each module, and the test that tries them.
use crate::{
    climbs, code_page, fields, files, maps, names, operands, pieces, records, resumes, trees, words,
};
use cms_cases::{Report, Subject, try_rows};
use std::alloc::Global;
use std::process::Abort;
use std::test::Fail;

/// Who is asked for the answers: where there is no memory, or a case can't be made, the test ends.
#[derive(Drop)]
pub struct Asked<'a, R: Abort> {
    pub rt: &'a R,
    pub alloc: Global,
}

// Whose cases they are.
#[derive(Clone, Copy)]
enum Cases {
    CodePage,
    Names,
    Fields,
    Files,
    Maps,
    Records,
    Pieces,
    Trees,
    Climbs,
    Resumes,
    Words,
    Operands,
}

// The rows of each.
const ROWS: &[(Cases, &str)] = &[
    (Cases::CodePage, code_page::ROWS),
    (Cases::Names, names::ROWS),
    (Cases::Fields, fields::ROWS),
    (Cases::Files, files::ROWS),
    (Cases::Maps, maps::ROWS),
    (Cases::Records, records::ROWS),
    (Cases::Pieces, pieces::ROWS),
    (Cases::Trees, trees::ROWS),
    (Cases::Climbs, climbs::ROWS),
    (Cases::Resumes, resumes::ROWS),
    (Cases::Words, words::ROWS),
    (Cases::Operands, operands::ROWS),
];

impl<R: Abort> Subject<Cases> for Asked<'_, R> {
    fn tell(&self, kind: &Cases, case: &str, into: &mut Report) {
        let (rt, alloc) = (self.rt, self.alloc);
        match kind {
            Cases::CodePage => code_page::tell(into, case),
            Cases::Names => names::tell(into, rt, alloc, case),
            Cases::Fields => fields::tell(into, rt, alloc, case),
            Cases::Files => files::tell(into, rt, alloc, case),
            Cases::Maps => maps::tell(into, rt, alloc, case),
            Cases::Records => records::tell(into, rt, alloc, case),
            Cases::Pieces => pieces::tell(into, rt, alloc, case),
            Cases::Trees => trees::tell(into, rt, alloc, case),
            Cases::Climbs => climbs::tell(into, rt, alloc, case),
            Cases::Resumes => resumes::tell(into, rt, alloc, case),
            Cases::Words => words::tell(into, rt, alloc, case),
            Cases::Operands => operands::tell(into, rt, alloc, case),
        }
    }
}

#[test]
fn cases_have_their_answers(rt: HostRuntime) -> Result<(), Fail> {
    try_rows(
        &rt,
        &Asked {
            rt: &rt,
            alloc: rt.alloc(),
        },
        ROWS,
    )
}
