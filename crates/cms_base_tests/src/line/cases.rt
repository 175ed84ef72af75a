// The cases of lines, and the test that tries them.
use crate::cases::Asked;
use crate::line::{consoles, messages, options, stacks, typed_lines};
use cms_cases::{Report, Subject, try_rows};
use std::process::Abort;
use std::test::Fail;

// Whose cases they are.
#[derive(Clone, Copy)]
enum Cases {
    // scripts that are read in pieces of this size
    Lines(usize),
    Reads,
    Typed,
    Codes,
    Messages,
    Stacks,
    Words,
    Accepted,
    Answered,
}

// The rows of each.
const ROWS: &[(Cases, &str)] = &[
    (Cases::Lines(1), consoles::LINES),
    (Cases::Lines(2), consoles::LINES),
    (Cases::Lines(7), consoles::LINES),
    (Cases::Lines(4096), consoles::LINES),
    (Cases::Reads, consoles::READS),
    (Cases::Typed, typed_lines::TYPED),
    (Cases::Codes, typed_lines::CODES),
    (Cases::Messages, messages::ROWS),
    (Cases::Stacks, stacks::ROWS),
    (Cases::Words, options::WORDS),
    (Cases::Accepted, options::ACCEPTED),
    (Cases::Answered, options::ANSWERED),
];

impl<R: Abort> Subject<Cases> for Asked<'_, R> {
    fn tell(&self, kind: &Cases, case: &str, into: &mut Report) {
        let (rt, alloc) = (self.rt, self.alloc);
        match kind {
            Cases::Lines(size) => consoles::push_lines(into, rt, alloc, *size, case),
            Cases::Reads => consoles::push_reads(into, rt, alloc, case),
            Cases::Typed => typed_lines::push_typed(into, rt, alloc, case),
            Cases::Codes => typed_lines::push_codes(into, alloc),
            Cases::Messages => messages::push_text(into, rt, alloc, case),
            Cases::Stacks => stacks::push_steps(into, alloc, case),
            Cases::Words => options::push_words(into, rt, alloc, case),
            Cases::Accepted => options::push_accepted(into, rt, alloc, case),
            Cases::Answered => options::push_answered(into, rt, alloc, case),
        }
    }
}

#[test]
fn lines_and_messages_answer(rt: HostRuntime) -> Result<(), Fail> {
    try_rows(
        &rt,
        &Asked {
            rt: &rt,
            alloc: rt.alloc(),
        },
        ROWS,
    )
}
