// What a procedure wants of its session.
use cms_text::{Line, Lines, Word};

/// Where lines are stacked.
#[derive(Clone, Copy)]
pub enum Side {
    /// before all others: taken first
    Front,
    /// behind all others: taken last
    Back,
}

/// What a procedure wants next.
#[derive(Drop)]
pub enum Want {
    /// After `settle` a statement is due; after any other call nothing is wanted.
    Next,
    /// These lines are typed.
    Say(Lines),
    /// These lines are stacked, in their order, as VM/SP EXEC 2's &STACK and &BEGSTACK say; where the stack has no room for all of
    /// them none is, and `refuse_stack` follows.
    Stack(Lines, Side),
    /// A line is asked for; `take_line` follows.
    Read,
    /// The line is issued to CMS; `take_code` follows.
    Command(Line),
    /// The text is sent to the extension of the word, which may be in small letters; `take_code` follows.
    Sub(Word, Line),
    /// The procedure has ended with this code, -9999 to 99999.
    Ended(i32),
    /// The procedure has ended by a fault, 1 to 14, at a line, which counts from 1.
    Failed { number: u8, line: u32 },
}
