// What a byte does in a text of lines.
ghost use Rattle.std.specs.Prelude.{◌≡◌, ◌≤◌};
ghost use Rattle.mini_forms.specs.Lines.{step_of, second_byte, return_step, fresh_step};

/// What is begun of a character or of a line's end.
#[derive(Clone, Copy)]
pub enum Begun {
    /// nothing
    Fresh,
    /// the first byte of a character from U+0080 to U+00BF
    LowHalf,
    /// the first byte of a character from U+00C0 to U+00FF
    HighHalf,
    /// a carriage return
    Return,
}

/// What the next byte does.
#[derive(Clone, Copy)]
pub enum Step {
    /// it ends this character
    Adds(u8),
    /// it begins something
    Goes(Begun),
    /// it ends the line
    Ends,
    /// it belongs to no character to U+00FF
    NoCharacter,
    /// a carriage return stands before it, and it isn't a line feed
    LoneReturn,
}

/// What a byte does behind what is begun.
#[tactic(auto, unfolding(crate::specs::Lines::step_of))]
pub fn step_of(begun: Begun, byte: u8) -> Step
    ensures { result ≡ step_of begun byte }
{
    match begun {
        Begun::LowHalf => second_byte(byte, 0),
        Begun::HighHalf => second_byte(byte, 64),
        Begun::Return => return_step(byte),
        Begun::Fresh => fresh_step(byte),
    }
}

#[tactic(auto, unfolding(crate::specs::Lines::second_byte))]
fn second_byte(byte: u8, more: u8) -> Step
    requires { more ≤ 64 }
    ensures { result ≡ second_byte more byte }
{
    match byte {
        0x80..=0xBF => Step::Adds(byte + more),
        _ => Step::NoCharacter,
    }
}

#[tactic(auto, unfolding(crate::specs::Lines::return_step))]
fn return_step(byte: u8) -> Step
    ensures { result ≡ return_step byte }
{
    match byte {
        b'\n' => Step::Ends,
        _ => Step::LoneReturn,
    }
}

#[tactic(auto, unfolding(crate::specs::Lines::fresh_step))]
fn fresh_step(byte: u8) -> Step
    ensures { result ≡ fresh_step byte }
{
    match byte {
        b'\n' => Step::Ends,
        b'\r' => Step::Goes(Begun::Return),
        0..=0x7F => Step::Adds(byte),
        0xC2 => Step::Goes(Begun::LowHalf),
        0xC3 => Step::Goes(Begun::HighHalf),
        _ => Step::NoCharacter,
    }
}
