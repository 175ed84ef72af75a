// The function words.
ghost use Rattle.std.specs.Prelude.{◌≡◌, length};
ghost use Rattle.cms_text.specs.Texts.{ebcdic};
ghost use Rattle.exec2_funcs.specs.Functions as spec;

use exec2_parse::is_spelled;

/// A function of EXEC 2. Its word is its name with an ampersand before it.
#[derive(Clone, Copy, Debug)]
pub enum Function {
    Concat,
    Datatype,
    Div,
    Mult,
    Left,
    Right,
    Length,
    Literal,
    Location,
    Piece,
    Substr,
    Position,
    String,
    Trans,
    Trim,
    Word,
}

const FUNCTIONS: [Function; 16] = [
    Function::Concat,
    Function::Datatype,
    Function::Div,
    Function::Mult,
    Function::Left,
    Function::Right,
    Function::Length,
    Function::Literal,
    Function::Location,
    Function::Piece,
    Function::Substr,
    Function::Position,
    Function::String,
    Function::Trans,
    Function::Trim,
    Function::Word,
];

impl Function {
    /// The function of a function word, in capital or small letters; none exactly where the word is no function word.
    #[tactic(auto, unfolding(crate::specs::Functions::function_of))]
    pub fn read(word: &[u8]) -> Option<Function>
        ensures { result ≡ spec.function_of word.now }
    {
        FUNCTIONS
            .iter()
            .copied()
            .find(|function| is_spelled(word, function.name()))
    }

    /// The function's word, in ASCII.
    pub fn name(self) -> &'static str
        ensures name { result.now ≡ spec.name_of self }
        ensures coded { length (ebcdic result.now) ≡ length result.now }
    {
        match self {
            Function::Concat => "&CONCAT",
            Function::Datatype => "&DATATYPE",
            Function::Div => "&DIV",
            Function::Mult => "&MULT",
            Function::Left => "&LEFT",
            Function::Right => "&RIGHT",
            Function::Length => "&LENGTH",
            Function::Literal => "&LITERAL",
            Function::Location => "&LOCATION",
            Function::Piece => "&PIECE",
            Function::Substr => "&SUBSTR",
            Function::Position => "&POSITION",
            Function::String => "&STRING",
            Function::Trans => "&TRANS",
            Function::Trim => "&TRIM",
            Function::Word => "&WORD",
        }
    }
}
