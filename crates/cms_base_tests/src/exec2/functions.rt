// Calls of the functions, and what is read and written for them, by the rules of VM/SP EXEC 2.
use crate::exec2::shared::push_quoted;
use crate::texts::{letters, short};
use cms_cases::Report;
use cms_text::{Word, WordList, number, written};
use exec2_funcs::{Function, call};
use std::alloc::Global;
use std::process::Abort;

// The function of a name, if there is one.
fn named<R: Abort>(rt: &R, alloc: Global, name: &str) -> Option<Function> {
    Function::read(&letters(rt, alloc, name))
}

fn words_of<R: Abort>(rt: &R, alloc: Global, text: &str) -> WordList {
    let mut words = WordList::new(alloc);
    for part in text.split('/') {
        words.push(short(rt, alloc, part)).expect(rt, "memory");
    }
    words
}

// The value or the fault that a function answers to its words.
fn tell_answer(into: &mut Report, alloc: Global, function: Function, words: &WordList) {
    match call(alloc, function, words) {
        Ok(word) => push_quoted(into, &word),
        Err(fault) => into.value(&fault),
    }
}

// What the function of a name answers to its words.
fn tell_call<R: Abort>(into: &mut Report, rt: &R, alloc: Global, name: &str, words: &WordList) {
    match named(rt, alloc, name) {
        Some(function) => tell_answer(into, alloc, function, words),
        None => into.push_str("no function"),
    }
}

// A number as it is written, if it is read so too.
fn tell_written(into: &mut Report, value: i64, word: &Word) {
    if number(word.bytes()) != Some(value) {
        return into.push_str("another number");
    }
    push_quoted(into, word)
}

fn tell_number<R: Abort>(into: &mut Report, rt: &R, alloc: Global, text: &str) {
    let value = text.parse::<i64>().expect(rt, "a number");
    tell_written(into, value, &written(alloc, value).expect(rt, "memory"))
}

/// Tells what a case comes to: the answer to a function and its words, with a stroke before each, or behind `name` or `number` to what is
/// read there.
pub fn tell<R: Abort>(into: &mut Report, rt: &R, alloc: Global, case: &str) {
    if let Some(name) = case.strip_prefix("name ") {
        return into.value(&named(rt, alloc, name));
    }
    if let Some(text) = case.strip_prefix("number ") {
        return tell_number(into, rt, alloc, text);
    }
    match case.split_once('/') {
        Some((name, text)) => tell_call(into, rt, alloc, name, &words_of(rt, alloc, text)),
        None => tell_call(into, rt, alloc, case, &WordList::new(alloc)),
    }
}

/// Cases and their answers, a value or a fault.
pub const ROWS: &str = "&CONCAT => ''
&CONCAT/AB//C => 'ABC'
&LITERAL => ''
&LITERAL/ => ''
&LITERAL/A => 'A'
&LITERAL/A//B => 'A  B'
&STRING => ''
&STRING/A//B => 'A B'
&STRING//A/ => 'A'
&DATATYPE/12 => 'NUM'
&DATATYPE/+5 => 'NUM'
&DATATYPE/-0 => 'NUM'
&DATATYPE/ => 'CHAR'
&DATATYPE/- => 'CHAR'
&DATATYPE/+-1 => 'CHAR'
&DATATYPE/1 2 => 'CHAR'
&DATATYPE/9223372036854775807 => 'NUM'
&DATATYPE/9223372036854775808 => 'CHAR'
&DATATYPE/-9223372036854775808 => 'NUM'
&DATATYPE/-9223372036854775809 => 'CHAR'
&DATATYPE/0000000000000000001 => 'NUM'
&DATATYPE/00000000000000000001 => 'CHAR'
&DATATYPE => Arity
&DATATYPE/1/2 => Arity
&DIV/7/2 => '3'
&DIV/-7/2 => '-3'
&DIV/7/-2 => '-3'
&DIV/-7/-2 => '3'
&DIV/007/+2 => '3'
&DIV/100/5/2 => '10'
&DIV/0/-5 => '0'
&DIV/-9223372036854775808/1 => '-9223372036854775808'
&DIV/-9223372036854775808/-1 => Overflow
&DIV/7/0 => Zero
&DIV/1/0/A => Zero
&DIV/A/0 => NotNumber
&DIV/1/A/0 => NotNumber
&DIV/7/ => NotNumber
&DIV/7 => Arity
&DIV/A => Arity
&MULT/3/4 => '12'
&MULT/2/3/-4 => '-24'
&MULT/-0/5 => '0'
&MULT/4611686018427387904/-2 => '-9223372036854775808'
&MULT/4611686018427387904/2 => Overflow
&MULT/9223372036854775807/2 => Overflow
&MULT/9223372036854775807/2/0 => Overflow
&MULT/9223372036854775808/1 => NotNumber
&MULT/5 => Arity
&LEFT/AB/4 => 'AB  '
&LEFT/ABCDE/3 => 'ABC'
&LEFT/AB/0 => ''
&LEFT//2 => '  '
&LEFT/AB/-1 => NotNumber
&LEFT/AB/256 => NotNumber
&LEFT/AB/ => NotNumber
&LEFT/AB => Arity
&LEFT/AB/X/1 => Arity
&RIGHT/AB/4 => '  AB'
&RIGHT/ABCDE/3 => 'CDE'
&RIGHT/AB/0 => ''
&RIGHT/AB/256 => NotNumber
&RIGHT/AB => Arity
&LENGTH/ABC => '3'
&LENGTH/ => '0'
&LENGTH => Arity
&LOCATION/B/ABC => '2'
&LOCATION/BC/ABC => '2'
&LOCATION/X/ABC => '0'
&LOCATION/A/AA => '1'
&LOCATION/ABC/AB => '0'
&LOCATION//ABC => '1'
&LOCATION// => '1'
&LOCATION/B => Arity
&PIECE/ABCDE/2/3 => 'BCD'
&PIECE/ABCDE/2 => 'BCDE'
&PIECE/ABCDE/5 => 'E'
&PIECE/ABCDE/6 => ''
&PIECE/ABCDE/4/9 => 'DE'
&PIECE/ABCDE/2/0 => ''
&PIECE/ABCDE/0 => NotNumber
&PIECE/ABCDE/256 => NotNumber
&PIECE/ABCDE/1/256 => NotNumber
&PIECE/ABCDE => Arity
&PIECE/ABCDE/1/1/1 => Arity
&SUBSTR/ABCDE/2/3 => 'BCD'
&SUBSTR/ABCDE/0/1 => NotNumber
&POSITION/B/A/B => '2'
&POSITION/7/07/7 => '2'
&POSITION/b/B => '0'
&POSITION//A/ => '2'
&POSITION/B => '0'
&POSITION => Arity
&TRANS/CAB/XY/AB => 'CXY'
&TRANS/ABC/X/AB => 'X C'
&TRANS/ABC//AB => '  C'
&TRANS/AA/XY/AA => 'XX'
&TRANS/ABC/XYZ/ => 'ABC'
&TRANS/AB/CD => Arity
&TRIM/AB   => 'AB'
&TRIM/ AB => ' AB'
&TRIM/    => ''
&TRIM => Arity
&WORD/2/A/B => 'B'
&WORD/3/A/B => ''
&WORD/1 => ''
&WORD/0/A => NotNumber
&WORD/256/A => NotNumber
&WORD/X/A => NotNumber
&WORD => Arity
&CONCAT/%200/%55/%0 => 255 bytes
&CONCAT/%200/%55/%1 => TooLong
&LITERAL/%100/%100/%53 => 255 bytes
&LITERAL/%100/%100/%54 => TooLong
&LITERAL/%127/%0/%127 => TooLong
&STRING/%127/%0/%127 => 255 bytes
&STRING/%127/%1/%126 => TooLong
&CONCAT/%255/%255/%255 => TooLong
&CONCAT{/A*64} => '{A*64}'
&CONCAT{/A*255} => 255 bytes
&CONCAT{/A*256} => TooLong
&LITERAL{/A*64} => 127 bytes
&LITERAL{/A*128} => 255 bytes
&LITERAL{/A*129} => TooLong
&STRING{/A*64} => 127 bytes
&STRING{/A*129} => TooLong
&POSITION/B{/A*70}/B => '71'
&POSITION/B{/A*70} => '0'
&WORD/65{/A*64}/B => 'B'
&WORD/255{/A*254}/B/C => 'B'
&WORD/62{/A*60} => ''
&MULT{/1*64}/7 => '7'
&DIV/21{/1*64}/3 => '7'
&DIV/21{/1*64}/0 => Zero
&LEFT/A{/1*64} => Arity
&LEFT/%201/255 => 255 bytes
&LEFT/%255/254 => 254 bytes
&RIGHT/AB/255 => 255 bytes
&RIGHT/%255/201 => 201 bytes
&LENGTH/%201 => '201'
&LENGTH/%255 => '255'
&LOCATION/%255/%255 => '1'
&LOCATION/%254/%255 => '1'
&LOCATION/%255/%254 => '0'
&LOCATION/B/{A*254}B => '255'
&PIECE/%255/1/255 => 255 bytes
&PIECE/%255/255/255 => 'X'
&PIECE/{A*254}B/255 => 'B'
&PIECE/{A*200}{B*55}/201 => '{B*55}'
&SUBSTR/{A*254}B/254/9 => 'AB'
&POSITION/%255/%254/%255 => '2'
&TRANS/{A*254}B/C/A => 255 bytes
&TRIM/{A*201}{ *54} => 201 bytes
&WORD/2/A/%255 => 255 bytes
&DATATYPE/%255 => 'CHAR'
&DATATYPE/{0*255} => 'CHAR'
&LITERAL/%255 => 255 bytes
&STRING/%255 => 255 bytes
&STRING/%254/A => TooLong
number 0 => '0'
number 7 => '7'
number -7 => '-7'
number 100 => '100'
number 9223372036854775807 => '9223372036854775807'
number -9223372036854775808 => '-9223372036854775808'
name &CONCAT => Some(Concat)
name &datatype => Some(Datatype)
name &Div => Some(Div)
name &MULT => Some(Mult)
name &LEFT => Some(Left)
name &RIGHT => Some(Right)
name &LENGTH => Some(Length)
name &LITERAL => Some(Literal)
name &LOCATION => Some(Location)
name &PIECE => Some(Piece)
name &SUBSTR => Some(Substr)
name &POSITION => Some(Position)
name &STRING => Some(String)
name &TRANS => Some(Trans)
name &TRIM => Some(Trim)
name &WORD => Some(Word)
name LEFT => None
name &LEF => None
name &LEFTS => None
name & => None
name  => None";
