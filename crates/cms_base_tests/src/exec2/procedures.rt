// Words, variables and procedures, by the rules of VM/SP EXEC 2.
ghost use Rattle.std.specs.Prelude.{◌≤◌, length};
ghost use Rattle.cms_fields.specs.Limits.{most_bytes};
ghost use Rattle.cms_model.specs.Records.{IsValid};

use crate::exec2::shared::{STAMP, procedure_of, push_quoted};
use crate::texts::{letters, short};
use cms_cases::Report;
use cms_model::{FileData, Stored};
use cms_names::Format;
use cms_text::{first_word, is_keyword, without_trailing_blanks};
use exec2_parse::{ProcFault, Procedure, Vars, expand, read_procedure};
use std::alloc::Global;
use std::process::Abort;

// Two records of 9 and 7 bytes, `&TRACE ON` and `&EXIT  `, each with its length before it.
const VARYING: [u8; 20] = [
    0x00, 0x09, 0x50, 0xE3, 0xD9, 0xC1, 0xC3, 0xC5, 0x40, 0xD6, 0xD5, 0x00, 0x07, 0x50, 0xC5, 0xE7,
    0xC9, 0xE3, 0x40, 0x40,
];

// A file of these records.
fn varying<R: Abort>(rt: &R, alloc: Global) -> FileData
    ensures valid { IsValid result }
    ensures stored { length result.bytes ≤ most_bytes }
{
    FileData {
        format: Format::V,
        length: 9,
        number: 1,
        stamp: STAMP,
        count: 2,
        bytes: Stored::take(VARYING.to_vec(alloc).expect(rt, "memory")),
    }
}

fn set<R: Abort>(vars: &mut Vars, rt: &R, alloc: Global, name: &str, value: &str) {
    let name = short(rt, alloc, name);
    vars.set(name, short(rt, alloc, value)).expect(rt, "memory");
}

fn unset<R: Abort>(vars: &mut Vars, rt: &R, alloc: Global, name: &str) {
    vars.unset(&letters(rt, alloc, name))
}

// Variables that are set one after another, `name=value`, or forgotten, `-name`.
fn change<R: Abort>(vars: &mut Vars, rt: &R, alloc: Global, step: &str) {
    match step.split_once('=') {
        Some((name, value)) => set(vars, rt, alloc, name, value),
        None => unset(vars, rt, alloc, step.strip_prefix('-').unwrap_or(step)),
    }
}

// Adds how many variables there are, and the value of B.
fn push_state(into: &mut Report, vars: &Vars) {
    if vars.is_empty() {
        return into.push_str("empty");
    }
    into.value(&vars.len());
    into.push(' ');
    match vars.get(&[0xC2]) {
        Some(value) => push_quoted(into, value),
        None => into.push_str("none"),
    }
}

// How the variables are at first and after each step.
fn tell_states<R: Abort>(into: &mut Report, rt: &R, alloc: Global, steps: &str) {
    let mut vars = Vars::new(alloc);
    push_state(into, &vars);
    for step in steps.split(';') {
        change(&mut vars, rt, alloc, step);
        into.push(';');
        push_state(into, &vars);
    }
}

// The variables of the words that are expanded.
fn known<R: Abort>(rt: &R, alloc: Global) -> Vars {
    let mut vars = Vars::new(alloc);
    for step in "I=2;A2=Q;V=&I;=E;A=B;L=%254".split(';') {
        change(&mut vars, rt, alloc, step);
    }
    vars
}

fn tell_expanded<R: Abort>(into: &mut Report, rt: &R, alloc: Global, text: &str) {
    let word = short(rt, alloc, text);
    match expand(alloc, word.bytes(), &known(rt, alloc)) {
        Ok(word) => push_quoted(into, &word),
        Err(fault) => into.value(&fault),
    }
}

// The first word of a line, and the line without the blanks at its end.
fn tell_parts(into: &mut Report, line: &[u8]) {
    into.push('[');
    into.ascii(first_word(line));
    into.push_str("][");
    into.ascii(without_trailing_blanks(line));
    into.push(']')
}

// How many lines a procedure has, or why there is none.
fn tell_count(into: &mut Report, read: Result<Procedure, ProcFault>) {
    match read {
        Ok(procedure) => write!(into, "Ok({})", procedure.len()),
        Err(fault) => write!(into, "Err({fault:?})"),
    }
}

// Adds the lines of a procedure up to the first place at which there is none.
fn push_lines(into: &mut Report, procedure: &Procedure) {
    into.value(&procedure.len());
    for place in 0..9 {
        match procedure.get(place) {
            Some(line) => push_quoted(into, line),
            None => return,
        }
    }
}

// The lines of a procedure, or why there is none.
fn tell_lines(into: &mut Report, read: Result<Procedure, ProcFault>) {
    match read {
        Ok(procedure) => push_lines(into, &procedure),
        Err(fault) => into.value(&fault),
    }
}

/// Lines, each with a word for what is asked of the text behind it, and the answers:
///
/// - `expand`: a word with the values of the variables known.
/// - `vars`: how variables are that are set and forgotten one after another.
/// - `parts`: the first word of a line and the line without trailing blanks. `trace`: whether a word is &TRACE.
/// - `short` and `long`: how many lines a procedure in records of 80 or 300 bytes has. `lines`: its lines, in records of 80 bytes;
///   `varying`: those in records with lengths of their own.
pub const ROWS: &str = "\
expand  => ''
expand X => 'X'
expand &I => '2'
expand &A&I => 'Q'
expand X&NOPE => 'X'
expand &NOPE => ''
expand X&A&I => 'XQ'
expand &V => '&I'
expand &&V => ''
expand &I&I => ''
expand & => 'E'
expand X& => 'XE'
expand &i => '2'
expand &a&i => 'Q'
expand &L => 254 bytes
expand X&L => 255 bytes
expand XX&L => TooLong
expand &N&L => TooLong
expand &&L => ''
vars B=1;B=2;B=;A=3;-B => empty;1 '1';1 '2';1 '';2 '';1 none
parts  => [][]
parts     => [][]
parts &TRACE OFF => [&TRACE][&TRACE OFF]
parts   A B   => [A][  A B]
parts (A B => [(A][(A B]
trace &TRACE => true
trace &Trace => true
trace &trace => true
trace &TRAC => false
trace &TRACES => false
trace TRACE => false
trace  => false
short &TRACE OFF;&TYPE X => Ok(2)
short   &trace; => Ok(2)
short * A COMMENT;&TRACE = 5 => Ok(2)
short ;&TRACE => Ok(2)
short &TYPE X;&TRACE => Err(NotExec2)
short -L &TRACE;&TRACE => Err(NotExec2)
short  * A;&TRACE => Err(NotExec2)
short &TRACES;&TRACE => Err(NotExec2)
short ;* => Err(NotExec2)
lines &TRACE OFF  ;;&TYPE  X => 3'&TRACE OFF''''&TYPE  X'
varying  => 2'&TRACE ON''&EXIT'
long &TRACE;%255; => Ok(3)
long &TRACE;%255;%256 => Err(LineTooLong(3))
long &TRACE;%256;%256 => Err(LineTooLong(2))
long ;%256;&TRACE => Err(NotExec2)
long @4095 &TRACE; => Ok(4096)
long @4096 &TRACE; => Err(TooManyLines)
long @4096 &TRACE;%256 => Err(LineTooLong(4097))";

// Tells what is read of a file.
fn tell_read<R: Abort>(into: &mut Report, rt: &R, alloc: Global, kind: &str, text: &str) {
    match kind {
        "short" => tell_count(into, procedure_of(rt, alloc, 80, text)),
        "long" => tell_count(into, procedure_of(rt, alloc, 300, text)),
        "lines" => tell_lines(into, procedure_of(rt, alloc, 80, text)),
        "varying" => tell_lines(into, read_procedure(alloc, &varying(rt, alloc))),
        _ => into.push_str("another word"),
    }
}

/// Tells what a case comes to.
pub fn tell<R: Abort>(into: &mut Report, rt: &R, alloc: Global, case: &str) {
    let (kind, text) = case.split_once(' ').unwrap_or((case, ""));
    match kind {
        "expand" => tell_expanded(into, rt, alloc, text),
        "vars" => tell_states(into, rt, alloc, text),
        "parts" => tell_parts(into, &letters(rt, alloc, text)),
        "trace" => into.value(&is_keyword(&letters(rt, alloc, text), "&TRACE")),
        _ => tell_read(into, rt, alloc, kind, text),
    }
}
