// The editor, told what a session may tell it.
use cms_cases::{Ascii, Report};
use cms_edit::Editor;
use cms_ext::{ExtReply, ExtWant, Extension, Record, Records};
use cms_names::Name;
use cms_text::{LONGEST_TEXT, Line, Lines, ebcdic};
use std::alloc::Global;
use std::process::Abort;

/// What it is told: `E` and the rest of a line of EDIT, `S` and a subcommand of a procedure, `L` and a line of the loop, `F` and records, `W` that
/// its want is done, `C` and the code of a refusal. The answers are what it wants.
pub const ROWS: &str = "\
E N NOTE;F ALPHA,BETA;S LOCATE BETA;S CHANGE /ET/OT/;S INPUT GAMMA;S SAVE;W => \
get N NOTE 0;end 0;end 0;end 0;end 0;put N NOTE 0 ALPHA,BOTA,GAMMA;end 0
E A B C;F ONE,TWO;S DELETE;S REPLACE X;S CHANGE /O/X/;S TYPE;S UP 3;S TYPE 2;W => \
get A B 2;end 0;end 24;end 24;end 24;end 0;end 0;say ONE;end 0
E A B;F A,B,C;S BOTTOM;S TYPE 5;W;S DELETE 2;S TYPE;W;S NEXT 9;S TYPE;W => \
get A B 0;end 0;end 0;say C;end 0;end 0;say B;end 0;end 0;say B;end 0
E A B;F A,B,C,D;S NEXT 2;S DELETE 2;S TYPE 9;W;S UP;S TYPE 9;W;S DELETE 0;S DELETE 9;S SAVE => \
get A B 0;end 0;end 0;end 0;say D;end 0;end 0;say A,D;end 0;end 0;end 0;end 24
E A B;F X,Y,X;S LOCATE X;S LOCATE X;S UP;S TYPE;W;S BOTTOM;S LOCATE X;S TOP;S LOCATE Z => \
get A B 0;end 0;end 0;end 0;end 0;say Y;end 0;end 0;end 28;end 0;end 28
E A B;F A,B;S INPUT X;S NEXT;S INPUT  Y;S TOP;S TYPE 9;W => \
get A B 0;end 0;end 0;end 0;end 0;end 0;say X,A, Y,B;end 0
E A B;F {A,*10000};S INPUT X;S NEXT 10000;S DELETE;S INPUT X;S TYPE 2;W;S INPUT X => \
get A B 0;end 0;end 40;end 0;end 0;end 0;say X;end 0;end 40
E A B;F {A,*10001};W;S TOP;E => get A B 0;say ?EDIT: file does not fit;end 32;end 24;end 24
E A B;F {A*255};S NEXT;S CHANGE /A/BB/;S CHANGE /A//;S CHANGE /A/BB/;S CHANGE /B/C/;S TYPE;W => \
get A B 0;end 0;end 0;end 24;end 0;end 0;end 0;say CB{A*253};end 0
E A B;F {A*256};W => get A B 0;say ?EDIT: file does not fit;end 32
E A B;F ABA;S NEXT;S CHANGE XAXCX;S change /A/x/;S CHANGE //X/;S CHANGE /Q/X/;S TYPE;W => \
get A B 0;end 0;end 0;end 0;end 0;end 24;end 28;say CBx;end 0
E A B;F A;S NEXT;S CHANGE /A//;S CHANGE /A/B;S CHANGE /A/B/C;S CHANGE;S CHANGE A;S REPLACE QQ;S TYPE;W => \
get A B 0;end 0;end 0;end 24;end 24;end 24;end 24;end 24;end 0;say QQ;end 0
E A B;F A;S SAVE;C 36;S SAVE;W => get A B 0;end 0;put A B 0 A;end 36;put A B 0 A;end 0
E A B;F ONE;E;L NEXT;L TYPE;W;L JUNK;W;L SAVE;C 100;W;L SAVE;W;L END => \
get A B 0;end 0;ask;ask;say ONE;ask;say ?EDIT: JUNK;ask;put A B 0 ONE;say ?EDIT: SAVE;ask;put A B 0 ONE;ask;end 0
E A B;F ONE;E;L;E;L END X;W;L TOP => get A B 0;end 0;ask;end 0;ask;say ?EDIT: END X;ask;ask
E A B;F ONE;E;L {X*255};W => get A B 0;end 0;ask;say ?EDIT: {X*248};ask
E A B;C 28;S SAVE;S INPUT X;S SAVE;W => get A B 0;end 28;end 24;end 0;put A B 0 X;end 0
E A B;C 36;S TOP;E => get A B 0;end 36;end 24;end 24
E;S TOP;E A;E A B C1;E A B C D;E A B (;E ABCDEFGHI B => end 24;end 24;end 24;end 24;end 24;end 24;end 24
E A B;F X;E A;S TYPE 2;W;E C D;F Y;S TYPE 2;W => \
get A B 0;end 0;end 24;say X;end 0;get C D 0;end 0;say Y;end 0
E A B;F A,B;S NEXT 0001;S NEXT 1 2;S NEXT X;S NEXT 1234567890;S UP 999999999;S TOPP;S TOP 1;S next;S TYPE;W => \
get A B 0;end 0;end 0;end 24;end 24;end 24;end 0;end 24;end 24;end 0;say A;end 0
W;F A;L X;C 28 => end 24;end 24;end 24;end 24";

// A text as a line, which may not be too long.
fn line_of<R: Abort>(rt: &R, alloc: Global, text: &str) -> Line {
    let bytes = ebcdic(alloc, text).expect(rt, "memory");
    assert!(rt; bytes.len() <= LONGEST_TEXT, "a line is too long");
    Line::take(bytes)
}

// A line of EDIT.
fn edit_line<R: Abort>(rt: &R, alloc: Global, text: &str) -> Line {
    let line = format!(in alloc; "EDIT {text}").expect(rt, "memory");
    line_of(rt, alloc, line.as_str())
}

// Records, with a comma behind each but the last.
fn records_of<R: Abort>(rt: &R, alloc: Global, text: &str) -> Records {
    let mut records = Records::new(alloc);
    for part in text.split(",") {
        let bytes = ebcdic(alloc, part).expect(rt, "memory");
        if (1..=1000).contains(&bytes.len()) {
            records.push(Record::take(bytes)).expect(rt, "memory");
        }
    }
    records
}

// What it is told.
fn reply_of<R: Abort>(rt: &R, alloc: Global, step: &str) -> ExtReply {
    let text = step.split_once(" ").map_or("", |parts| parts.1);
    match step.as_bytes().first() {
        Some(b'E') => ExtReply::Start(edit_line(rt, alloc, text)),
        Some(b'S') => ExtReply::Sub(line_of(rt, alloc, text)),
        Some(b'L') => ExtReply::Got(line_of(rt, alloc, text)),
        Some(b'F') => ExtReply::File(records_of(rt, alloc, text)),
        Some(b'C') => ExtReply::Refused(text.parse().unwrap_or(0)),
        _ => ExtReply::Went,
    }
}

// Adds lines, with a text before the first and commas between.
fn push_lines(into: &mut Report, first: &str, lines: &Lines) {
    let mut before = first;
    for line in lines.as_slice() {
        into.push_str(before);
        into.ascii(line.bytes());
        before = ",";
    }
}

// Adds records, with a text before the first and commas between.
fn push_records(into: &mut Report, first: &str, records: &Records) {
    let mut before = first;
    for record in records.as_slice() {
        into.push_str(before);
        into.ascii(record.bytes());
        before = ",";
    }
}

// Adds what is done with a file, its name, and the number of its letter.
fn push_file(into: &mut Report, what: &str, name: &Name, letter: u8) {
    let (file, kind) = (Ascii(name.file.as_bytes()), Ascii(name.kind.as_bytes()));
    write!(into, "{what} {file} {kind} {}", letter % 10)
}

// Adds what it wants.
fn push_want(into: &mut Report, want: &ExtWant) {
    match want {
        ExtWant::Say(lines) => push_lines(into, "say ", lines),
        ExtWant::Ask => into.push_str("ask"),
        ExtWant::Get(name, letter) => push_file(into, "get", name, *letter),
        ExtWant::Put(name, letter, records) => {
            push_file(into, "put", name, *letter);
            push_records(into, " ", records)
        }
        ExtWant::Done(code) => write!(into, "end {code}"),
    }
}

// Adds what it wants behind what it is told, and a semicolon before it where something stands there.
fn push_step<R: Abort>(into: &mut Report, rt: &R, alloc: Global, editor: &mut Editor, step: &str) {
    let reply = reply_of(rt, alloc, step);
    let want = editor.turn(alloc, &reply).expect(rt, "memory");
    if !into.text().is_empty() {
        into.push(';');
    }
    push_want(into, &want)
}

/// Tells what a case comes to.
pub fn tell<R: Abort>(into: &mut Report, rt: &R, alloc: Global, case: &str) {
    let mut editor = Editor::new(alloc);
    for step in case.split(";") {
        push_step(into, rt, alloc, &mut editor, step);
    }
}
