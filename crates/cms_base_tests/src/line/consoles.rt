// Scripts and their lines.
use crate::plain_world::{PlainWorld, in_pieces};
use crate::texts::{are_all, blank_number, blank_word};
use cms_cases::{Report, number};
use cms_line::{Console, ConsoleLine, LineFault};
use std::alloc::Global;
use std::process::Abort;

/// A script, in which `;` is a line feed, `<` a carriage return, `>` a tab, `^` a bell and `~` a deletion, and before which `N*` is so many
/// times `A`, and its lines, of which those of more than 99 times `A` alone are told so too.
pub const LINES: &str = " => ,,,
A<;B; => A;B;,,,
A< => ?;,,,
A<<; => ?;,,,
A<B; => ?;,,,
a<;<; => a;;,,,
~;B; => ?;B;,,,
A>B; => A B;,,,
A^;B; => ?;B;,,,
LISTFILE => LISTFILE;,,,
;;A; => ;;A;,,,
<; ; => ; ;,,,
253*; => 253*;,,,
254*; => 254*;,,,
255*; => 255*;,,,
255*<; => 255*;,,,
255* => 255*;,,,
255*< => +;-;,,,
256*; => +;-;,,,
256*<;B; => +;-;B;,,,
510*; => +;-;,,,
511*; => +;-;-;,,,
600*; => +;-;-;,,,
600*<;B => +;-;-;B;,,,
600*^;B; => +;-;-;B;,,,";

/// Whether a script is given in place of the world's, and the call of the world that fails: the lines, the calls of the world, and those
/// that read past the end.
pub const READS: &str = "world 0 => A;B;,,,2,1
given 0 => A;B;,,,0,0
world 1 => !;A;B;,,,3,1
world 2 => A;!;B;,,,3,1
world 3 => A;B;,,,2,1";

// Adds a line's text.
fn push_text(into: &mut Report, line: &[u8]) {
    if line.len() > 99 && are_all(line, 0xC1) {
        into.value(&line.len());
        return into.push('*');
    }
    into.ascii(line)
}

// What stands behind a line's text, or in its place: `?` where it is bad, `+` where it is long, `-` for a further piece, `!` where the
// world failed, and a comma at the end. Where memory was refused it is asked once more.
fn sign(line: &Result<ConsoleLine, LineFault>) -> &'static str {
    match line {
        Ok(ConsoleLine::Text(_)) => ";",
        Ok(ConsoleLine::Bad) => "?;",
        Ok(ConsoleLine::Long) => "+;",
        Ok(ConsoleLine::Rest) => "-;",
        Ok(ConsoleLine::End) => ",",
        Err(LineFault::World) => "!;",
        Err(LineFault::Memory) => "",
    }
}

// Adds a line and what stands behind it, or in its place.
fn push_line(into: &mut Report, line: &Result<ConsoleLine, LineFault>) {
    if let Ok(ConsoleLine::Text(text)) = line {
        push_text(into, text.bytes());
    }
    into.push_str(sign(line))
}

// Adds the lines of a console. The end is asked for thrice.
fn push_all(into: &mut Report, console: &mut Console, world: &mut PlainWorld<'_>) {
    for _ in 0..1000 {
        push_line(into, &console.next(world));
        if into.text().ends_with(",,,") {
            break;
        }
    }
}

// Adds the lines of a script that is given, or else of the world's.
fn push_script<R: Abort>(
    into: &mut Report,
    rt: &R,
    alloc: Global,
    given: Option<Vec<u8>>,
    world: &mut PlainWorld<'_>,
) {
    let mut console = Console::new(alloc, given).expect(rt, "memory");
    push_all(into, &mut console, world)
}

// What a character of a case stands for.
fn character(byte: u8) -> u8 {
    match byte {
        b';' => b'\n',
        b'<' => b'\r',
        b'>' => b'\t',
        b'^' => 0x07,
        b'~' => 0x7F,
        _ => byte,
    }
}

// A script of so many letters and these characters, each as what it stands for.
fn script_of<R: Abort>(rt: &R, alloc: Global, count: usize, ending: &str) -> Vec<u8> {
    let mut script = vec![in alloc; b'A'; count].expect(rt, "memory");
    for byte in ending.as_bytes() {
        script.push(character(*byte)).expect(rt, "memory");
    }
    script
}

/// Adds the lines of a script that is read in pieces of one size.
pub fn push_lines<R: Abort>(into: &mut Report, rt: &R, alloc: Global, size: usize, case: &str) {
    let (count, ending) = case.split_once('*').unwrap_or(("", case));
    let script = script_of(rt, alloc, number(count) as usize, ending);
    push_script(
        into,
        rt,
        alloc,
        None,
        &mut in_pieces(alloc, &script, size, 0),
    )
}

// The script that is given in place of the world's, if one is.
fn given<R: Abort>(rt: &R, alloc: Global, is_given: bool) -> Option<Vec<u8>> {
    if is_given {
        return Some(b"A\r\nB".to_vec(alloc).expect(rt, "memory"));
    }
    None
}

/// Adds what is read of a script up to its end, and further.
pub fn push_reads<R: Abort>(into: &mut Report, rt: &R, alloc: Global, case: &str) {
    let is_given = blank_word(case, 0) == "given";
    let script = if is_given { "C\n" } else { "A\nB" };
    let failing = blank_number(case, 1) as usize;
    let mut world = in_pieces(alloc, script.as_bytes(), 7, failing);
    push_script(into, rt, alloc, given(rt, alloc, is_given), &mut world);
    into.value(&world.calls);
    into.push(',');
    into.value(&world.reads_past_end)
}
