// Scripts of known seeds.
use cms_cases::{Report, number, word};
use cms_session::script;
use std::alloc::Global;
use std::process::Abort;

/// Lines of scripts: the seed, and the place of the line, from 0.
pub const ROWS: &str = "\
1/4 => EXECIO 1 DISKW GEN EXEC A (STRING &LOOP 4 127
1/6 => EXECIO 1 DISKW GEN EXEC A (STRING EXECIO 59 DISKW F&I DATA A (STRING RECORD &I OF THE RUN
2/0 => FORMAT 191 A
2/4 => EXECIO 1 DISKW GEN EXEC A (STRING &LOOP 4 52
2/6 => EXECIO 1 DISKW GEN EXEC A (STRING EXECIO 18 DISKW F&I DATA A (STRING RECORD &I OF THE RUN
2/10 => QUERY DISK A
2/11 => 
0/4 => EXECIO 1 DISKW GEN EXEC A (STRING &LOOP 4 50
3/4 => EXECIO 1 DISKW GEN EXEC A (STRING &LOOP 4 130
3/6 => EXECIO 1 DISKW GEN EXEC A (STRING EXECIO 8 DISKW F&I DATA A (STRING RECORD &I OF THE RUN
77/4 => EXECIO 1 DISKW GEN EXEC A (STRING &LOOP 4 74
12345/6 => EXECIO 1 DISKW GEN EXEC A (STRING EXECIO 89 DISKW F&I DATA A (STRING RECORD &I OF THE RUN
1000000007/6 => EXECIO 1 DISKW GEN EXEC A (STRING EXECIO 40 DISKW F&I DATA A (STRING RECORD &I OF THE RUN
2147483647/4 => EXECIO 1 DISKW GEN EXEC A (STRING &LOOP 4 124
2147483647/6 => EXECIO 1 DISKW GEN EXEC A (STRING EXECIO 10 DISKW F&I DATA A (STRING RECORD &I OF THE RUN
2147483647/8 => EXECIO 1 DISKW GEN EXEC A (STRING ERASE F&I DATA A";

fn line(script: &[u8], place: u32) -> &str {
    match str::from_utf8(script) {
        Ok(text) => text.split('\n').nth(place as usize).unwrap_or("none"),
        Err(_) => "no text",
    }
}

/// Tells the line.
pub fn tell<R: Abort>(into: &mut Report, rt: &R, alloc: Global, case: &str) {
    let script = script(alloc, number(word(case, 0))).expect(rt, "memory");
    into.push_str(line(&script, number(word(case, 1))))
}
