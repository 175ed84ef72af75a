// The script of a generated session.
//
// It formats device 191, writes a procedure of six lines, runs it and asks for the disk. Two numbers of it, how often the
// procedure's loop runs and how many records it writes each time, are drawn from a seed.
ghost use Rattle.std.specs.Prelude.{◌≡◌, ◌<◌, ◌^◌, ◌++◌, IfOk, OnOk};
ghost use Rattle.std.specs.Fmt.{decimal};
ghost use Rattle.cms_session.specs.Generator.{next_of, passes_of, records_of, script_of};
ghost use Rattle.cms_session.specs.Pieces.{before_passes, before_records, behind_records};

use std::alloc::{AllocError, Global};

// The state behind this one: a linear congruence modulo 2^31.
fn next(state: u32) -> u32
    ensures next { result ≡ next_of state }
    ensures small { result < 2 ^ 31 }
{
    ((state as u64 * 1_103_515_245 + 12_345) % 2_147_483_648) as u32
}

// How often the loop of the procedure runs: 50 to 200.
fn passes(seed: u32) -> u32
    ensures { result ≡ passes_of seed }
{
    50 + next(seed) / 65_536 % 151
}

// How many records it writes each time: 1 to 100.
fn records(seed: u32) -> u32
    ensures { result ≡ records_of seed }
{
    1 + next(next(seed)) / 65_536 % 100
}

// The script up to the number of passes.
fn before_passes() -> &'static str
    ensures { result.now ≡ before_passes }
{
    "FORMAT 191 A
YES
GEN001
EXECIO 1 DISKW GEN EXEC A (STRING &TRACE OFF
EXECIO 1 DISKW GEN EXEC A (STRING &LOOP 4 "
}

// From there to the number of records.
fn before_records() -> &'static str
    ensures { result.now ≡ before_records }
{
    "
EXECIO 1 DISKW GEN EXEC A (STRING &I = &I + 1
EXECIO 1 DISKW GEN EXEC A (STRING EXECIO "
}

// From there to its end.
fn behind_records() -> &'static str
    ensures { result.now ≡ behind_records }
{
    " DISKW F&I DATA A (STRING RECORD &I OF THE RUN
EXECIO 1 DISKW GEN EXEC A (STRING COPYFILE F&I DATA A = COPY A (RECFM F LRECL 80
EXECIO 1 DISKW GEN EXEC A (STRING ERASE F&I DATA A
EXEC GEN
QUERY DISK A
"
}

// Adds a text at the end.
fn add(script: &mut Vec<u8>, text: &str) -> Result<(), AllocError>
    ensures { OnOk result (script.new.items ≡ script.old.items ++ text.now) }
{
    script.extend_from_slice(text.as_bytes())
}

// Adds a number in decimal digits.
fn add_number(alloc: Global, script: &mut Vec<u8>, number: u32) -> Result<(), AllocError>
    ensures { OnOk result (script.new.items ≡ script.old.items ++ decimal number) }
{
    let digits = number.to_string(alloc)?;
    add(script, digits.as_str())
}

/// The script of the session that is generated from this seed, in ASCII, each line with a line feed.
pub fn script(alloc: Global, seed: u32) -> Result<Vec<u8>, AllocError>
    ensures { IfOk result (λ text. text.items ≡ script_of seed) }
{
    let mut script = Vec::new(alloc);
    add(&mut script, before_passes())?;
    add_number(alloc, &mut script, passes(seed))?;
    add(&mut script, before_records())?;
    add_number(alloc, &mut script, records(seed))?;
    add(&mut script, behind_records())?;
    Ok(script)
}
