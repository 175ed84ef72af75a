// Labels, entries, dates and moments with their answers, worked out by hand from the format's tables and the calendar.
use crate::texts::{bytes, file_name, number_at};
use cms_cases::{Report, number, word};
use cms_fields::{
    Entry, Label, Moment, Stamp, read_entry, read_label, read_stamp, write_entry, write_label,
    write_stamp,
};
use cms_journal::BlockSize;
use cms_names::Format;
use std::alloc::Global;
use std::process::Abort;

/// `moment/SECONDS/OFFSET`: the moment. `stamp/YEAR`: of the stamp of 23:58:59 on November 30 of the year, the digits of the year and
/// the flags that are written, and whether the date's other bytes are. `date/BYTES/FLAGS`: the year of the stamp that is read from them. An edit PLACE=BYTES puts other bytes from a place on.
/// `entry/EDIT/EDIT..`: whether HELLO with the edits is read as the entry that HELLO is, or the first test that it fails.
/// `entry is written`: whether that entry's bytes are HELLO.
/// `label/SIZE/BLOCKS/EDIT/EDIT..`: what TEST01 with the edits is on a unit with blocks of this size and so many.
/// `label is written/EDIT/EDIT..`: whether a label that is written over TEST01 is TEST01 with the edits.
pub const ROWS: &str = "\
moment/0/0 => (1970, 1, 1, 0, 0, 0)
moment/68169600/0 => (1972, 2, 29, 0, 0, 0)
moment/951782399/0 => (2000, 2, 28, 23, 59, 59)
moment/951782400/0 => (2000, 2, 29, 0, 0, 0)
moment/951868800/0 => (2000, 3, 1, 0, 0, 0)
moment/946684800/-3600 => (1999, 12, 31, 23, 0, 0)
moment/946684799/3600 => (2000, 1, 1, 0, 59, 59)
moment/2147483647/0 => (2038, 1, 19, 3, 14, 7)
moment/2524607999/0 => (2049, 12, 31, 23, 59, 59)
moment/2524608000/0 => (2050, 1, 1, 0, 0, 0)
moment/2570422028/0 => (2051, 6, 15, 6, 7, 8)
moment/3097785599/0 => (2068, 2, 29, 23, 59, 59)
moment/3224016001/0 => (2072, 3, 1, 0, 0, 1)
moment/3981357296/0 => (2096, 2, 29, 12, 34, 56)
moment/-1/54000 => (1970, 1, 1, 14, 59, 59)
moment/-1/0 => (1970, 1, 1, 0, 0, 0)
moment/53999/-54000 => (1970, 1, 1, 0, 0, 0)
moment/-9223372036854775808/-54000 => (1970, 1, 1, 0, 0, 0)
moment/4102444799/0 => (2099, 12, 31, 23, 59, 59)
moment/4102444800/0 => (2099, 12, 31, 23, 59, 59)
moment/4102448399/-3600 => (2099, 12, 31, 23, 59, 59)
moment/9223372036854775807/54000 => (2099, 12, 31, 23, 59, 59)
stamp/1970 => (70, 0, true)
stamp/1999 => (99, 0, true)
stamp/2000 => (0, 8, true)
stamp/2026 => (26, 8, true)
stamp/2050 => (50, 8, true)
stamp/2072 => (72, 8, true)
stamp/2099 => (99, 8, true)
date/00 02 29 00 00 00/0 => 1900
date/00 02 29 00 00 00/8 => 2000
date/99 12 31 23 59 59/247 => 1999
date/99 12 31 23 59 59/255 => 2099
date/01 02 29 00 00 00/8 => none
date/00 0A 01 00 00 00/8 => none
entry => true
entry/54=00 02 29 00 00 00 => false
entry/54=04 02 29 00 00 00 => false
entry/54=99 12 31 23 59 59 => false
entry/54=01 02 29 00 00 00 => Date
entry/54=98 02 29 00 00 00 => Date
entry/54=00 02 30 00 00 00 => Date
entry/54=00 04 30 00 00 00 => false
entry/54=00 04 31 00 00 00 => Date
entry/54=00 12 32 00 00 00 => Date
entry/54=00 13 01 00 00 00 => Date
entry/54=00 00 01 00 00 00 => Date
entry/54=00 01 00 00 00 00 => Date
entry/54=00 01 01 24 00 00 => Date
entry/54=00 01 01 23 60 00 => Date
entry/54=00 01 01 23 59 60 => Date
entry/54=A0 01 01 00 00 00 => Date
entry/54=0A 01 01 00 00 00 => Date
entry/54=00 0A 01 00 00 00 => Date
entry/54=00 01 01 00 00 0F => Date
entry/0=00 => Name
entry/0=40 => Name
entry/1=40 => Name
entry/15=5C => Name
entry/25=F7 => Mode
entry/25=C1 => Mode
entry/30=40 => Format
entry/35=00 => Length
entry/33=01 => Length
entry/51=00 => Counts
entry/47=02 => Counts
entry/30=E5/47=00 => Counts
entry/52=01 => Levels
entry/30=E5/47=02 => Levels
entry/30=E5/47=02/52=01 => PointerSize
entry/55=13 => Date
entry/55=13/52=01/51=00 => Counts
entry/16=01/24=00/31=FF/39=FF/63=FF => true
entry/31=F7 => false
entry/53=63 => true
entry/30=E5/35=00 => false
entry/30=E5/47=02/52=01/53=0C => false
entry/34=00/50=01/49=00/47=03/51=2C/52=01 => false
entry is written => true
label/512/9 => Ok(Label { volid: [227, 197, 226, 227, 240, 241], bsize: 512, origin: 4, blocks: 9, in_use: 7 })
label/512/1048576 => Ok(Label { volid: [227, 197, 226, 227, 240, 241], bsize: 512, origin: 4, blocks: 9, in_use: 7 })
label/512/8 => Err(Count)
label/1024/9 => Err(BlockSize)
label/512/9/0=00 => Err(Id)
label/512/9/14=04 => Err(BlockSize)
label/512/9/19=06 => Err(Origin)
label/512/9/19=03 => Err(Origin)
label/512/9/31=0A => Err(Count)
label/512/9/31=05 => Err(Count)
label/512/9/39=20 => Err(EntrySize)
label/512/9/39=20/31=0A/19=06 => Err(Origin)
label is written/4=D5 C5 E6 F0 F0 F2/19=05/32=01 02 03 04 => true
label/512/9/4=D5 C5 E6 F0 F0 F2/19=05/32=01 02 03 04 => \
Ok(Label { volid: [213, 197, 230, 240, 240, 242], bsize: 512, origin: 5, blocks: 9, in_use: 16909060 })";

// The entry of HELLO TEXT A1: two F records of 5 bytes in block 7, written 2000-01-01 00:00:00.
const HELLO: &str = "\
C8 C5 D3 D3 D6 40 40 40 E3 C5 E7 E3 40 40 40 40 00 00 00 00 00 00 00 00 C1 F1 00 00 00 00 C6 08 \
00 00 00 05 00 00 00 00 00 00 00 07 00 00 00 01 00 00 00 02 00 04 00 01 01 00 00 00 00 00 00 00";

// The first bytes of the label of TEST01: 9 blocks of 512 bytes, 7 in use, directory in block 4.
const TEST01: &str = "\
C3 D4 E2 F1 E3 C5 E2 E3 F0 F1 00 00 00 00 02 00 00 00 00 04 00 00 00 09 00 00 00 09 00 00 00 09 \
00 00 00 07 00 00 00 40 00 00 00 08 00 01 01 00 00 00 00 00 00 00 00 00 00 00 00 00 00 00 00 00 \
00 00 00 00 00 00 00 00 00 00 00 00 00 00 00 00";

// The entry that HELLO is.
fn hello<R: Abort>(rt: &R) -> Entry {
    Entry {
        name: file_name(
            rt,
            &[0xC8, 0xC5, 0xD3, 0xD3, 0xD6],
            &[0xE3, 0xC5, 0xE7, 0xE3],
        ),
        number: 1,
        format: Format::F,
        length: 5,
        root: 7,
        blocks: 1,
        count: 2,
        levels: 0,
        stamp: Stamp {
            year: 2000,
            month: 1,
            day: 1,
            hour: 0,
            minute: 0,
            second: 0,
        },
    }
}

// Puts other bytes from a place on.
fn put(into: &mut [u8], at: usize, others: &[u8]) {
    let mut place = at;
    for other in others {
        if place < into.len() {
            into[place] = *other;
        }
        place = place.saturating_add(1);
    }
}

// Makes an edit: a place, and the bytes from there on.
fn edit<R: Abort>(into: &mut [u8], rt: &R, alloc: Global, edit: &str) {
    let (place, others) = edit.split_once("=").unwrap_or(("", ""));
    put(into, number(place) as usize, &bytes(rt, alloc, others))
}

// The bytes that a text says, with the edits of a case.
fn edited<R: Abort>(rt: &R, alloc: Global, text: &str, case: &str) -> Vec<u8> {
    let mut bytes = bytes(rt, alloc, text);
    for word in case.split('/') {
        edit(&mut bytes, rt, alloc, word);
    }
    bytes
}

// The moment of a second, with an offset that there may be.
fn tell_moment(into: &mut Report, seconds: i64, offset: i32) {
    let moment = Moment::of_epoch(seconds, offset.clamp(-54_000, 54_000));
    into.value(&(
        moment.year,
        moment.month,
        moment.day,
        moment.hour,
        moment.minute,
        moment.second,
    ))
}

fn tell_moment_of(into: &mut Report, seconds: &str, offset: &str) {
    let Ok(seconds) = seconds.parse() else {
        return into.push_str("no seconds");
    };
    let Ok(offset) = offset.parse() else {
        return into.push_str("no offset");
    };
    tell_moment(into, seconds, offset)
}

fn tell_stamp(into: &mut Report, year: u32) {
    let stamp = Stamp::of(&Moment {
        year: u16::try_from(year).unwrap_or(0),
        month: 11,
        day: 30,
        hour: 23,
        minute: 58,
        second: 59,
    });
    let mut date = [0xFF; 6];
    let mut flags = 0xFF;
    if stamp.is_valid() {
        flags = write_stamp(&stamp, &mut date);
    }
    into.value(&(
        date[0] / 16 * 10 + date[0] % 16,
        flags,
        date[1..] == [0x11, 0x30, 0x23, 0x58, 0x59],
    ))
}

// The year of the stamp that a date and its flags spell.
fn tell_date(into: &mut Report, bytes: &[u8], flags: &str) {
    if bytes.len() != 6 {
        return into.push_str("other than six bytes");
    }
    match read_stamp(bytes, flags.parse().unwrap_or(0)) {
        Some(stamp) => into.value(&stamp.year),
        None => into.push_str("none"),
    }
}

// Whether bytes are read as the entry that HELLO is.
fn tell_entry<R: Abort>(into: &mut Report, rt: &R, bytes: &[u8]) {
    if bytes.len() < 64 {
        return into.push_str("short");
    }
    match read_entry(bytes, BlockSize::new(512)) {
        Ok(entry) => into.value(&(entry == hello(rt))),
        Err(fault) => into.value(&fault),
    }
}

// Whether that entry is written as these bytes.
fn tell_written_entry<R: Abort>(into: &mut Report, rt: &R, wanted: &[u8]) {
    let entry = hello(rt);
    let mut bytes = [0xFF; 64];
    if entry.number <= 6 && entry.stamp.is_valid() {
        write_entry(&entry, &mut bytes);
    }
    into.value(&(wanted == bytes.as_slice()))
}

fn tell_label(into: &mut Report, bytes: &[u8], case: &str) {
    match BlockSize::of(number_at(case, 1)) {
        Some(bsize) if bytes.len() >= 80 => {
            into.value(&read_label(bytes, bsize, number_at(case, 2)))
        }
        _ => into.push_str("short"),
    }
}

// Whether a label that is written over these bytes makes them the wanted ones.
fn tell_written_label(into: &mut Report, bytes: &mut [u8], wanted: &[u8]) {
    let label = Label {
        volid: [0xD5, 0xC5, 0xE6, 0xF0, 0xF0, 0xF2],
        bsize: 512,
        origin: 5,
        blocks: 9,
        in_use: 0x0102_0304,
    };
    if bytes.len() >= 80 {
        write_label(&label, bytes);
    }
    into.value(&(&*bytes == wanted))
}

// Tells what is read and written in bytes.
fn tell_kept<R: Abort>(into: &mut Report, rt: &R, alloc: Global, kind: &str, case: &str) {
    match kind {
        "entry" => tell_entry(into, rt, &edited(rt, alloc, HELLO, case)),
        "entry is written" => tell_written_entry(into, rt, &bytes(rt, alloc, HELLO)),
        "label" => tell_label(into, &edited(rt, alloc, TEST01, case), case),
        _ => tell_written_label(
            into,
            &mut bytes(rt, alloc, TEST01),
            &edited(rt, alloc, TEST01, case),
        ),
    }
}

/// Tells what a case comes to.
pub fn tell<R: Abort>(into: &mut Report, rt: &R, alloc: Global, case: &str) {
    match word(case, 0) {
        "moment" => tell_moment_of(into, word(case, 1), word(case, 2)),
        "stamp" => tell_stamp(into, number_at(case, 1)),
        "date" => tell_date(into, &bytes(rt, alloc, word(case, 1)), word(case, 2)),
        kind => tell_kept(into, rt, alloc, kind, case),
    }
}
