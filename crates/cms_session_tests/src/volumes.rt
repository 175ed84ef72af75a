// The images of transcripts, by their names.
use cms_images::hello::{ERASE_EXEC, HELLO, LONG, MARKED, NO_LABEL, TYPE_EXEC, three};
use cms_images::{
    Edit, SmallFile, edited, image_named, many_files, put_edits, small_volume, wide_volume,
};
use cms_world::MemWorld;
use std::alloc::{AllocError, Global};
use std::process::Abort;

const TEXTS: &[SmallFile] = &[
    SmallFile {
        name: "ALPHA",
        kind: "TEXT",
        number: 1,
        fixed: true,
        records: &["HELLO", "WORLD"],
    },
    SmallFile {
        name: "BETA",
        kind: "DATA",
        number: 2,
        fixed: false,
        records: &["A", "BC", "DEF", "GHIJ"],
    },
    SmallFile {
        name: "ALSO",
        kind: "TEXT",
        number: 0,
        fixed: false,
        records: &["X"],
    },
];

const FIRST: &[SmallFile] = &[
    SmallFile {
        name: "AB",
        kind: "FILE",
        number: 1,
        fixed: false,
        records: &["FIRST"],
    },
    SmallFile {
        name: "AC",
        kind: "FILE",
        number: 1,
        fixed: false,
        records: &["OTHER"],
    },
    SmallFile {
        name: "AD",
        kind: "FILE",
        number: 1,
        fixed: false,
        records: &["THIRD"],
    },
    SmallFile {
        name: "BX",
        kind: "FILE",
        number: 1,
        fixed: false,
        records: &["AGAIN"],
    },
];

const SECOND: &[SmallFile] = &[
    SmallFile {
        name: "A",
        kind: "FILE",
        number: 1,
        fixed: false,
        records: &["FIRST"],
    },
    SmallFile {
        name: "AZ",
        kind: "FORM",
        number: 1,
        fixed: false,
        records: &["OTHER"],
    },
];

const HIDDEN: &[SmallFile] = &[
    SmallFile {
        name: "P",
        kind: "PRIV",
        number: 0,
        fixed: false,
        records: &["X"],
    },
    SmallFile {
        name: "Q",
        kind: "OPEN",
        number: 1,
        fixed: false,
        records: &["Y"],
    },
];

// Files whose records are commands that ask for the records behind them.
const CARDS: &[SmallFile] = &[
    SmallFile {
        name: "JOB",
        kind: "TEXT",
        number: 1,
        fixed: false,
        records: &["EXECIO 2 DISKW OUT FILE A", "  LEADING", "TRAILING  "],
    },
    SmallFile {
        name: "BLANKS",
        kind: "TEXT",
        number: 1,
        fixed: false,
        records: &["EXECIO 2 DISKW GAP FILE A", "   ", "X"],
    },
    SmallFile {
        name: "BACK",
        kind: "TEXT",
        number: 1,
        fixed: false,
        records: &["SECOND", "FIRST", "EXECIO 2 DISKW TURN FILE A"],
    },
    SmallFile {
        name: "FIXED",
        kind: "DATA",
        number: 1,
        fixed: true,
        records: &["ONE    ", "TWO    ", "       "],
    },
];

// Files of mode number 3, and one of number 4.
const ONCE: &[SmallFile] = &[
    SmallFile {
        name: "P",
        kind: "FILE",
        number: 3,
        fixed: false,
        records: &["X", "Y"],
    },
    SmallFile {
        name: "W",
        kind: "FILE",
        number: 3,
        fixed: true,
        records: &["ONE  ", "TWO  ", "THREE"],
    },
    SmallFile {
        name: "K",
        kind: "FILE",
        number: 4,
        fixed: false,
        records: &["X"],
    },
];

const LETTERS: &[SmallFile] = &[SmallFile {
    name: "L",
    kind: "FILE",
    number: 1,
    fixed: false,
    records: &["AB ", "CDEF", "G"],
}];

const FOUR: &[SmallFile] = &[
    SmallFile {
        name: "F1",
        kind: "D",
        number: 1,
        fixed: false,
        records: &["HELLO"],
    },
    SmallFile {
        name: "F2",
        kind: "D",
        number: 1,
        fixed: false,
        records: &["HELLO"],
    },
    SmallFile {
        name: "F3",
        kind: "D",
        number: 1,
        fixed: false,
        records: &["HELLO"],
    },
    SmallFile {
        name: "F4",
        kind: "D",
        number: 1,
        fixed: false,
        records: &["HELLO"],
    },
];

const FIVE: &[SmallFile] = &[
    SmallFile {
        name: "A",
        kind: "FILE",
        number: 1,
        fixed: false,
        records: &["HELLO"],
    },
    SmallFile {
        name: "B",
        kind: "FILE",
        number: 1,
        fixed: false,
        records: &["HELLO"],
    },
    SmallFile {
        name: "C",
        kind: "FILE",
        number: 1,
        fixed: false,
        records: &["HELLO"],
    },
    SmallFile {
        name: "D",
        kind: "FILE",
        number: 1,
        fixed: false,
        records: &["HELLO"],
    },
    SmallFile {
        name: "E",
        kind: "FILE",
        number: 1,
        fixed: false,
        records: &["HELLO"],
    },
];

// HELLO TEXT has mode number 0.
const HIDDEN_HELLO: &[Edit] = &[(4, 152, &[0xC1, 0xF0])];

// Its records are told by their lengths, which they haven't: it is no volume.
const VARYING: &[Edit] = &[(4, 158, &[0xE5])];

// X Y in its place, with the record ON2.
const ON_SECOND: &[Edit] = &[
    (4, 128, &[0xE7, 0x40, 0x40, 0x40, 0x40, 0x40, 0x40, 0x40]),
    (4, 136, &[0xE8, 0x40, 0x40, 0x40, 0x40, 0x40, 0x40, 0x40]),
    (4, 160, &[0, 0, 0, 3]),
    (4, 176, &[0, 0, 0, 1]),
    (7, 0, &[0xD6, 0xD5, 0xF2]),
];

// And with the record ON3.
const ON_THIRD: &[Edit] = &[
    (4, 128, &[0xE7, 0x40, 0x40, 0x40, 0x40, 0x40, 0x40, 0x40]),
    (4, 136, &[0xE8, 0x40, 0x40, 0x40, 0x40, 0x40, 0x40, 0x40]),
    (4, 160, &[0, 0, 0, 3]),
    (4, 176, &[0, 0, 0, 1]),
    (7, 0, &[0xD6, 0xD5, 0xF3]),
];

// The root block of B FILE is that of A FILE.
const ONE_ROOT: &[Edit] = &[(4, 232, &[0, 0, 0, 7])];

// No entry of the directory of one file has the flag of the years from 2000 on, as in an older volume.
const LAST_CENTURY: &[Edit] = &[(5, 31, &[0]), (5, 95, &[0]), (5, 159, &[0])];

// Its file is of 29 February 1900.
const LEAP_DAY: &[Edit] = &[
    (5, 159, &[0]),
    (5, 182, &[0x00, 0x02, 0x29, 0x23, 0x59, 0x59]),
];

// Of five files of the last second of 1999 four are of other times: 1900, 1969, 1970, and 29 February 1900.
const DATED: &[Edit] = &[
    (4, 182, &[0x00, 0x01, 0x01, 0x00, 0x00, 0x00]),
    (4, 246, &[0x69, 0x07, 0x20, 0x20, 0x17, 0x40]),
    (4, 310, &[0x70, 0x01, 0x01, 0x00, 0x00, 0x00]),
    (4, 438, &[0x00, 0x02, 0x29, 0x23, 0x59, 0x59]),
];

// Neither has an entry of the long directory, in its two blocks.
const BEFORE_2000: &[Edit] = &[
    (4, 31, &[0]),
    (4, 95, &[0]),
    (4, 159, &[0]),
    (4, 223, &[0]),
    (4, 287, &[0]),
    (4, 351, &[0]),
    (4, 415, &[0]),
    (4, 479, &[0]),
    (8, 31, &[0]),
];

// Block 9 is marked, and no file has it.
const LAST_MARKED: &[Edit] = &[(6, 1, &[0x80])];

// The first record of V FILE is of stars up to its last byte.
const STARS: &[Edit] = &[(7, 2, &[0x5C; 508])];

// Of its bytes the five behind the 250th are blanks.
const STARS_AND_BLANKS: &[Edit] = &[(7, 2, &[0x5C; 508]), (7, 252, &[0x40; 5])];

// No block of a small volume is free.
const NONE_FREE: &[Edit] = &[(6, 0, &[0xFF; 3])];

// All blocks but the last five, or the last six, are marked.
const FOUR_FREE: &[Edit] = &[(6, 0, &[0xFF; 512]), (7, 0, &[0xF0])];

const FIVE_FREE: &[Edit] = &[(6, 0, &[0xFF; 512]), (7, 0, &[0xE0])];

// What is changed in an image, by its name.
fn changes(name: &str) -> &'static [Edit] {
    match name {
        "no label" => NO_LABEL,
        "all marked" => MARKED,
        "last century" => LAST_CENTURY,
        "leap day" => LEAP_DAY,
        "dated" => DATED,
        "before 2000" => BEFORE_2000,
        "last marked" => LAST_MARKED,
        "hidden" => HIDDEN_HELLO,
        "varying" => VARYING,
        "TYPE EXEC" => TYPE_EXEC,
        "ERASE EXEC" => ERASE_EXEC,
        "on second" => ON_SECOND,
        "on third" => ON_THIRD,
        "one root" => ONE_ROOT,
        "stars" => STARS,
        "stars and blanks" => STARS_AND_BLANKS,
        "none free" => NONE_FREE,
        "four free" => FOUR_FREE,
        "five free" => FIVE_FREE,
        _ => &[],
    }
}

// The files of a small volume, by its name.
fn files(name: &str) -> &'static [SmallFile] {
    match name {
        "rows" => FIRST,
        "second" => SECOND,
        "hidden" => HIDDEN,
        "cards" => CARDS,
        "once" => ONCE,
        "letters" => LETTERS,
        "four files" => FOUR,
        "five files" => FIVE,
        "texts" => TEXTS,
        _ => &[],
    }
}

// An image before it is changed.
fn original(alloc: Global, name: &str) -> Result<Vec<u8>, AllocError> {
    match name {
        "empty"
        | "one file"
        | "two files"
        | "full"
        | "spanning"
        | "long directory"
        | "long directory on 20"
        | "hello" => image_named(alloc, name),
        "three hellos" => three(alloc),
        "long records" => edited(alloc, 20, &[HELLO, LONG]),
        "wide" => wide_volume(alloc),
        "many of 512" => many_files(alloc, 512, 4096, 6),
        "many of 1024" => many_files(alloc, 1024, 8192, 14),
        "many of 2048" => many_files(alloc, 2048, 38, 30),
        "many of 4096" => many_files(alloc, 4096, 70, 62),
        _ => small_volume(alloc, "TEST01", files(name)),
    }
}

/// An image by its name, behind which stands behind a comma what is changed in it, or that it is cut off behind its eighth block.
pub fn image(alloc: Global, name: &str) -> Result<Vec<u8>, AllocError> {
    let (name, changed) = name.split_once(", ").unwrap_or((name, ""));
    let mut image = original(alloc, name)?;
    put_edits(image.as_mut_slice(), changes(changed));
    if changed == "cut" {
        image.truncate(8 * 512);
    }
    Ok(image)
}

// Adds an image of a name to those of a world.
fn add_image<R: Abort>(world: &mut MemWorld, rt: &R, alloc: Global, letter: &str, name: &str) {
    let image = image(alloc, name).expect(rt, "memory");
    world.add_image(letter, &image).expect(rt, "memory")
}

// Adds the images A, B and C.
fn add_images<R: Abort>(world: &mut MemWorld, rt: &R, alloc: Global, names: &str) {
    let (first, others) = names.split_once(" + ").unwrap_or((names, "second"));
    let (second, third) = others.split_once(" + ").unwrap_or((others, "one file"));
    add_image(world, rt, alloc, "A", first);
    add_image(world, rt, alloc, "B", second);
    add_image(world, rt, alloc, "C", third)
}

/// A world with the images A, B and C, whose names stand between plus signs; they are a volume without files where a name is none that is
/// known here, and where names are left out a second volume and one with A FILE. It has none where the name begins with `new`.
pub fn world_at<R: Abort>(
    rt: &R,
    alloc: Global,
    names: &str,
    script: &str,
    start: i64,
) -> MemWorld {
    let mut world = MemWorld::new(alloc, script.as_bytes(), start).expect(rt, "memory");
    if !names.starts_with("new") {
        add_images(&mut world, rt, alloc, names);
    }
    world
}

/// The first second of the year 2000, behind 1970-01-01 00:00:00.
pub const YEAR_2000: i64 = 946_684_800;

/// The same; the clock says that second.
pub fn world_named<R: Abort>(rt: &R, alloc: Global, names: &str, script: &str) -> MemWorld {
    world_at(rt, alloc, names, script, YEAR_2000)
}

/// The words of the program by which the first two of these images are units that may be written.
pub const WORDS: &str = "191,512,rw,A 192,512,rw,B";
