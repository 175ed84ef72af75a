// Sessions that erase files of disk A, as transcripts, and what they leave at each moment.
use crate::session::ended;
use crate::transcript::{check_sessions, passed};
use crate::trial::{Trial, check_trials};
use crate::volumes::world_at;
use cms_cases::Report;
use cms_images::hello::{NEW_DIRECTORY, NEW_LABEL, NEW_MAP, hello};
use cms_images::{Edit, image_left, put_edits};
use std::alloc::Global;
use std::process::Abort;
use std::test::Fail;

// Files that are erased, and files that are kept. Of the long directory one block is left, and one of the map. An update of the wide volume
// has just the blocks that it needs.
const SESSIONS: &str = "# hello: 191,512,rw,A
> ERASE HELLO TEXT A
R;
! Done arrrinwwswsoi
# hello, hidden: 191,512,rw,A
> ERASE HELLO TEXT A
R;
! Done arrrinwwswsoi
# hello, TYPE EXEC: 191,512,rw,A
> ERASE TYPE EXEC A
R;
! Done arrrinwwswsoi
# hello: 191,512,rw,A
> ERASE HELLO TEXT A
R;
> TYPE HELLO TEXT A
CMS002E File HELLO TEXT A not found
R(00028);
! Done arrrinwwswsonooi
# hello: 191,512,rw,A
> ERASE HELLO TEXT A
R;
> ERASE HELLO TEXT A
CMS002E File HELLO TEXT A not found
R(00028);
! Done arrrinwwswsonooi
# hello, all marked: 191,512,rw,A
> ERASE HELLO TEXT A
CMS107E Disk A is full, 1 blocks needed, 0 free
R(00100);
! Done arrrinooi
# hello: 191,512,ro,A
> ERASE HELLO TEXT A
CMS037E Disk A is read-only
R(00036);
! Done arrrinooi
# hello: 191,512,ro,A
> ERASE NO TEXT A
CMS037E Disk A is read-only
R(00036);
! Done arrrinooi
# hello: 191,512,rw,A
> ERASE NO TEXT A
CMS002E File NO TEXT A not found
R(00028);
! Done arrrinooi
# hello, no label: 191,512,ro,A
> ERASE HELLO TEXT A
CMS069E Disk A is not accessed
R(00036);
! Done arinooi
# hello: 192,512,rw,A
> ERASE HELLO TEXT A
CMS069E Disk A is not accessed
R(00036);
! Done ainooi
# hello, ERASE EXEC: 191,512,rw,A
> ERASE ERASE EXEC A
CMS086E Procedure ERASE is not run, reason 1
R(10101);
! Done arrrinrooi
# long directory: 191,512,rw,A
> ERASE A FILE A
R;
> TYPE A FILE A
CMS002E File A FILE A not found
R(00028);
> TYPE G FILE A
HELLO
R;
! Done arrrrrrrrrrrrinwwswsonoonrooi
# wide, four free: 191,512,rw,A
> ERASE FILE0020 TEXT A
CMS107E Disk A is full, 5 blocks needed, 4 free
R(00100);
# wide, five free: 191,512,rw,A
> ERASE FILE0020 TEXT A
R;
";

#[test]
fn files_are_erased_and_kept(rt: HostRuntime) -> Result<(), Fail> {
    check_sessions(&rt, rt.alloc(), &[SESSIONS])
}

// 1 July 2026 at noon, in seconds after 1970.
const NOON: i64 = 1_782_907_200;

// What a crash after so many events of a session leaves, or its end, where all that was written is.
fn left<R: Abort>(
    rt: &R,
    alloc: Global,
    words: &str,
    images: &str,
    script: &str,
    start: i64,
    at: usize,
) -> Vec<u8> {
    let mut world = world_at(rt, alloc, images, script, start);
    ended(rt, alloc, words, &mut world);
    let left = image_left(alloc, &world, at.min(world.events()), u64::MAX);
    drop(world);
    left.expect(rt, "memory")
}

// What is written up to moments of an erasure. The events are the line, the turn, two writes, a sync, the label, a sync, the ready line and
// the script's end.
const MOMENTS: [(usize, &[Edit]); 6] = [
    (2, &[]),
    (3, NEW_MAP),
    (4, NEW_DIRECTORY),
    (5, &[]),
    (6, NEW_LABEL),
    (9, &[]),
];

// Adds the first moment that leaves another image; nothing where there is none.
fn push_other_image<R: Abort>(into: &mut Report, rt: &R, alloc: Global) {
    let mut wanted = hello(alloc, &[]).expect(rt, "memory");
    for (at, edits) in MOMENTS {
        put_edits(wanted.as_mut_slice(), edits);
        let (words, script) = ("191,512,rw,A", "ERASE HELLO TEXT A\n");
        if left(rt, alloc, words, "hello", script, NOON, at) != wanted {
            return write!(into, "event {at}");
        }
    }
}

// The first erasure writes the directory to block 5, the second to block 4; each has the second of its turn and its century in
// the entries of the directory and of the map, in the hour of the zone.
const STAMPS: &[(&str, &[Edit])] = &[
    (
        "191,512,rw,A",
        &[
            (5, 31, &[0x08]),
            (5, 95, &[0x08]),
            (4, 31, &[0x08]),
            (4, 95, &[0x08]),
            (5, 54, &[0x26, 0x07, 0x01, 0x12, 0x34, 0x56]),
            (5, 118, &[0x26, 0x07, 0x01, 0x12, 0x34, 0x56]),
            (4, 54, &[0x26, 0x07, 0x01, 0x12, 0x34, 0x58]),
            (4, 118, &[0x26, 0x07, 0x01, 0x12, 0x34, 0x58]),
        ],
    ),
    (
        "-z W0100 191,512,rw,A",
        &[
            (5, 31, &[0x08]),
            (5, 95, &[0x08]),
            (4, 31, &[0x08]),
            (4, 95, &[0x08]),
            (5, 54, &[0x26, 0x07, 0x01, 0x11, 0x34, 0x56]),
            (5, 118, &[0x26, 0x07, 0x01, 0x11, 0x34, 0x56]),
            (4, 54, &[0x26, 0x07, 0x01, 0x11, 0x34, 0x58]),
            (4, 118, &[0x26, 0x07, 0x01, 0x11, 0x34, 0x58]),
        ],
    ),
];

const STAMPED: &str = "ERASE HELLO TEXT A\nTYPE HELL TEXT A\nERASE HELLO LIST A\n";

// Adds the words of the first session that leaves other stamps; nothing where there is none.
fn push_other_stamps<R: Abort>(into: &mut Report, rt: &R, alloc: Global) {
    for (words, stamps) in STAMPS {
        let start = NOON + 34 * 60 + 56;
        let found = left(rt, alloc, words, "three hellos", STAMPED, start, usize::MAX);
        let mut wanted = found.to_vec(alloc).expect(rt, "memory");
        put_edits(wanted.as_mut_slice(), stamps);
        if found != wanted {
            return into.push_str(words);
        }
    }
}

#[test]
fn updates_are_stamped_and_written_in_order(rt: HostRuntime) -> Result<(), Fail> {
    let mut differing = Report::new(rt.alloc());
    push_other_image(&mut differing, &rt, rt.alloc());
    push_other_stamps(&mut differing, &rt, rt.alloc());
    passed(differing.text())
}

// Two of three files are erased.
const TWICE: Trial = Trial {
    images: "three hellos",
    words: "191,512,rw,A",
    transcript: "> ERASE HELLO TEXT A
R;
> TYPE HELL TEXT A
C
R;
> ERASE HELLO LIST A
R;
",
    // the attaching, the opening, the script and the turn; the map, the directory and the label; the file's block; the second update
    calls: b"arrrinwwswsonroonwwswsoi",
    look: [
        "191,512,ro,A",
        "TYPE HELLO TEXT A\nTYPE HELLO LIST A\nTYPE HELL TEXT A\n",
    ],
    states: "# three
HELLO
WORLD
R;
B
R;
C
R;
# without-text
CMS002E File HELLO TEXT A not found
R(00028);
B
R;
C
R;
# without-list
HELLO
WORLD
R;
CMS002E File HELLO LIST A not found
R(00028);
C
R;
# one
CMS002E File HELLO TEXT A not found
R(00028);
CMS002E File HELLO LIST A not found
R(00028);
C
R;
",
    // the labels are written in events 6 and 16
    moments: "# 0 5 three three three three
# 6 6 three without-text three without-text
# 7 15 without-text without-text without-text without-text
# 16 16 without-text one without-text one
# 17 19 one one one one
",
    // a failing update leaves the file before its label is written (10 and 21), and its unit in doubt from there on
    faults: "# 1 1 three three
# 2 4 three three
CMS069E Disk A is not accessed
R(00036);
CMS069E Disk A is not accessed
R(00036);
CMS069E Disk A is not accessed
R(00036);
# 5 6 three three
# 7 9 without-list without-list
CMS105E Device fault on 191
R(00100);
C
R;
R;
# 10 10 three three dropped
CMS105E Device fault on 191
R(00100);
CMS069E Disk A is not accessed
R(00036);
CMS069E Disk A is not accessed
R(00036);
# 10 11 three without-text
CMS105E Device fault on 191
R(00100);
CMS069E Disk A is not accessed
R(00036);
CMS069E Disk A is not accessed
R(00036);
# 12 13 without-text without-text
# 14 14 one one
R;
CMS105E Device fault on 191
R(00100);
R;
# 15 17 without-text without-text
# 18 20 without-text without-text
R;
C
R;
CMS105E Device fault on 191
R(00100);
# 21 21 without-text without-text dropped
R;
C
R;
CMS105E Device fault on 191
R(00100);
# 21 22 without-text one
R;
C
R;
CMS105E Device fault on 191
R(00100);
# 23 24 one one
",
};

// Two of the twenty files of a volume whose directory and map have several blocks are erased.
const WIDE: Trial = Trial {
    images: "wide",
    words: "191,512,rw,A",
    transcript: "> ERASE FILE0001 TEXT A
R;
> TYPE FILE0001 TEXT A
CMS002E File FILE0001 TEXT A not found
R(00028);
> TYPE FILE0020 TEXT A
0020
R;
> ERASE FILE0009 TEXT A
R;
> TYPE FILE0019 TEXT A
0019
R;
",
    // the opening reads the label, three blocks of the directory, two of the map, and a pointer block of each. The first update writes the
    // directory's first and last data block, its pointer block, and the map's first data block and pointer block; the second all of the
    // directory
    calls: b"arrrrrrrrinwwwwwswsonoonroonwwwwwwswsonrooi",
    look: [
        "191,512,ro,A",
        "TYPE FILE0001 TEXT A\nTYPE FILE0009 TEXT A\nTYPE FILE0018 TEXT A\n",
    ],
    states: "# all
0001
R;
0009
R;
0018
R;
# without-first
CMS002E File FILE0001 TEXT A not found
R(00028);
0009
R;
0018
R;
# without-both
CMS002E File FILE0001 TEXT A not found
R(00028);
CMS002E File FILE0009 TEXT A not found
R(00028);
0018
R;
",
    // the events are the script, a turn, five blocks (7), a sync, the label, a sync, the ready line; a turn and two lines; a turn, a
    // record and the ready line; a turn, six blocks (24), a sync, the label, a sync, the ready line; a turn, a record, the ready line and
    // the script's end (32)
    moments: "# 7 7 all all all all
# 9 9 all without-first all without-first
# 24 24 without-first without-first without-first without-first
# 26 26 without-first without-both without-first without-both
# 0 32 - - - -
",
    faults: "# 1 43 - -
",
};

#[test]
fn a_crash_leaves_the_old_or_the_new(rt: HostRuntime) -> Result<(), Fail> {
    check_trials(&rt, rt.alloc(), &[TWICE, WIDE])
}
