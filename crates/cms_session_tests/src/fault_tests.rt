// Sessions in which each call of the world fails in turn, or the machine stops.
use crate::trial::{Trial, check_trials};
use std::test::Fail;

// A volume is made, and a file on it.
const MADE: Trial = Trial {
    images: "new",
    words: "191,512,n9,A",
    transcript: "> FORMAT 191 A
CMS603R FORMAT will erase all files on disk A (191). Go on? Enter YES or NO
> YES
CMS605R Enter disk label
> TEST01
CMS733I 9 blocks formatted on A (191)
R;
> QUERY DISK A
LABEL  VDV M STA BLKSZ  FILES     USED     FREE    TOTAL
TEST01 191 A R/W   512      0        6        3        9
R;
> EXECIO 1 DISKW A FILE A (STRING HELLO
R;
> TYPE A FILE A
HELLO
R;
> TYPE A FILE A (HEX COL 1-3
C8C5D3
R;
",
    // the attaching, the opening, the script and the turn; the questions; the wiping and the making; the ready line; the query; the file's
    // block, the map, the directory and the label; the two lines that type
    calls: b"arinoowswwswsoonooonwwwswsonroonrooi",
    look: [
        "191,512,rw,A",
        "ACCESS 191 A\nQUERY DISK A\nLISTFILE * * A (DATE NOHEADER\nTYPE A FILE A\n",
    ],
    states: "# none
# zeros
CMS112E Device 191 holds no volume, reason 2
R(00036);
CMS069E Disk A is not accessed
R(00036);
CMS069E Disk A is not accessed
R(00036);
CMS069E Disk A is not accessed
R(00036);
# empty
R;
LABEL  VDV M STA BLKSZ  FILES     USED     FREE    TOTAL
TEST01 191 A R/W   512      0        6        3        9
R;
CMS002E File * * A not found
R(00028);
CMS002E File A FILE A not found
R(00028);
# file
R;
LABEL  VDV M STA BLKSZ  FILES     USED     FREE    TOTAL
TEST01 191 A R/W   512      1        7        2        9
R;
A        FILE     A1 V     5        1        1 01/01/00 00:00:02
R;
HELLO
R;
",
    // the label of the empty volume is written in event 10, and that of the volume with the file in event 23
    moments: "# 0 9 zeros zeros zeros zeros
# 10 10 zeros empty zeros empty
# 11 22 empty empty empty empty
# 23 23 empty file empty file
# 24 32 file file file file
",
    faults: "# 1 1 none none
# 2 2 file file
CMS603R FORMAT will erase all files on disk A (191). Go on? Enter YES or NO
CMS605R Enter disk label
CMS733I 9 blocks formatted on A (191)
R;
LABEL  VDV M STA BLKSZ  FILES     USED     FREE    TOTAL
TEST01 191 A R/W   512      0        6        3        9
R;
R;
HELLO
R;
C8C5D3
R;
# 3 6 zeros zeros
# 7 11 zeros zeros
CMS603R FORMAT will erase all files on disk A (191). Go on? Enter YES or NO
CMS605R Enter disk label
CMS105E Device fault on 191
R(00100);
CMS069E Disk A is not accessed
R(00036);
CMS069E Disk A is not accessed
R(00036);
CMS069E Disk A is not accessed
R(00036);
CMS069E Disk A is not accessed
R(00036);
# 12 12 zeros zeros dropped
CMS603R FORMAT will erase all files on disk A (191). Go on? Enter YES or NO
CMS605R Enter disk label
CMS105E Device fault on 191
R(00100);
CMS069E Disk A is not accessed
R(00036);
CMS069E Disk A is not accessed
R(00036);
CMS069E Disk A is not accessed
R(00036);
CMS069E Disk A is not accessed
R(00036);
# 12 13 zeros empty
CMS603R FORMAT will erase all files on disk A (191). Go on? Enter YES or NO
CMS605R Enter disk label
CMS105E Device fault on 191
R(00100);
CMS069E Disk A is not accessed
R(00036);
CMS069E Disk A is not accessed
R(00036);
CMS069E Disk A is not accessed
R(00036);
CMS069E Disk A is not accessed
R(00036);
# 14 20 empty empty
# 21 24 empty empty
CMS603R FORMAT will erase all files on disk A (191). Go on? Enter YES or NO
CMS605R Enter disk label
CMS733I 9 blocks formatted on A (191)
R;
LABEL  VDV M STA BLKSZ  FILES     USED     FREE    TOTAL
TEST01 191 A R/W   512      0        6        3        9
R;
CMS105E Device fault on 191
R(00100);
CMS002E File A FILE A not found
R(00028);
CMS002E File A FILE A not found
R(00028);
# 25 25 empty empty dropped
CMS603R FORMAT will erase all files on disk A (191). Go on? Enter YES or NO
CMS605R Enter disk label
CMS733I 9 blocks formatted on A (191)
R;
LABEL  VDV M STA BLKSZ  FILES     USED     FREE    TOTAL
TEST01 191 A R/W   512      0        6        3        9
R;
CMS105E Device fault on 191
R(00100);
CMS069E Disk A is not accessed
R(00036);
CMS069E Disk A is not accessed
R(00036);
# 25 26 empty file
CMS603R FORMAT will erase all files on disk A (191). Go on? Enter YES or NO
CMS605R Enter disk label
CMS733I 9 blocks formatted on A (191)
R;
LABEL  VDV M STA BLKSZ  FILES     USED     FREE    TOTAL
TEST01 191 A R/W   512      0        6        3        9
R;
CMS105E Device fault on 191
R(00100);
CMS069E Disk A is not accessed
R(00036);
CMS069E Disk A is not accessed
R(00036);
# 27 28 file file
# 29 29 file file
CMS603R FORMAT will erase all files on disk A (191). Go on? Enter YES or NO
CMS605R Enter disk label
CMS733I 9 blocks formatted on A (191)
R;
LABEL  VDV M STA BLKSZ  FILES     USED     FREE    TOTAL
TEST01 191 A R/W   512      0        6        3        9
R;
R;
CMS105E Device fault on 191
R(00100);
C8C5D3
R;
# 30 32 file file
# 33 33 file file
CMS603R FORMAT will erase all files on disk A (191). Go on? Enter YES or NO
CMS605R Enter disk label
CMS733I 9 blocks formatted on A (191)
R;
LABEL  VDV M STA BLKSZ  FILES     USED     FREE    TOTAL
TEST01 191 A R/W   512      0        6        3        9
R;
R;
HELLO
R;
CMS105E Device fault on 191
R(00100);
# 34 36 file file
",
};

// The only file of a volume is erased.
const ERASED: Trial = Trial {
    images: "one file",
    words: "191,512,rw,A",
    transcript: "> ERASE A FILE A
R;
",
    // the attaching, the opening, the script and the turn; the map, the directory and the label; the ready line
    calls: b"arrrrinwwswsoi",
    look: ["191,512,rw,A", "TYPE A FILE A\nLISTFILE\n"],
    states: "# file
HELLO
R;
A        FILE     A1
R;
# empty
CMS002E File A FILE A not found
R(00028);
CMS002E File * * A not found
R(00028);
",
    // the label is written in event 6
    moments: "# 0 5 file file file file
# 6 6 file empty file empty
# 7 9 empty empty empty empty
",
    faults: "# 1 1 file file
# 2 5 file file
CMS069E Disk A is not accessed
R(00036);
# 6 7 file file
# 8 10 file file
CMS105E Device fault on 191
R(00100);
# 11 11 file file dropped
CMS105E Device fault on 191
R(00100);
# 11 12 file empty
CMS105E Device fault on 191
R(00100);
# 13 14 empty empty
",
};

// A procedure is written by two updates; it copies a file to another disk and erases it, but where the copy isn't made.
const MOVED: Trial = Trial {
    images: "letters + empty",
    words: "191,512,rw,A 192,512,rw,B",
    transcript: "> ACCESS 192 B
R;
> EXECIO 1 DISKW P EXEC A (STRING &TRACE OFF
R;
> EXECIO 4 DISKW P EXEC A
> COPYFILE L FILE A = = B
> &IF &RC > 0 &EXIT &RC
> ERASE L FILE A
> &TYPE ERASED &RC
R;
> P
ERASED 0
R;
",
    // the attaching, the opening of A and the script; B is accessed; the procedure is written; it is read, and more is written; it runs:
    // the file is read and written to B, and erased from A
    calls: b"aarrrrinrrronwwwswsonrwwwswsonrnnrwwwswsnnwwswsnooi",
    look: [
        "191,512,rw,A 192,512,rw,B",
        "ACCESS 192 B\nLISTFILE * * * (ALLOC NOHEADER\nTYPE L FILE A (HEX\nTYPE L FILE B (HEX\nTYPE P EXEC A\n",
    ],
    states: "# start
R;
L        FILE     A1 V     4        3        1
R;
C1C240
C3C4C5C6
C7
R;
CMS002E File L FILE B not found
R(00028);
CMS002E File P EXEC A not found
R(00028);
# begun
R;
L        FILE     A1 V     4        3        1
P        EXEC     A1 V    10        1        1
R;
C1C240
C3C4C5C6
C7
R;
CMS002E File L FILE B not found
R(00028);
&TRACE OFF
R;
# written
R;
L        FILE     A1 V     4        3        1
P        EXEC     A1 V    23        5        1
R;
C1C240
C3C4C5C6
C7
R;
CMS002E File L FILE B not found
R(00028);
&TRACE OFF
COPYFILE L FILE A = = B
&IF &RC > 0 &EXIT &RC
ERASE L FILE A
&TYPE ERASED &RC
R;
# headless
R;
L        FILE     A1 V     4        3        1
P        EXEC     A1 V    23        4        1
R;
C1C240
C3C4C5C6
C7
R;
CMS002E File L FILE B not found
R(00028);
COPYFILE L FILE A = = B
&IF &RC > 0 &EXIT &RC
ERASE L FILE A
&TYPE ERASED &RC
R;
# copied
R;
L        FILE     A1 V     4        3        1
P        EXEC     A1 V    23        5        1
L        FILE     B1 V     4        3        1
R;
C1C240
C3C4C5C6
C7
R;
C1C240
C3C4C5C6
C7
R;
&TRACE OFF
COPYFILE L FILE A = = B
&IF &RC > 0 &EXIT &RC
ERASE L FILE A
&TYPE ERASED &RC
R;
# moved
R;
P        EXEC     A1 V    23        5        1
L        FILE     B1 V     4        3        1
R;
CMS002E File L FILE A not found
R(00028);
C1C240
C3C4C5C6
C7
R;
&TRACE OFF
COPYFILE L FILE A = = B
&IF &RC > 0 &EXIT &RC
ERASE L FILE A
&TYPE ERASED &RC
R;
",
    // the labels are written in events 9, 17, 27 and 34
    moments: "# 0 8 start start start start
# 9 9 start begun start begun
# 10 16 begun begun begun begun
# 17 17 begun written begun written
# 18 26 written written written written
# 27 27 written copied written copied
# 28 33 copied copied copied copied
# 34 34 copied moved copied moved
# 35 39 moved moved moved moved
",
    faults: "# 1 2 start start
# 3 6 start start
R;
CMS069E Disk A is not accessed
R(00036);
CMS069E Disk A is not accessed
R(00036);
CMS069E Disk A is not accessed
R(00036);
CMS001E Unknown command &IF
R(-0003);
CMS069E Disk A is not accessed
R(00036);
CMS001E Unknown command &TYPE
R(-0003);
CMS001E Unknown command P
R(-0003);
# 7 8 start start
# 9 11 written written
CMS105E Device fault on 192
R(00100);
R;
R;
CMS069E Disk B is not accessed
R(00036);
# 12 13 start start
# 14 17 headless headless
R;
CMS105E Device fault on 191
R(00100);
R;
CMS086E Procedure P is not run, reason 1
R(10101);
# 18 18 start start dropped
R;
CMS105E Device fault on 191
R(00100);
CMS069E Disk A is not accessed
R(00036);
CMS069E Disk A is not accessed
R(00036);
CMS001E Unknown command &IF
R(-0003);
CMS069E Disk A is not accessed
R(00036);
CMS001E Unknown command &TYPE
R(-0003);
CMS001E Unknown command P
R(-0003);
# 18 19 start begun
R;
CMS105E Device fault on 191
R(00100);
CMS069E Disk A is not accessed
R(00036);
CMS069E Disk A is not accessed
R(00036);
CMS001E Unknown command &IF
R(-0003);
CMS069E Disk A is not accessed
R(00036);
CMS001E Unknown command &TYPE
R(-0003);
CMS001E Unknown command P
R(-0003);
# 20 21 begun begun
# 22 26 begun begun
R;
R;
CMS105E Device fault on 191
R(00100);
R;
# 27 27 begun begun dropped
R;
R;
CMS105E Device fault on 191
R(00100);
CMS001E Unknown command P
R(-0003);
# 27 28 begun written
R;
R;
CMS105E Device fault on 191
R(00100);
CMS001E Unknown command P
R(-0003);
# 29 30 written written
# 31 31 written written
R;
R;
R;
CMS105E Device fault on 191
R(00100);
# 32 33 written written
# 34 34 written written
R;
R;
R;
CMS105E Device fault on 191
R(00100);
# 35 38 written written
R;
R;
R;
CMS105E Device fault on 192
R(00100);
# 39 39 written written dropped
R;
R;
R;
CMS105E Device fault on 192
R(00100);
# 39 40 written copied
R;
R;
R;
CMS105E Device fault on 192
R(00100);
# 41 42 copied copied
# 43 45 copied copied
R;
R;
R;
CMS105E Device fault on 191
ERASED 100
R;
# 46 46 copied copied dropped
R;
R;
R;
CMS105E Device fault on 191
ERASED 100
R;
# 46 47 copied moved
R;
R;
R;
CMS105E Device fault on 191
ERASED 100
R;
# 48 51 moved moved
",
};

// A file is loaded from the deck onto which it was dumped; the deck goes only where the file was written, so a second one finds it else.
const LOADED: Trial = Trial {
    images: "one file + empty",
    words: "191,512,rw,A 192,512,rw,B",
    transcript: "> ACCESS 192 B
R;
> DISK DUMP A FILE
R;
> DISK LOAD B
R;
> DISK LOAD
CMS124E Reader is empty
R(00028);
",
    // the attaching, the opening of A, the script and the turn; B is accessed; the file is read; it is written to B; no deck is there
    calls: b"aarrrrinrrronronwwwswsonooi",
    look: [
        "191,512,rw,A 192,512,rw,B",
        "ACCESS 192 B\nLISTFILE * * B (DATE NOHEADER\nTYPE A FILE B\nTYPE A FILE A\n",
    ],
    states: "# before
R;
CMS002E File * * B not found
R(00028);
CMS002E File A FILE B not found
R(00028);
HELLO
R;
# loaded
R;
A        FILE     B1 V     5        1        1 01/01/00 00:00:02
R;
HELLO
R;
HELLO
R;
",
    // the label of B is written in event 11
    moments: "# 0 10 before before before before
# 11 11 before loaded before loaded
# 12 17 loaded loaded loaded loaded
",
    faults: "# 1 2 before before
# 3 6 before before
R;
CMS069E Disk A is not accessed
R(00036);
CMS124E Reader is empty
R(00028);
CMS069E Disk A is not accessed
R(00036);
# 7 8 before before
# 9 11 before before
CMS105E Device fault on 192
R(00100);
R;
CMS069E Disk B is not accessed
R(00036);
R;
# 12 13 before before
# 14 14 before before
R;
CMS105E Device fault on 191
R(00100);
CMS124E Reader is empty
R(00028);
CMS124E Reader is empty
R(00028);
# 15 16 before before
# 17 20 before before
R;
R;
CMS105E Device fault on 192
R(00100);
R;
# 21 21 before before dropped
R;
R;
CMS105E Device fault on 192
R(00100);
R;
# 21 22 before loaded
R;
R;
CMS105E Device fault on 192
R(00100);
R;
# 23 27 loaded loaded
",
};

#[test]
fn each_call_leaves_the_old_or_the_new(rt: HostRuntime) -> Result<(), Fail> {
    check_trials(&rt, rt.alloc(), &[MADE, ERASED, LOADED, MOVED])
}
