// Sessions that move the stamps of disks by a century, as transcripts.
use crate::transcript::check_sessions;
use crate::trial::{Trial, check_trials};
use std::test::Fail;

// Stamps of 1900, 1969, 1970 and 1999, and of 29 February 1900, by pivots. What was moved stays where the stamps are moved again.
const MOVED: &str = "# one file, last century
> LISTFILE A FILE A (FULLDATE NOHEADER
A        FILE     A1 V     5        1        1 01/01/1900 00:00:02
R;
> CENTURY A
R;
> LISTFILE A FILE A (FULLDATE NOHEADER
A        FILE     A1 V     5        1        1 01/01/2000 00:00:02
R;
> TYPE A FILE A
HELLO
R;
# five files, dated
> century a 0
R;
> L * FILE A (FULLDATE NOHEADER
A        FILE     A1 V     5        1        1 01/01/1900 00:00:00
B        FILE     A1 V     5        1        1 07/20/1969 20:17:40
C        FILE     A1 V     5        1        1 01/01/1970 00:00:00
D        FILE     A1 V     5        1        1 12/31/1999 23:59:59
E        FILE     A1 V     5        1        1 02/29/1900 23:59:59
R;
# five files, dated
> CENTURY A
R;
> L * FILE A (FULLDATE NOHEADER
A        FILE     A1 V     5        1        1 01/01/2000 00:00:00
B        FILE     A1 V     5        1        1 07/20/2069 20:17:40
C        FILE     A1 V     5        1        1 01/01/1970 00:00:00
D        FILE     A1 V     5        1        1 12/31/1999 23:59:59
E        FILE     A1 V     5        1        1 02/29/2000 23:59:59
R;
> CENTURY A 70
R;
> L B FILE A (FULLDATE NOHEADER
B        FILE     A1 V     5        1        1 07/20/2069 20:17:40
R;
> CENTURY A 071
R;
> L * FILE A (FULLDATE NOHEADER
A        FILE     A1 V     5        1        1 01/01/2000 00:00:00
B        FILE     A1 V     5        1        1 07/20/2069 20:17:40
C        FILE     A1 V     5        1        1 01/01/2070 00:00:00
D        FILE     A1 V     5        1        1 12/31/1999 23:59:59
E        FILE     A1 V     5        1        1 02/29/2000 23:59:59
R;
> TYPE D FILE A
HELLO
R;
# five files, dated
> CENTURY A 100
R;
> L * FILE A (FULLDATE NOHEADER
A        FILE     A1 V     5        1        1 01/01/2000 00:00:00
B        FILE     A1 V     5        1        1 07/20/2069 20:17:40
C        FILE     A1 V     5        1        1 01/01/2070 00:00:00
D        FILE     A1 V     5        1        1 12/31/2099 23:59:59
E        FILE     A1 V     5        1        1 02/29/2000 23:59:59
R;
> CENTURY A 100
R;
> L D FILE A (FULLDATE NOHEADER
D        FILE     A1 V     5        1        1 12/31/2099 23:59:59
R;
# empty: 191,512,rw,A
> CENTURY A
R;
! Done arrrinwswsoi 1
# five files, dated
@ P
| &TRACE OFF
| CENTURY A 99
| &TYPE &RETCODE
| CENTURY A 101
| &TYPE &RETCODE
> P
0
CMS070E Operand 101 is not valid
24
R;
> L D FILE A (FULLDATE NOHEADER
D        FILE     A1 V     5        1        1 12/31/1999 23:59:59
R;
";

// Operands, and disks that aren't written. A whole new directory and map have no room on a full disk.
const REFUSED: &str = "# five files, dated: 191,512,rw,A
> CENTURY
CMS054E Operand is missing
R(00024);
> CENTURY *
CMS048E Mode * is not valid
R(00024);
> CENTURY A1
CMS048E Mode A1 is not valid
R(00024);
> CENTURY A 101
CMS070E Operand 101 is not valid
R(00024);
> CENTURY A -1
CMS070E Operand -1 is not valid
R(00024);
> CENTURY A X
CMS070E Operand X is not valid
R(00024);
> CENTURY A 70 70
CMS070E Operand 70 is not valid
R(00024);
> CENTURY A (DATE
CMS003E Option DATE is not valid
R(00024);
> CENTUR A
CMS001E Unknown command CENTUR
R(-0003);
> CENTURY B
CMS069E Disk B is not accessed
R(00036);
> L B FILE A (FULLDATE NOHEADER
B        FILE     A1 V     5        1        1 07/20/1969 20:17:40
R;
# five files, dated: 191,512,ro,A
> CENTURY A 101
CMS070E Operand 101 is not valid
R(00024);
> CENTURY A
CMS037E Disk A is read-only
R(00036);
# full: 191,512,rw,A
> CENTURY A
CMS107E Disk A is full, 1 blocks needed, 0 free
R(00100);
> CENTURY A 0
CMS107E Disk A is full, 1 blocks needed, 0 free
R(00100);
# long directory: 191,512,rw,A
> CENTURY A
CMS107E Disk A is full, 3 blocks needed, 1 free
R(00100);
> TYPE G FILE A
HELLO
R;
# wide, four free: 191,512,rw,A
> CENTURY A
CMS107E Disk A is full, 6 blocks needed, 4 free
R(00100);
# wide, five free: 191,512,rw,A
> CENTURY A
CMS107E Disk A is full, 6 blocks needed, 5 free
R(00100);
";

#[test]
fn stamps_are_moved_and_kept(rt: HostRuntime) -> Result<(), Fail> {
    check_sessions(&rt, rt.alloc(), &[MOVED, REFUSED])
}

// All of a directory of two blocks below a pointer block is written anew.
const LONG: Trial = Trial {
    images: "long directory on 20, before 2000",
    words: "191,512,rw,A",
    transcript: "> CENTURY A
R;
> L G FILE A (FULLDATE NOHEADER
G        FILE     A1 V     5        1        1 01/01/2000 00:00:00
R;
",
    // the attaching; the opening reads the label, three blocks of the directory, the map and the records' lengths; the script and the
    // turn; both data blocks of the directory, its pointer block and the map, a sync, the label and a sync
    calls: b"arrrrrrrrrrrrinwwwwswsonooi",
    look: ["191,512,ro,A", "L * FILE A (FULLDATE NOHEADER\n"],
    states: "# old
A        FILE     A1 V     5        1        1 01/01/1900 00:00:00
B        FILE     A1 V     5        1        1 01/01/1900 00:00:00
C        FILE     A1 V     5        1        1 01/01/1900 00:00:00
D        FILE     A1 V     5        1        1 01/01/1900 00:00:00
E        FILE     A1 V     5        1        1 01/01/1900 00:00:00
F        FILE     A1 V     5        1        1 01/01/1900 00:00:00
G        FILE     A1 V     5        1        1 01/01/1900 00:00:00
R;
# new
A        FILE     A1 V     5        1        1 01/01/2000 00:00:00
B        FILE     A1 V     5        1        1 01/01/2000 00:00:00
C        FILE     A1 V     5        1        1 01/01/2000 00:00:00
D        FILE     A1 V     5        1        1 01/01/2000 00:00:00
E        FILE     A1 V     5        1        1 01/01/2000 00:00:00
F        FILE     A1 V     5        1        1 01/01/2000 00:00:00
G        FILE     A1 V     5        1        1 01/01/2000 00:00:00
R;
",
    // the label is written in event 8
    moments: "# 0 7 old old old old
# 8 8 old new old new
# 9 14 new new new new
",
    // the unit is in doubt from the label's write on
    faults: "# 1 1 old old
# 2 13 old old
CMS069E Disk A is not accessed
R(00036);
CMS069E Disk A is not accessed
R(00036);
# 14 15 old old
# 16 20 old old
CMS105E Device fault on 191
R(00100);
G        FILE     A1 V     5        1        1 01/01/1900 00:00:00
R;
# 21 21 old old dropped
CMS105E Device fault on 191
R(00100);
CMS069E Disk A is not accessed
R(00036);
# 21 22 old new
CMS105E Device fault on 191
R(00100);
CMS069E Disk A is not accessed
R(00036);
# 23 27 new new
",
};

#[test]
fn a_crash_leaves_all_stamps_or_none(rt: HostRuntime) -> Result<(), Fail> {
    check_trials(&rt, rt.alloc(), &[LONG])
}
