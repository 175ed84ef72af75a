// Sessions that format disks, as transcripts.
use crate::transcript::check_sessions;
use crate::trial::{Trial, check_trials};
use std::test::Fail;

// The first two leave the known images.
const FORMATTED: &str = "# new: 191,512,n9,N
> FORMAT 191 A
CMS603R FORMAT will erase all files on disk A (191). Go on? Enter YES or NO
> YES
CMS605R Enter disk label
> TEST01
CMS733I 9 blocks formatted on A (191)
R;
> QUERY DISK A
LABEL  VDV M STA BLKSZ  FILES     USED     FREE    TOTAL
TEST01 191 A R/W   512      0        6        3        9
R;
= empty
# new: 191,512,n9,N
> FORMAT 191 A
CMS603R FORMAT will erase all files on disk A (191). Go on? Enter YES or NO
> YES
CMS605R Enter disk label
> TEST01
CMS733I 9 blocks formatted on A (191)
R;
> QUERY DISK A
LABEL  VDV M STA BLKSZ  FILES     USED     FREE    TOTAL
TEST01 191 A R/W   512      0        6        3        9
R;
> EXECIO 1 DISKW A FILE A (STRING HELLO
R;
= one file
# one file + one file
> format 192 a
CMS603R FORMAT will erase all files on disk A (192). Go on? Enter YES or NO
>  1 
CMS605R Enter disk label
>   work 
CMS733I 9 blocks formatted on A (192)
R;
> QUERY SEARCH
WORK   192 A   R/W
R;
> TYPE A FILE A
CMS002E File A FILE A not found
R(00028);
# one file: 191,512,rw,A
> FORMAT 191 A (LABEL
CMS605R Enter disk label
> newvol
R;
> QUERY SEARCH
NEWVOL 191 A   R/W
R;
> TYPE A FILE A
HELLO
R;
";

const KEPT: &str = "# one file: 191,512,rw,A
> FORMAT 191 A
CMS603R FORMAT will erase all files on disk A (191). Go on? Enter YES or NO
> NO
R(00008);
> TYPE A FILE A
HELLO
R;
# one file: 191,512,rw,A
> FORMAT 191 A
CMS603R FORMAT will erase all files on disk A (191). Go on? Enter YES or NO
> YES
CMS605R Enter disk label
> toolong
CMS062E Name TOOLONG is not valid
R(00020);
> TYPE A FILE A
HELLO
R;
# one file: 191,512,rw,A
> FORMAT 191 A
CMS603R FORMAT will erase all files on disk A (191). Go on? Enter YES or NO
R(00008);
# one file: 191,512,ro,A
> FORMAT 191 A
CMS037E Disk A is read-only
R(00036);
> FORMAT 191 A (LABEL
CMS037E Disk A is read-only
R(00036);
> FORMAT 191 B (LABEL
CMS069E Disk B is not accessed
R(00036);
# one file: 191,1024,rw,A
> FORMAT 191 A
CMS114E Device 191 is too small
R(00036);
> FORMAT 199 A
CMS113E Device 199 does not exist
R(00036);
> FORMAT 191
CMS054E Operand is missing
R(00024);
";

// A line that an ask drops costs a turn.
const TURNS: &str = "# new: -t 1 191,512,n9,N
> FORMAT 191 A
CMS603R FORMAT will erase all files on disk A (191). Go on? Enter YES or NO
> \u{7}
> YES
> TEST01
! Turns
# new: -t 2 191,512,n9,N
> FORMAT 191 A
CMS603R FORMAT will erase all files on disk A (191). Go on? Enter YES or NO
> \u{7}
CMS010E Line has an invalid character
> YES
CMS605R Enter disk label
> TEST01
CMS733I 9 blocks formatted on A (191)
R;
";

#[test]
fn disks_are_formatted_and_kept(rt: HostRuntime) -> Result<(), Fail> {
    check_sessions(&rt, rt.alloc(), &[FORMATTED, KEPT, TURNS])
}

// Another volume is made of one with A FILE.
const REMADE: Trial = Trial {
    images: "one file",
    words: "191,512,rw,A",
    transcript: "> FORMAT 191 A
CMS603R FORMAT will erase all files on disk A (191). Go on? Enter YES or NO
> YES
CMS605R Enter disk label
> WORK
CMS733I 9 blocks formatted on A (191)
R;
> QUERY SEARCH
WORK   191 A   R/W
R;
> TYPE A FILE A
CMS002E File A FILE A not found
R(00028);
",
    // the attaching, the opening, which reads the label, the directory, the map and the records' lengths, the script and the turn; the
    // questions; the wiping writes block 3, and the making the map, the directory and the label
    calls: b"arrrrinoowswwswsoonoonooi",
    look: ["191,512,rw,A", "QUERY SEARCH\nTYPE A FILE A\n"],
    states: "# old
TEST01 191 A   R/W
R;
HELLO
R;
# none
R;
CMS069E Disk A is not accessed
R(00036);
# new
WORK   191 A   R/W
R;
CMS002E File A FILE A not found
R(00028);
",
    // the label is wiped in event 5, and written in event 10
    moments: "# 0 4 old old old old
# 5 5 old none old none
# 6 9 none none none none
# 10 10 none new none new
# 11 20 new new new new
",
    faults: "# 1 1 old old
# 2 5 new new
CMS603R FORMAT will erase all files on disk A (191). Go on? Enter YES or NO
CMS605R Enter disk label
CMS733I 9 blocks formatted on A (191)
R;
WORK   191 A   R/W
R;
CMS002E File A FILE A not found
R(00028);
# 6 9 old old
# 10 10 old old dropped
CMS603R FORMAT will erase all files on disk A (191). Go on? Enter YES or NO
CMS605R Enter disk label
CMS105E Device fault on 191
R(00100);
R;
CMS069E Disk A is not accessed
R(00036);
# 10 11 old none
CMS603R FORMAT will erase all files on disk A (191). Go on? Enter YES or NO
CMS605R Enter disk label
CMS105E Device fault on 191
R(00100);
R;
CMS069E Disk A is not accessed
R(00036);
# 12 14 none none
CMS603R FORMAT will erase all files on disk A (191). Go on? Enter YES or NO
CMS605R Enter disk label
CMS105E Device fault on 191
R(00100);
R;
CMS069E Disk A is not accessed
R(00036);
# 15 15 none none dropped
CMS603R FORMAT will erase all files on disk A (191). Go on? Enter YES or NO
CMS605R Enter disk label
CMS105E Device fault on 191
R(00100);
R;
CMS069E Disk A is not accessed
R(00036);
# 15 16 none new
CMS603R FORMAT will erase all files on disk A (191). Go on? Enter YES or NO
CMS605R Enter disk label
CMS105E Device fault on 191
R(00100);
R;
CMS069E Disk A is not accessed
R(00036);
# 17 25 new new
",
};

#[test]
fn a_device_fault_leaves_no_disk(rt: HostRuntime) -> Result<(), Fail> {
    check_trials(&rt, rt.alloc(), &[REMADE])
}
