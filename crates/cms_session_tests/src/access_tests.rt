// Sessions that access disks, as transcripts, and one whose erasure comes to a doubt.
use crate::transcript::check_sessions;
use crate::trial::{Trial, check_trials};
use std::test::Fail;

const ACCESSED: &str = "# empty + two files, one root
> ACCESS 192 B
CMS112E Device 192 holds no volume, reason 5
R(00036);
> QUERY DISK B
CMS069E Disk B is not accessed
R(00036);
# empty, cut: 191,512,rw,A
> ACCESS 191 A
CMS112E Device 191 holds no volume, reason 2
R(00036);
# empty + hello, on second + hello, on third: 191,512,rw,A 192,512,rw,B 193,512,rw,C
> ACCESS 192 B/A
CMS723I B (192) R/O
R;
> ACCESS 193 C
R;
> TYPE X Y A
ON2
R;
> RELEASE B
R;
> TYPE X Y A
CMS002E File X Y A not found
R(00028);
# one file: 800,512,rw,A FFF,512,n9,N 8A0,1024,rw,C
> ACCESS 8FF B
CMS113E Device 8FF does not exist
R(00036);
> ACCESS FFF B
CMS112E Device FFF holds no volume, reason 2
R(00036);
> RELEASE FFF
CMS069E Disk FFF is not accessed
R(00036);
> FORMAT 8A0 B
CMS114E Device 8A0 is too small
R(00036);
> FORMAT FFF B
CMS603R FORMAT will erase all files on disk B (FFF). Go on? Enter YES or NO
> YES
CMS605R Enter disk label
> HIGH
CMS733I 9 blocks formatted on B (FFF)
R;
> ACCESS 800 A
R;
> ACCESS FFF B/B
CMS723I B (FFF) R/O
R;
> QUERY DISK
LABEL  VDV M STA BLKSZ  FILES     USED     FREE    TOTAL
TEST01 800 A R/W   512      1        7        2        9
HIGH   FFF B R/O   512      0        6        3        9
R;
> QUERY SEARCH
TEST01 800 A   R/W
HIGH   FFF B   R/O
R;
# one file: 9F1,512,rw,A
^ 4
> ACCESS 9F1 A
CMS105E Device fault on 9F1
R(00100);
# one file: BFF,512,rw,A
^ 14
> ACCESS BFF A
R;
> ERASE A FILE A
CMS105E Device fault on BFF
R(00100);
> FORMAT BFF A
CMS115E Device BFF is in doubt
R(00036);
> ACCESS BFF A
R;
> LISTFILE
CMS002E File * * A not found
R(00028);
# one file: 191,512,rw,A
> ACCESS 199 C
CMS113E Device 199 does not exist
R(00036);
> ERASE A FILE A
R;
# empty + one file
> ACCESS 192 A
R;
> TYPE A FILE A
HELLO
R;
> QUERY SEARCH
TEST01 192 A   R/W
R;
> ACCESS
R;
> QUERY SEARCH
TEST01 191 A   R/W
R;
# empty + one file
> ACCESS 192 B/C
CMS069E Disk C is not accessed
R(00036);
> ACCESS 192 B/B
CMS723I B (192) R/O
R;
> QUERY SEARCH
TEST01 191 A   R/W
TEST01 192 B   R/O
R;
> ACCESS 192 B1
CMS048E Mode B1 is not valid
R(00024);
";

#[test]
fn disks_are_accessed(rt: HostRuntime) -> Result<(), Fail> {
    check_sessions(&rt, rt.alloc(), &[ACCESSED])
}

// An erasure may come to a doubt, which an access ends.
const DOUBTED: Trial = Trial {
    images: "one file",
    words: "191,512,rw,A",
    transcript: "> ERASE A FILE A
R;
> TYPE A FILE A
CMS002E File A FILE A not found
R(00028);
> ACCESS 191 A
R;
> TYPE A FILE A
CMS002E File A FILE A not found
R(00028);
",
    // the attaching, the opening, which reads the label, the directory, the map and the records' lengths, the script and the turn; the map,
    // the directory and the label; the access reads the label, the directory and the map
    calls: b"arrrrinwwswsonoonrrronooi",
    look: ["191,512,rw,A", "TYPE A FILE A\n"],
    states: "# file
HELLO
R;
# none
CMS002E File A FILE A not found
R(00028);
",
    // the label is written in event 6
    moments: "# 0 5 file file file file
# 6 6 file none file none
# 7 17 none none none none
",
    faults: "# 1 1 file file
# 2 5 file file
CMS069E Disk A is not accessed
R(00036);
CMS069E Disk A is not accessed
R(00036);
R;
HELLO
R;
# 6 7 file file
# 8 10 file file
CMS105E Device fault on 191
R(00100);
HELLO
R;
R;
HELLO
R;
# 11 11 file file dropped
CMS105E Device fault on 191
R(00100);
CMS069E Disk A is not accessed
R(00036);
R;
HELLO
R;
# 11 12 none none
CMS105E Device fault on 191
R(00100);
CMS069E Disk A is not accessed
R(00036);
R;
CMS002E File A FILE A not found
R(00028);
# 13 17 none none
# 18 20 none none
R;
CMS002E File A FILE A not found
R(00028);
CMS105E Device fault on 191
R(00100);
CMS002E File A FILE A not found
R(00028);
# 21 25 none none
",
};

#[test]
fn a_doubt_ends_with_an_access(rt: HostRuntime) -> Result<(), Fail> {
    check_trials(&rt, rt.alloc(), &[DOUBTED])
}
