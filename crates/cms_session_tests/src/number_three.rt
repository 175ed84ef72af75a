// Sessions with files of mode number 3, as transcripts: a command that has read one to its end erases it.
use crate::transcript::check_sessions;
use std::test::Fail;

// A range that has the last record erases the file, and no other does.
const TYPED: &str = "# once
> TYPE P FILE A 1 1
X
R;
> TYPE P FILE A
X
Y
R;
> STATE P FILE A
CMS002E File P FILE A not found
R(00028);
> TYPE W FILE A 3 (COL 1-2
TH
R;
> STATE W FILE A
CMS002E File W FILE A not found
R(00028);
> TYPE K FILE A
X
R;
> STATE K FILE A4
R;
# once
> TYPE P FILE A 2 99
Y
R;
> LISTFILE * * A
K        FILE     A4
W        FILE     A3
R;
> TYPE W FILE A 1 2
ONE{ *2}
TWO{ *2}
R;
> TYPE W FILE A 2 3
TWO{ *2}
THREE
R;
> LISTFILE * * A
K        FILE     A4
R;
";

// Fewer records than are asked for, none of them, and those of a file whose name another has then.
const STACKED: &str = "# once
> EXECIO 1 DISKR P FILE A
R;
CMS001E Unknown command X
R(-0003);
> EXECIO 2 DISKR P FILE A 2
R(00002);
CMS001E Unknown command Y
R(-0003);
> STATE P FILE A
CMS002E File P FILE A not found
R(00028);
> EXECIO 1 DISKW P FILE A (STRING Z
R;
> EXECIO * DISKR P FILE A
R;
CMS001E Unknown command Z
R(-0003);
> STATE P FILE A1
R;
> EXECIO 1 DISKR W FILE A 4
R(00002);
> EXECIO 0 DISKR W FILE A 4
R;
> EXECIO 2 DISKR W FILE A
R;
CMS001E Unknown command ONE
R(-0003);
CMS001E Unknown command TWO
R(-0003);
> STATE W FILE A
R;
> EXECIO 1 DISKR W FILE A 3 (FINIS
R;
CMS001E Unknown command THREE
R(-0003);
> STATE W FILE A
CMS002E File W FILE A not found
R(00028);
> EXECIO * DISKR K FILE A
R;
CMS001E Unknown command X
R(-0003);
> STATE K FILE A4
R;
# once
> EXECIO * DISKR W FILE A 2 (LIFO
R;
CMS001E Unknown command THREE
R(-0003);
CMS001E Unknown command TWO
R(-0003);
> STATE W FILE A
CMS002E File W FILE A not found
R(00028);
";

// A disk that may only be read keeps its files, and so does a command that reads none of their records.
const KEPT: &str = "# once
> ACCESS 191 A/A
CMS723I A (191) R/O
R;
> TYPE P FILE A
X
Y
R;
> EXECIO * DISKR P FILE A
R;
CMS001E Unknown command X
R(-0003);
CMS001E Unknown command Y
R(-0003);
> STATE P FILE A
R;
# second + once: 191,512,rw,A 192,512,ro,B
> ACCESS 192 B
CMS723I B (192) R/O
R;
> TYPE P FILE B
X
Y
R;
> STATE P FILE B
R;
# once
@ G
| &TRACE OFF
| &TYPE HELLO
> RENAME G EXEC A G EXEC A3
R;
> G
HELLO
R;
> LISTFILE G EXEC A
G        EXEC     A3
R;
";

// Where the erasure is refused the file stays: what was typed or stacked stays so too, and reading goes on where it did before.
const FULL: &str = "# once, none free
> TYPE P FILE A 1 1
X
R;
> TYPE P FILE A
X
Y
CMS107E Disk A is full, 1 blocks needed, 0 free
R(00100);
> EXECIO 3 DISKR P FILE A
CMS107E Disk A is full, 1 blocks needed, 0 free
R(00100);
CMS001E Unknown command X
R(-0003);
CMS001E Unknown command Y
R(-0003);
> STATE P FILE A
R;
# second + once, none free
@ G
| &TRACE OFF
| EXECIO 1 DISKR P FILE B
| EXECIO 1 DISKR P FILE B
| &TYPE &RETCODE
| EXECIO * DISKR P FILE B (FINIS
| EXECIO 1 DISKR P FILE B
> ACCESS 192 B
R;
> G
CMS107E Disk B is full, 1 blocks needed, 0 free
100
CMS107E Disk B is full, 1 blocks needed, 0 free
CMS107E Disk B is full, 1 blocks needed, 0 free
R;
CMS001E Unknown command X
R(-0003);
CMS001E Unknown command Y
R(-0003);
CMS001E Unknown command Y
R(-0003);
CMS001E Unknown command Y
R(-0003);
> STATE P FILE B
R;
";

// The first write of the erasure fails: the volume is as it was.
const FAILED: &str = "# once: 191,512,rw,A
^ 12
> TYPE P FILE A
X
Y
CMS105E Device fault on 191
R(00100);
> STATE P FILE A
R;
";

// It has one record more than the program stack holds lines.
const LIMITED: &str = "# new: 191,512,n200,BIG
> FORMAT 191 A
CMS603R FORMAT will erase all files on disk A (191). Go on? Enter YES or NO
> YES
CMS605R Enter disk label
> BIG
CMS733I 200 blocks formatted on A (191)
R;
> EXECIO 10000 DISKW BIG FILE A (STRING *
R;
> EXECIO 1 DISKW BIG FILE A (STRING *
R;
> RENAME BIG FILE A BIG FILE A3
R;
> EXECIO * DISKR BIG FILE A
CMS120E Limit 4 reached
R(00040);
> STATE BIG FILE A
R;
";

// A procedure reads one to its end in three statements; the place where it stopped isn't kept for a file that has the name then.
const READ_ON: &str = "# once
@ G
| &TRACE OFF
| EXECIO 1 DISKR W FILE A
| &READ ARGS
| &TYPE &1
| EXECIO 1 DISKR W FILE A
| &READ ARGS
| &TYPE &1
| EXECIO 1 DISKR W FILE A
| &READ ARGS
| &TYPE &1
| STATE W FILE A
| &TYPE &RETCODE
| EXECIO 1 DISKW W FILE A (STRING NEW
| EXECIO 1 DISKR W FILE A
| &READ ARGS
| &TYPE &1
> G
ONE
TWO
THREE
CMS002E File W FILE A not found
28
NEW
R;
";

// COPYFILE erases each such file behind its copy, whichever place it has then; not where some of its records aren't read, nor one that is its
// own output or stands on a disk that may only be read. Where the erasure is refused, the copy is there and its line isn't typed.
const COPIED: &str = "# texts + blank
> COPYFILE ALPHA TEXT A P FILE A3
R;
> COPYFILE BETA DATA A Q FILE A3
R;
> COPYFILE ALSO TEXT A R FILE A1
R;
> ACCESS 192 B
R;
> COPYFILE * * A = = B (TYPE
ALPHA TEXT A1 TO ALPHA TEXT B1
BETA DATA A2 TO BETA DATA B2
ALSO TEXT A0 TO ALSO TEXT B0
P FILE A3 TO P FILE B3
Q FILE A3 TO Q FILE B3
R FILE A1 TO R FILE B1
R;
> LISTFILE * * A
ALPHA    TEXT     A1
BETA     DATA     A2
ALSO     TEXT     A0
R        FILE     A1
R;
> LISTFILE * FILE B
P        FILE     B3
Q        FILE     B3
R        FILE     B1
R;
> COPYFILE P FILE B (RECFM F LRECL 8 TYPE
P FILE B3 TO P FILE B3
R;
> COPYFILE P FILE B = = = (APPEND TYPE
P FILE B3 TO P FILE B3
R;
> LISTFILE P FILE B (ALLOC NOHEADER
P        FILE     B3 F     8        4        1
R;
> COPYFILE * FILE B3 P FILE B (REPLACE TYPE
P FILE B3 TO P FILE B3
Q FILE B3 TO P FILE B3
R;
> LISTFILE * FILE B
P        FILE     B3
R        FILE     B1
R;
# texts + blank
> COPYFILE BETA DATA A Q FILE A3
R;
> COPYFILE Q FILE A Q PART A (FROM 2 FOR 2
R;
> COPYFILE Q FILE A Q PART A (APPEND FOR 3 TYPE
Q FILE A3 TO Q PART A3
R;
> COPYFILE Q FILE A ALPHA TEXT A
CMS024E File ALPHA TEXT A already exists
R(00028);
> COPYFILE Q FILE A NEW TEXT A (FROM 5
CMS121E File has only 4 records
R(00024);
> STATE Q FILE A
R;
> COPYFILE Q FILE A Q PART A (APPEND FROM 2 FOR 3 TYPE
Q FILE A3 TO Q PART A3
R;
> STATE Q FILE A
CMS002E File Q FILE A not found
R(00028);
> LISTFILE Q PART A (ALLOC NOHEADER
Q        PART     A3 V     4        8        1
R;
> COPYFILE Q PART A Q END A (FROM 8 FOR 9
R;
> LISTFILE Q * A
Q        END      A3
R;
> ACCESS 191 A/A
CMS723I A (191) R/O
R;
> ACCESS 192 B
R;
> COPYFILE Q END A = = B (TYPE
Q END A3 TO Q END B3
R;
> LISTFILE Q END *
Q        END      A3
Q        END      B3
R;
# once, none free + blank
> ACCESS 192 B
R;
> COPYFILE * * A = = B (TYPE
CMS107E Disk A is full, 1 blocks needed, 0 free
R(00100);
> LISTFILE * * *
P        FILE     A3
W        FILE     A3
K        FILE     A4
P        FILE     B3
R;
";

#[test]
fn files_of_number_three_are_read_once(rt: HostRuntime) -> Result<(), Fail> {
    check_sessions(
        &rt,
        rt.alloc(),
        &[TYPED, STACKED, KEPT, FULL, FAILED, LIMITED, READ_ON, COPIED],
    )
}
