// Sessions of LISTFILE, as transcripts.
use crate::transcript::check_sessions;
use std::test::Fail;

const LISTED: &str = "# texts
> LISTFILE
ALPHA    TEXT     A1
BETA     DATA     A2
ALSO     TEXT     A0
R;
> list * * *
ALPHA    TEXT     A1
BETA     DATA     A2
ALSO     TEXT     A0
R;
> L A*
ALPHA    TEXT     A1
ALSO     TEXT     A0
R;
> L %%%%
BETA     DATA     A2
ALSO     TEXT     A0
R;
> L * *X%
ALPHA    TEXT     A1
ALSO     TEXT     A0
R;
> L * * A1
ALPHA    TEXT     A1
R;
> L * T* A0
ALSO     TEXT     A0
R;
> L ALPHA (FNAME
ALPHA
R;
> L ALPHA (FT
ALPHA    TEXT
R;
> L ALPHA (FMODE
ALPHA    TEXT     A1
R;
> L * * (FORMAT
FILENAME FILETYPE FM F LRECL
ALPHA    TEXT     A1 F     5
BETA     DATA     A2 V     4
ALSO     TEXT     A0 V     1
R;
> L BETA (AL
FILENAME FILETYPE FM F LRECL  RECORDS   BLOCKS
BETA     DATA     A2 V     4        4        1
R;
> L BETA (D
FILENAME FILETYPE FM F LRECL  RECORDS   BLOCKS DATE     TIME
BETA     DATA     A2 V     4        4        1 12/31/99 23:59:59
R;
> L BETA (LABEL)
FILENAME FILETYPE FM F LRECL  RECORDS   BLOCKS DATE     TIME     LABEL
BETA     DATA     A2 V     4        4        1 12/31/99 23:59:59 TEST01
R;
> L BETA (FULLDATE
FILENAME FILETYPE FM F LRECL  RECORDS   BLOCKS DATE       TIME
BETA     DATA     A2 V     4        4        1 12/31/1999 23:59:59
R;
> L BETA (FUL LABEL NOHEADER
BETA     DATA     A2 V     4        4        1 12/31/1999 23:59:59 TEST01
R;
> L BETA (HEADER
FILENAME FILETYPE FM
BETA     DATA     A2
R;
> L BETA (FNAME H
FILENAME
BETA
R;
> L BETA (FTYPE HEADER
FILENAME FILETYPE
BETA     DATA
R;
> L BETA (FORMAT NOHEADER
BETA     DATA     A2 V     4
R;
> L BETA (NOH FO HEAD
FILENAME FILETYPE FM F LRECL
BETA     DATA     A2 V     4
R;
> L BETA (HEADER NOHEADER
BETA     DATA     A2
R;
> L BETA (LABEL FNAME
BETA
R;
# one file
> LISTFILE A FILE A (FULLDATE NOHEADER
A        FILE     A1 V     5        1        1 01/01/2000 00:00:02
R;
# one file, last century
> LISTFILE A FILE A (FULLDATE NOHEADER
A        FILE     A1 V     5        1        1 01/01/1900 00:00:02
R;
> LISTFILE A FILE A (DATE NOHEADER
A        FILE     A1 V     5        1        1 01/01/00 00:00:02
R;
# one file, leap day
> LISTFILE A FILE A (NOHEADER DATE FULLDATE
A        FILE     A1 V     5        1        1 02/29/1900 23:59:59
R;
";

const NOT_LISTED: &str = "# texts
> L NONE
CMS002E File NONE * A not found
R(00028);
> L NONE x* A2
CMS002E File NONE X* A2 not found
R(00028);
> L NONE * *
CMS002E File NONE * * not found
R(00028);
> L NONE * B
CMS069E Disk B is not accessed
R(00036);
> L * * B (BLUE
CMS003E Option BLUE is not valid
R(00024);
> L * * =
CMS048E Mode = is not valid
R(00024);
> L * * AA (BLUE
CMS048E Mode AA is not valid
R(00024);
> L A! * AA
CMS062E Name A! is not valid
R(00020);
> L * TOOLONGTYPE AA
CMS062E Name TOOLONGTYPE is not valid
R(00020);
> L * * AA X
CMS048E Mode AA is not valid
R(00024);
> L * * A X (BLUE
CMS070E Operand X is not valid
R(00024);
> L (F
CMS003E Option F is not valid
R(00024);
> L (FU
CMS003E Option FU is not valid
R(00024);
> L (DATE (
CMS003E Option ( is not valid
R(00024);
> L (DATE) X
CMS070E Operand X is not valid
R(00024);
> L (BLUE) X
CMS003E Option BLUE is not valid
R(00024);
> L NONE (EXEC
CMS002E File NONE * A not found
R(00028);
> L NONE * B (EXEC
CMS069E Disk B is not accessed
R(00036);
# texts: 191,512,ro,A 192,512,rw,B
> L
ALPHA    TEXT     A1
BETA     DATA     A2
R;
> L ALSO
CMS002E File ALSO * A not found
R(00028);
> L NONE (APPEND
CMS037E Disk A is read-only
R(00036);
> L * * C (EXEC
CMS069E Disk C is not accessed
R(00036);
> L (BLUE EXEC
CMS003E Option BLUE is not valid
R(00024);
";

const STACKED: &str = "# rows
> LISTFILE A* * A (STACK
R;
CMS001E Unknown command AB
R(-0003);
CMS070E Operand FILE is not valid
R(00024);
CMS001E Unknown command AD
R(-0003);
> L A* * A (LIFO
R;
CMS001E Unknown command AD
R(-0003);
CMS070E Operand FILE is not valid
R(00024);
CMS001E Unknown command AB
R(-0003);
> L A* * A (LI ST
R;
CMS001E Unknown command AD
R(-0003);
CMS070E Operand FILE is not valid
R(00024);
CMS001E Unknown command AB
R(-0003);
> L A* * A (LIFO FI
R;
CMS001E Unknown command AB
R(-0003);
CMS070E Operand FILE is not valid
R(00024);
CMS001E Unknown command AD
R(-0003);
> L AB * A (EXEC STACK FNAME HEADER
R;
CMS001E Unknown command FILENAME
R(-0003);
CMS001E Unknown command AB
R(-0003);
> STATE CMS EXEC
CMS002E File CMS EXEC A not found
R(00028);
# texts
@ P
| &TRACE OFF
| LISTFILE BETA DATA A (STACK DATE
| &READ STRING &X
| &READ STRING &Y
| &TYPE &X
| &TYPE &Y
| LISTFILE BETA DATA A (LIFO LABEL NOHEADER
| &READ STRING &X
| &TYPE &X
| LISTFILE BETA DATA A (STACK FULLDATE
| &READ STRING &X
| &READ STRING &Y
| &TYPE &X
| &TYPE &Y
> P
FILENAME FILETYPE FM F LRECL  RECORDS   BLOCKS DATE     TIME
BETA     DATA     A2 V     4        4        1 12/31/99 23:59:59
BETA     DATA     A2 V     4        4        1 12/31/99 23:59:59 TEST01
FILENAME FILETYPE FM F LRECL  RECORDS   BLOCKS DATE       TIME
BETA     DATA     A2 V     4        4        1 12/31/1999 23:59:59
R;
";

const WRITTEN: &str = "# rows
> L A* * A (EXEC
R;
> TYPE CMS EXEC A 1 1 (COL 1-10
&TRACE OFF
R;
> TYPE CMS EXEC A 2 (COL 1-26
&1 &2 AB       FILE     A1
&1 &2 AC       FILE     A1
&1 &2 AD       FILE     A1
R;
> TYPE CMS EXEC A 4 4 (HEX COL 79-99
4040
R;
> L CMS * A (DATE NOHEADER
CMS      EXEC     A1 F    80        4        1 01/01/00 00:00:00
R;
> L CMS * A (FULLD NOHEADER FN
CMS      EXEC     A1 F    80        4        1 01/01/2000 00:00:00
R;
> L BX FILE A (APPEND FORMAT HEADER
R;
> TYPE CMS EXEC A 5 (COL 1-34
&1 &2 BX       FILE     A1 V     5
R;
> RENAME CMS EXEC A = = A3
R;
> L BX FILE A (AP
R;
> L CMS * A (ALLOC NOHEADER
CMS      EXEC     A3 F    80        6        1
R;
> L CMS * A (STACK EX FNAME
R;
> TYPE CMS EXEC A 2 (COL 1-9
&1 &2 CMS
R;
> L CMS * A (ALLOC NOHEADER
CMS      EXEC     A1 F    80        2        1
R;
# texts
> L BETA * A (EXEC DATE
R;
> L ALPHA * A (APPEND LABEL
R;
> TYPE CMS EXEC A 2 (COL 1-77
&1 &2 BETA     DATA     A2 V     4        4        1 12/31/99 23:59:59{ *7}
&1 &2 ALPHA    TEXT     A1 F     5        2        1 12/31/99 23:59:59 TEST01
R;
> L CMS * A (ALLOC NOHEADER
CMS      EXEC     A1 F    80        3        1
R;
> L BETA * A (EXEC LABEL FULLDATE
R;
> TYPE CMS EXEC A 2 (COL 1-79
&1 &2 BETA     DATA     A2 V     4        4        1 12/31/1999 23:59:59 TEST01
R;
# rows
> L AB * A (APPEND
R;
> TYPE CMS EXEC A 1 1 (COL 1-10
&TRACE OFF
R;
> TYPE CMS EXEC A 2 (COL 1-8
&1 &2 AB
R;
";

#[test]
fn files_are_listed(rt: HostRuntime) -> Result<(), Fail> {
    check_sessions(&rt, rt.alloc(), &[LISTED, NOT_LISTED, STACKED, WRITTEN])
}
