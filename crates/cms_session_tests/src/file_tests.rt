// Sessions of STATE, TYPE, ERASE and RENAME, as transcripts, and the order of their calls.
use crate::transcript::check_sessions;
use std::test::Fail;

const STATED: &str = "# texts
> STATE ALPHA TEXT
R;
> state alpha text a1
R;
> STATE ALSO TEXT *
R;
> STATE ALPHA TEXT A2
CMS002E File ALPHA TEXT A2 not found
R(00028);
> STATE NONE TEXT
CMS002E File NONE TEXT A not found
R(00028);
> STATE NONE TEXT *
CMS002E File NONE TEXT * not found
R(00028);
> STATE NONE TEXT B
CMS069E Disk B is not accessed
R(00036);
> STATE NONE TEXT B (X
CMS003E Option X is not valid
R(00024);
> STATE ALPHA TEXT =
CMS048E Mode = is not valid
R(00024);
> STATE ALPHA TEXT AA X
CMS048E Mode AA is not valid
R(00024);
> STATE A* TEXT
CMS062E Name A* is not valid
R(00020);
> STATE * TEXT
CMS062E Name * is not valid
R(00020);
> STATE A!
CMS062E Name A! is not valid
R(00020);
> STATE ALPHA
CMS054E Operand is missing
R(00024);
> STATE ALPHA (X
CMS054E Operand is missing
R(00024);
> STATE ALPHA TEXT A X (Y
CMS070E Operand X is not valid
R(00024);
> STATE
CMS054E Operand is missing
R(00024);
> STAT ALPHA TEXT
CMS001E Unknown command STAT
R(-0003);
# texts: 191,512,ro,A 192,512,rw,B
> STATE ALPHA TEXT
R;
> STATE ALSO TEXT
CMS002E File ALSO TEXT A not found
R(00028);
";

const TYPED: &str = "# texts
> TYPE ALPHA TEXT
HELLO
WORLD
R;
> t alpha text a 2
WORLD
R;
> TYPE BETA DATA A 2 3
BC
DEF
R;
> TYPE BETA DATA A2 3 *
DEF
GHIJ
R;
> TYPE BETA DATA * 004 999999999
GHIJ
R;
> TYPE ALPHA TEXT (HEX
C8C5D3D3D6
E6D6D9D3C4
R;
> TYPE ALPHA TEXT (COL 2-3
EL
OR
R;
> TYPE ALPHA TEXT A 2 (HEX COL 1-3
E6D6D9
R;
> TYPE BETA DATA (COL 2-9

C
EF
HIJ
R;
> TYPE BETA DATA (COL 2-2 HEX COL 3-3


C6
C9
R;
> TYPE ALSO TEXT A0
X
R;
> TYPE BETA DATA A 0
CMS070E Operand 0 is not valid
R(00024);
> TYPE BETA DATA A X
CMS070E Operand X is not valid
R(00024);
> TYPE BETA DATA A * 2
CMS070E Operand * is not valid
R(00024);
> TYPE BETA DATA A 3 2
CMS070E Operand 2 is not valid
R(00024);
> TYPE BETA DATA A 1 1234567890
CMS070E Operand 1234567890 is not valid
R(00024);
> TYPE BETA DATA A 1 2 3
CMS070E Operand 3 is not valid
R(00024);
> TYPE BETA DATA A 5
CMS070E Operand 5 is not valid
R(00024);
> TYPE NONE DATA A 5
CMS002E File NONE DATA A not found
R(00028);
> TYPE NONE DATA B 5
CMS069E Disk B is not accessed
R(00036);
> TYPE BETA DATA B 5 (BLUE
CMS003E Option BLUE is not valid
R(00024);
> TYPE BETA DATA A 0 (BLUE
CMS070E Operand 0 is not valid
R(00024);
> TYPE BETA DATA AA 0
CMS048E Mode AA is not valid
R(00024);
> TYPE B* DATA AA
CMS062E Name B* is not valid
R(00020);
> TYPE BETA DATA =
CMS048E Mode = is not valid
R(00024);
> TYPE BETA (BLUE
CMS054E Operand is missing
R(00024);
> TYPE
CMS054E Operand is missing
R(00024);
> TYPE BETA DATA (HE
CMS003E Option HE is not valid
R(00024);
> TYPE BETA DATA (COL
CMS054E Operand is missing
R(00024);
> TYPE BETA DATA (COL)
CMS054E Operand is missing
R(00024);
> TYPE BETA DATA (col 2-1
CMS029E Parameter 2-1 of option COL is not valid
R(00024);
> TYPE BETA DATA (COL 0-1
CMS029E Parameter 0-1 of option COL is not valid
R(00024);
> TYPE BETA DATA (COL 2
CMS029E Parameter 2 of option COL is not valid
R(00024);
> TYPE BETA DATA (COL X BLUE
CMS029E Parameter X of option COL is not valid
R(00024);
> TYPE BETA DATA (BLUE COL X
CMS003E Option BLUE is not valid
R(00024);
> TYPE BETA DATA (COL X COL 1-2
CMS029E Parameter X of option COL is not valid
R(00024);
> TYPE BETA DATA B (COL 1-2 HEX) Y
CMS070E Operand Y is not valid
R(00024);
# texts: 191,512,ro,A 192,512,rw,B
> TYPE ALPHA TEXT
HELLO
WORLD
R;
> TYPE ALSO TEXT
CMS002E File ALSO TEXT A not found
R(00028);
# spanning
> TYPE V FILE A 2 2
ABC
R;
> TYPE V FILE A (COL 509-600
A

R;
> LISTFILE (ALLOC NOHEADER
V        FILE     A1 V   509        2        2
R;
# spanning, stars: 191,512,ro,A
> TYPE V FILE A (HEX
{5C*508}C1
C1C2C3
R;
> TYPE V FILE A 1 1 (HEX COL 100-400
{5C*301}
R;
";

const ERASED: &str = "# texts
> ERASE ALPHA TEXT
R;
> STATE ALPHA TEXT
CMS002E File ALPHA TEXT A not found
R(00028);
> L
ALSO     TEXT     A0
BETA     DATA     A2
R;
> ERA BETA DATA A2 (TYPE
BETA DATA A2
R;
> erase also text a (ty
ALSO TEXT A0
R;
> L
CMS002E File * * A not found
R(00028);
# texts
> ERASE * TEXT A (TYPE
ALPHA TEXT A1
ALSO TEXT A0
R;
> L
BETA     DATA     A2
R;
# texts
> ERASE * * A (TYPE
ALPHA TEXT A1
BETA DATA A2
ALSO TEXT A0
R;
> ERASE * * A (TYPE
CMS002E File * * A not found
R(00028);
# texts
> ERASE * * A1 (TYPE
ALPHA TEXT A1
R;
> ERASE BETA * A (NOTYPE TYPE
BETA DATA A2
R;
> ERASE ALSO * A (TYPE NOT
R;
# texts
> ERASE NONE TEXT
CMS002E File NONE TEXT A not found
R(00028);
> ERASE * NONE A1
CMS002E File * NONE A1 not found
R(00028);
> ERASE ALPHA TEXT A2
CMS002E File ALPHA TEXT A2 not found
R(00028);
> ERASE NONE TEXT B
CMS069E Disk B is not accessed
R(00036);
> ERASE NONE TEXT B (BLUE
CMS003E Option BLUE is not valid
R(00024);
> ERASE ALPHA TEXT *
CMS048E Mode * is not valid
R(00024);
> ERASE ALPHA TEXT = X
CMS048E Mode = is not valid
R(00024);
> ERASE A* TEXT *
CMS062E Name A* is not valid
R(00020);
> ERASE = TEXT
CMS062E Name = is not valid
R(00020);
> ERASE A!
CMS062E Name A! is not valid
R(00020);
> ERASE ALPHA (BLUE
CMS054E Operand is missing
R(00024);
> ERASE
CMS054E Operand is missing
R(00024);
> ERASE ALPHA TEXT A X (BLUE
CMS070E Operand X is not valid
R(00024);
> ERASE ALPHA TEXT (T
CMS003E Option T is not valid
R(00024);
> ERASE ALPHA TEXT (TYPE) X
CMS070E Operand X is not valid
R(00024);
> ER ALPHA TEXT
CMS001E Unknown command ER
R(-0003);
> L ALPHA
ALPHA    TEXT     A1
R;
# full
> ERASE A FILE A
CMS107E Disk A is full, 1 blocks needed, 0 free
R(00100);
# texts: 191,512,ro,A 192,512,rw,B
> ERASE NONE TEXT
CMS037E Disk A is read-only
R(00036);
> ERASE ALPHA TEXT C
CMS069E Disk C is not accessed
R(00036);
> ERASE ALPHA TEXT (BLUE
CMS003E Option BLUE is not valid
R(00024);
";

const RENAMED: &str = "# texts
> RENAME ALPHA TEXT A OMEGA = =
R;
> L
OMEGA    TEXT     A1
BETA     DATA     A2
ALSO     TEXT     A0
R;
> r omega text a alpha old a2 (type
ALPHA OLD A2
R;
> R ALPHA OLD A = = A1 (TY UP
ALPHA OLD A1
R;
> R * TEXT A = NEW = (TYPE
ALSO NEW A0
R;
> R * * A1 = TEXT = (NOT TYPE UPDIRT
ALPHA TEXT A1
R;
> R ALPHA TEXT A ALPHA TEXT A (TYPE NOTYPE
R;
> TYPE ALPHA TEXT
HELLO
WORLD
R;
> L (DATE NOHEADER
ALPHA    TEXT     A1 F     5        2        1 12/31/99 23:59:59
BETA     DATA     A2 V     4        4        1 12/31/99 23:59:59
ALSO     NEW      A0 V     1        1        1 12/31/99 23:59:59
R;
# texts
> R * TEXT A SAME = = (TYPE
SAME TEXT A1
CMS024E File SAME TEXT A already exists
R(00028);
> L
SAME     TEXT     A1
BETA     DATA     A2
ALSO     TEXT     A0
R;
# texts
> R * * A = OTHER A4 (TYPE
ALPHA OTHER A4
BETA OTHER A4
ALSO OTHER A4
R;
# texts
> R ALPHA TEXT A BETA DATA a2
CMS024E File BETA DATA A2 already exists
R(00028);
> R ALPHA TEXT A BETA DATA =
CMS024E File BETA DATA A already exists
R(00028);
> R NONE TEXT A BETA DATA A
CMS002E File NONE TEXT A not found
R(00028);
> R ALPHA TEXT A2 X = =
CMS002E File ALPHA TEXT A2 not found
R(00028);
> R NONE TEXT B X = =
CMS069E Disk B is not accessed
R(00036);
> R ALPHA TEXT B X TEXT A
CMS048E Mode A is not valid
R(00024);
> R ALPHA TEXT A X TEXT B
CMS048E Mode B is not valid
R(00024);
> R ALPHA TEXT A X TEXT *
CMS048E Mode * is not valid
R(00024);
> R ALPHA TEXT * X! = =
CMS048E Mode * is not valid
R(00024);
> R ALPHA TEXT = X = =
CMS048E Mode = is not valid
R(00024);
> R = TEXT AA X = =
CMS062E Name = is not valid
R(00020);
> R ALPHA TEXT A * = =
CMS062E Name * is not valid
R(00020);
> R ALPHA TEXT A X Y! B
CMS062E Name Y! is not valid
R(00020);
> R ALPHA TEXT A X TEXT A Y (BLUE
CMS070E Operand Y is not valid
R(00024);
> R ALPHA TEXT A X TEXT B Y
CMS048E Mode B is not valid
R(00024);
> R NONE TEXT B X TEXT B (BLUE
CMS003E Option BLUE is not valid
R(00024);
> R ALPHA TEXT A X TEXT A (U
CMS003E Option U is not valid
R(00024);
> R ALPHA TEXT A X TEXT (BLUE
CMS054E Operand is missing
R(00024);
> R ALPHA TEXT A X
CMS054E Operand is missing
R(00024);
> R ALPHA TEXT A
CMS054E Operand is missing
R(00024);
> R ALPHA TEXT
CMS054E Operand is missing
R(00024);
> RENAME
CMS054E Operand is missing
R(00024);
# texts: 191,512,ro,A 192,512,rw,B
> R NONE TEXT A X = =
CMS037E Disk A is read-only
R(00036);
> R ALPHA TEXT A BETA DATA =
CMS037E Disk A is read-only
R(00036);
";

const SESSIONS: &str = "# rows
> ACCESS 192 B
R;
> ERASE AB FILE A
R;
> LISTFILE A%* F* * (FORMAT NOHEADER
AC       FILE     A1 V     5
AD       FILE     A1 V     5
AZ       FORM     B1 V     5
R;
> LISTFILE * * A
BX       FILE     A1
AC       FILE     A1
AD       FILE     A1
R;
# rows
> ACCESS 192 B/A
CMS723I B (192) R/O
R;
> STATE AZ FORM A
R;
> TYPE AZ FORM
OTHER
R;
> LISTFILE A* * A (FNAME
AB
AC
AD
A
AZ
R;
> ERASE AZ FORM A
CMS002E File AZ FORM A not found
R(00028);
> ERASE AZ FORM B
CMS037E Disk B is read-only
R(00036);
> RENAME AZ FORM A X = =
CMS002E File AZ FORM A not found
R(00028);
# two files
> RENAME A FILE A B FILE A
CMS024E File B FILE A already exists
R(00028);
> RENAME A FILE A = = A2
R;
> LISTFILE
A        FILE     A2
B        FILE     A1
R;
# one file
> FROB
CMS001E Unknown command FROB
R(-0003);
> TYPE A FILE A 2
CMS070E Operand 2 is not valid
R(00024);
> TYPE A! FILE A
CMS062E Name A! is not valid
R(00020);
> LISTFILE (BLUE
CMS003E Option BLUE is not valid
R(00024);
> ACCESS 199 C
CMS113E Device 199 does not exist
R(00036);
> ERASE A FILE B
CMS069E Disk B is not accessed
R(00036);
# empty + hidden
> ACCESS 192 B
R;
> LISTFILE * * B (FTYPE
P        PRIV
Q        OPEN
R;
> ACCESS 192 B/B
CMS723I B (192) R/O
R;
> LISTFILE * * B (FTYPE
Q        OPEN
R;
";

// The calls of the world in sessions of one line on the texts: each file of a change is written and synced before it is typed, and that
// before the next; the script is read again where no line is left.
const CALLS: &str = "# texts
> STATE ALPHA TEXT
R;
! Done aarrrrrinoi
# texts
> EXECIO 0 DISKW Z FILE A
R;
! Done aarrrrrinoi
# texts
> LISTFILE
ALPHA    TEXT     A1
BETA     DATA     A2
ALSO     TEXT     A0
R;
! Done aarrrrrinooooi
# texts
> LISTFILE (STACK
R;
CMS001E Unknown command ALPHA
R(-0003);
CMS001E Unknown command BETA
R(-0003);
CMS001E Unknown command ALSO
R(-0003);
! Done aarrrrrinonoonoonooi
# texts
> LISTFILE (EXEC
R;
! Done aarrrrrinwwwswsoi
# texts
> ERASE * * A
R;
! Done aarrrrrinwwswswwswswwswsoi
# texts
> ERASE * * A (TYPE
ALPHA TEXT A1
BETA DATA A2
ALSO TEXT A0
R;
! Done aarrrrrinwwswsowwswsowwswsooi
# texts
> RENAME * TEXT A = NEW = (TYPE
ALPHA NEW A1
ALSO NEW A0
R;
! Done aarrrrrinwswsowswsooi
# texts
> RENAME ALPHA TEXT A BETA DATA A
CMS024E File BETA DATA A already exists
R(00028);
! Done aarrrrrinooi
# texts
> TYPE BETA DATA
A
BC
DEF
GHIJ
R;
! Done aarrrrrinroooooi
";

// A doubt, here of the second sync of an erasure, ends with an access.
const DOUBTED: &str = "# one file: 191,512,rw,A
^ 12 dropped
> ERASE A FILE A
CMS105E Device fault on 191
R(00100);
> STATE A FILE A
CMS069E Disk A is not accessed
R(00036);
> ACCESS 191 A
R;
> LISTFILE
CMS002E File * * A not found
R(00028);
# one file: 191,512,rw,A
^ 12 landed
> ERASE A FILE A
CMS105E Device fault on 191
R(00100);
> STATE A FILE A
CMS069E Disk A is not accessed
R(00036);
> ACCESS 191 A
R;
> LISTFILE
CMS002E File * * A not found
R(00028);
";

#[test]
fn files_are_told_typed_and_changed(rt: HostRuntime) -> Result<(), Fail> {
    check_sessions(
        &rt,
        rt.alloc(),
        &[STATED, TYPED, ERASED, RENAMED, SESSIONS, CALLS, DOUBTED],
    )
}
