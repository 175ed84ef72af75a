// Sessions with decks of cards, as transcripts.
use crate::transcript::check_sessions;
use std::test::Fail;

// A file goes from a disk to another as it is. What was dumped can be punched as cards again, but for a changed one.
const DUMPED: &str = "# one file + blank
> ACCESS 192 B
R;
> DISK DUMP A FILE A
R;
> DISK LOAD B
R;
> TYPE A FILE B
HELLO
R;
> DISK LOAD B
CMS124E Reader is empty
R(00028);
> DISK DUMP A FILE
R;
> READCARD DUMP CARDS B
R;
> ERASE A FILE B
R;
> PUNCH DUMP CARDS B (NOHEADER
R;
> DISK LOAD B5
R;
> LISTFILE A FILE B (FORMAT NOHEADER
A        FILE     B1 V     5
R;
> PUNCH DUMP CARDS B
R;
> DISK LOAD B
CMS125E Deck is not a dump
R(00032);
> READCARD AGAIN CARDS B
R;
> COPYFILE AGAIN CARDS B LOW CARDS B (LOWCASE
R;
> PUNCH LOW CARDS B (NOHEADER
R;
> DISK LOAD B
CMS125E Deck is not a dump
R(00032);
";

// Records as cards, with a header and without one; a file that is there keeps its number.
const PUNCHED: &str = "# texts
> READCARD C CARDS
CMS124E Reader is empty
R(00028);
> PUNCH ALPHA TEXT
R;
> PU BETA DATA (NOHEADER
R;
> PUNCH ALPHA TEXT A (NOHEADER HEADER
R;
> DISK LOAD
CMS125E Deck is not a dump
R(00032);
> READ C CARDS
R;
> TYPE C CARDS
HELLO{ *75}
WORLD{ *75}
R;
> LISTFILE C CARDS A (FORMAT NOHEADER
C        CARDS    A1 F    80
R;
> READCARD D CARDS A2
R;
> TYPE D CARDS
A{ *79}
BC{ *78}
DEF{ *77}
GHIJ{ *76}
R;
> READCARD D CARDS A4
R;
> LISTFILE D CARDS A (FORMAT NOHEADER
D        CARDS    A2 F    80
R;
> READCARD D CARDS
CMS124E Reader is empty
R(00028);
# texts
> EXECIO 1 DISKW TOLD FILE A (STRING :READ  X
R;
> PUNCH TOLD FILE (NOHEADER
R;
> READCARD C CARDS
R;
> TYPE C CARDS
:READ  X{ *72}
R;
> PUNCH TOLD FILE
R;
> READCARD C CARDS
R;
> TYPE C CARDS
:READ  X{ *72}
R;
> EXECIO 1 DISKW TOLD FILE A (STRING Y
R;
> PUNCH TOLD FILE (NOHEADER
R;
> READCARD C CARDS
R;
> TYPE C CARDS
Y{ *79}
R;
";

// Records may fill a card and no more, but for those that are dumped.
const WIDE: &str = "# blank
> EXECIO 1 DISKW WIDE FILE A (STRING {X*80}
R;
> PUNCH WIDE FILE (NOHEADER
R;
> READCARD C CARDS
R;
> TYPE C CARDS
{X*80}
R;
> EXECIO 1 DISKW WIDE FILE A (STRING {Y*81}
R;
> PUNCH WIDE FILE
CMS123E File has records longer than 80
R(00032);
> DISK DUMP WIDE FILE
R;
> ERASE WIDE FILE
R;
> DISK LOAD
R;
> TYPE WIDE FILE
{X*80}
{Y*81}
R;
";

// A dump has a card for each 72 bytes of its text, of which 37 are its header.
const PIECES: &str = "# blank
> EXECIO 1 DISKW A FILE A (STRING {X*33}
R;
> EXECIO 1 DISKW B FILE A (STRING {X*34}
R;
> EXECIO 1 DISKW C FILE A (STRING {X*105}
R;
> EXECIO 1 DISKW D FILE A (STRING {X*106}
R;
> DISK DUMP A FILE
R;
> DISK DUMP B FILE
R;
> DISK DUMP C FILE
R;
> DISK DUMP D FILE
R;
> READCARD ON CARDS
R;
> LISTFILE ON CARDS A (ALLOC NOHEADER
ON       CARDS    A1 F    80        1        1
R;
> READCARD ON CARDS
R;
> LISTFILE ON CARDS A (ALLOC NOHEADER
ON       CARDS    A1 F    80        2        1
R;
> READCARD ON CARDS
R;
> LISTFILE ON CARDS A (ALLOC NOHEADER
ON       CARDS    A1 F    80        2        1
R;
> READCARD ON CARDS
R;
> LISTFILE ON CARDS A (ALLOC NOHEADER
ON       CARDS    A1 F    80        3        1
R;
> PUNCH ON CARDS (NOHEADER
R;
> ERASE D FILE
R;
> DISK LOAD
R;
> TYPE D FILE
{X*106}
R;
";

// There are 20 decks, and no further one, until one is taken.
const FILLED: &str = "# texts
{> PUNCH ALPHA TEXT
R;
*20}> PUNCH BETA DATA
CMS120E Limit 6 reached
R(00040);
> DISK DUMP BETA DATA
CMS120E Limit 6 reached
R(00040);
> DISK LOAD
CMS125E Deck is not a dump
R(00032);
> PUNCH BETA DATA
CMS120E Limit 6 reached
R(00040);
> READCARD C CARDS
R;
> PUNCH BETA DATA
R;
> PUNCH BETA DATA
CMS120E Limit 6 reached
R(00040);
{> READCARD C CARDS
R;
*20}> TYPE C CARDS (COL 1-4
A{ *3}
BC{ *2}
DEF{ *1}
GHIJ
R;
> READCARD C CARDS
CMS124E Reader is empty
R(00028);
";

// Nothing is erased, whatever its mode number, and a number goes with a dump, also over a file that is there.
const KEPT: &str = "# once + blank
> ACCESS 192 B
R;
> PUNCH P FILE
R;
> DISK DUMP W FILE
R;
> DISK DUMP K FILE
R;
> STATE P FILE A3
R;
> STATE W FILE A3
R;
> READCARD C CARDS B3
R;
> EXECIO 1 DISKW W FILE B (STRING OLD
R;
> LISTFILE W FILE B (FORMAT NOHEADER
W        FILE     B1 V     3
R;
> DISK LOAD B
R;
> DISK LOAD B
R;
> LISTFILE C CARDS B (FORMAT NOHEADER
C        CARDS    B3 F    80
R;
> LISTFILE W FILE B (FORMAT NOHEADER
W        FILE     B3 F     5
R;
> LISTFILE K FILE B (FORMAT NOHEADER
K        FILE     B4 V     1
R;
";

// What is refused, in which order.
const REFUSED: &str = "# once
> PUNCH
CMS054E Operand is missing
R(00024);
> PUNCH P FILE A X
CMS070E Operand X is not valid
R(00024);
> PUNCH P FILE A (CARD
CMS003E Option CARD is not valid
R(00024);
> PUNCH P FILE D
CMS069E Disk D is not accessed
R(00036);
> PUNCH NO FILE
CMS002E File NO FILE A not found
R(00028);
> READCARD X
CMS054E Operand is missing
R(00024);
> READCARD X FILE *
CMS048E Mode * is not valid
R(00024);
> READCARD X FILE A (HEADER
CMS003E Option HEADER is not valid
R(00024);
> READCARD X FILE D
CMS069E Disk D is not accessed
R(00036);
> DISK
CMS054E Operand is missing
R(00024);
> DISK LOOK
CMS070E Operand LOOK is not valid
R(00024);
> DISK DUMP P
CMS054E Operand is missing
R(00024);
> DISK DUMP NO FILE
CMS002E File NO FILE A not found
R(00028);
> DISK LOAD *
CMS048E Mode * is not valid
R(00024);
> DISK LOAD D
CMS069E Disk D is not accessed
R(00036);
> DISK LOAD A X
CMS070E Operand X is not valid
R(00024);
> P
CMS001E Unknown command P
R(-0003);
> REA
CMS001E Unknown command REA
R(-0003);
> DIS
CMS001E Unknown command DIS
R(-0003);
# once: 191,512,ro,A
> READCARD X FILE
CMS037E Disk A is read-only
R(00036);
> DISK LOAD
CMS037E Disk A is read-only
R(00036);
> PUNCH P FILE
R;
> READCARD X FILE
CMS037E Disk A is read-only
R(00036);
# once, none free + blank
> PUNCH P FILE
R;
> READCARD X FILE
CMS107E Disk A is full, 2 blocks needed, 0 free
R(00100);
> ACCESS 192 B
R;
> READCARD X FILE B
R;
> TYPE X FILE B
X{ *79}
Y{ *79}
R;
";

// Decks stay from a procedure's statement to the next, and from a procedure to another.
const RUN: &str = "# texts
@ OUT
| &TRACE OFF
| PUNCH &1 &2
| &EXIT 7
@ IN
| &TRACE OFF
| READCARD NO FILE D
| &TYPE &RC
| READCARD &1 CARDS
| &TYPE &RC
> OUT ALPHA TEXT
R(00007);
> IN X
CMS069E Disk D is not accessed
36
0
R;
> IN X
CMS069E Disk D is not accessed
36
CMS124E Reader is empty
28
R;
> TYPE X CARDS
HELLO{ *75}
WORLD{ *75}
R;
";

#[test]
fn files_go_by_cards(rt: HostRuntime) -> Result<(), Fail> {
    check_sessions(
        &rt,
        rt.alloc(),
        &[DUMPED, PUNCHED, WIDE, PIECES, FILLED, KEPT, REFUSED, RUN],
    )
}
