// Sessions of procedures, as transcripts: each writes its procedures first.
use crate::transcript::check_sessions;
use std::test::Fail;

const STATEMENTS: &str = "# a loop by a label
@ G
| &TRACE OFF
| -T &I = &I + 1
| &TYPE &I
| &IF &I < 2 &GOTO -T
| &EXIT 7
> G
1
2
R(00007);
# names are expanded from the right
@ T
| &TRACE OFF
| &I = 2
| &A2 = Q
| &TYPE &A&I
| &TYPE X &NOPE Y
> T
Q
X Y
R;
# arguments
@ G
| &TRACE OFF
| &TYPE &0 &N &1 &2 &3
| &ARGS X Y
| &TYPE &INDEX &1 &2 &3
> G one TWO
G 2 one TWO
2 X Y
R;
# EXEC and its arguments
@ G
| &TRACE OFF
| &TYPE &N &1
| &TYPE &ARGSTRING
> EXEC G a  b
2 a
a  b
R;
# sums and numbers
@ G
| &TRACE OFF
| &X = 5 - 7 + 1
| &TYPE &X
| &X = - 3
| &TYPE &X
| &X =
| &TYPE A&X
> G
-1
-3
A
R;
# functions
@ G
| &TRACE OFF
| &TYPE &FILENAME &FILETYPE &FILEMODE
| &X = &LEFT OF ABCDE 2
| &Y = &MULT OF 6 7
| &TYPE &X &Y
> G
G EXEC A1
AB 42
R;
# comparisons
@ G
| &TRACE OFF
| &IF 2 < 10 &TYPE NUMBERS
| &IF A2 > A10 &TYPE TEXTS
| &IF A EQ A &TYPE EQUAL
| &IF 1 = 2 &TYPE NEVER
> G
NUMBERS
TEXTS
EQUAL
R;
# a block is typed as it stands
@ G
| &TRACE OFF
| &BEGTYPE
| &I  IS  NOT
| * EXPANDED
| &END
| &TYPE LAST
> G
&I  IS  NOT
* EXPANDED
LAST
R;
# a skip down and up
@ G
| &TRACE OFF
| &SKIP 1
| &TYPE NEVER
| &I = &I + 1
| &TYPE &I
| &IF &I < 3 &SKIP -2
| &TYPE END
> G
1
2
3
END
R;
# loops in loops
@ G
| &TRACE OFF
| &LOOP 5 2
| &I = &I + 1
| &J = 0
| &LOOP 2 2
| &J = &J + 1
| &TYPE &I &J
> G
1 1
1 2
2 1
2 2
R;
# a loop while and one until
@ G
| &TRACE OFF
| &LOOP 1 WHILE &I < 3
| &I = &I + 1
| &LOOP -E UNTIL &J = 2
| &J = &J + 1
| -E &TYPE &I &J
> G
3 1
3 2
R;
# a call and its return
@ G
| &TRACE OFF
| &CALL -S A B
| &TYPE BACK &N
| &EXIT
| -S &TYPE &N &1 &2 &DEPTH &FROM
| &RETURN
> G
2 A B 1 2
BACK 0
R;
# an end past the last line
@ G
| &TRACE OFF
| &TYPE LAST
> G
LAST
R;
# an exit with a code
@ G
| &TRACE OFF
| &EXIT 99999
| &TYPE NEVER
> G
R(99999);
# an exit with a code below 0
@ G
| &TRACE OFF
| &EXIT -9999
> G
R(-9999);
# a comment and a blank line
@ G
| &TRACE OFF
| * COMMENT
| 
| &TYPE A
> G
A
R;
# lines of 253 to 255 bytes
> EXECIO 4 DISKW G EXEC A
> &TRACE OFF
> &TYPE {A*247}
> &TYPE {B*248}
> &TYPE {C*249}
R;
> G
{A*247}
{B*248}
{C*249}
R;
> {X*253}
CMS001E Unknown command {X*253}
R(-0003);
> STATE G EXEC A{ *240}
R;
> STATE G EXEC{ *242}A
R;
# many words
@ G
| &TRACE OFF
| &TYPE &N &24 &25
| &CALL -S{ B*24} C
| &X = &CONCAT OF{ D*64}
| &TYPE &X
| &EXIT
| -S &TYPE &N &24 &25
| &RETURN
> G{ A*24} Z
25 A Z
25 B C
{D*64}
R;
> EXEC G{ A*99} Z
100 A A
25 B C
{D*64}
R;
# a clock that starts on 2051-06-15 at 06:07:08
~ 2570422028
@ G
| &TRACE OFF
| &TYPE &DATE &TIME
> G
51/06/15 06:07:12
R;
> COPYFILE G EXEC A = COPY = (OLDDATE
R;
> ACCESS 191 A
R;
> LISTFILE G * A (DATE NOHEADER
G        EXEC     A1 V    17        2        1 06/15/51 06:07:09
G        COPY     A1 V    17        2        1 06/15/51 06:07:09
R;
# the date and the time
@ G
| &TRACE OFF
| &TYPE &DATE &TIME
> G
00/01/01 00:00:04
R;
";

const COMMANDS: &str = "# a command's code
@ G
| &TRACE OFF
| STATE NONE FILE A
| &TYPE &RC
| STATE G EXEC A
| &TYPE &RETCODE
> G
CMS002E File NONE FILE A not found
28
0
R;
# an unknown command
@ G
| &TRACE OFF
| NOSUCH THING
| &TYPE &RC
> G
CMS001E Unknown command NOSUCH
-3
R;
# the bare name of a procedure
@ G
| &TRACE OFF
| H
| &TYPE &RC
| EXEC H
| &TYPE &RC
@ H
| &TRACE OFF
| &TYPE IN H
| &EXIT 5
> G
CMS001E Unknown command H
-3
IN H
5
R;
> H
IN H
R(00005);
# lines that do nothing
@ G
| &TRACE OFF
| &COMMAND
| &TYPE &RC
| &COMMAND * TEXT
| &TYPE &RC
> G
0
0
R;
# an error action
@ G
| &TRACE OFF
| &ERROR &TYPE CODE &RC AT &LINE
| STATE NONE FILE A
| &TYPE NEXT
> G
CMS002E File NONE FILE A not found
CODE 28 AT 3
NEXT
R;
# an error action's command
@ G
| &TRACE OFF
| &ERROR STATE OTHER FILE A
| STATE NONE FILE A
| &TYPE NEXT &RC
> G
CMS002E File NONE FILE A not found
CMS002E File OTHER FILE A not found
NEXT 28
R;
# an action that ends the procedure
@ G
| &TRACE OFF
| &ERROR &EXIT 9
| STATE NONE FILE A
| &TYPE NEVER
> G
CMS002E File NONE FILE A not found
R(00009);
# a fault in an error action
@ G
| &TRACE OFF
| &ERROR &X = &DIV OF 1 0
| STATE NONE FILE A
> G
CMS002E File NONE FILE A not found
CMS085E Procedure G stopped at line 3 with fault 4
R(10004);
# an action that is dropped
@ G
| &TRACE OFF
| &ERROR &EXIT 9
| &ERROR
| STATE NONE FILE A
| &TYPE &RC
> G
CMS002E File NONE FILE A not found
28
R;
# a word of a function is too long
@ G
| &TRACE OFF
| &V = {A*150}
| &X = &LENGTH OF {C*120}&V
> G
CMS085E Procedure G stopped at line 3 with fault 5
R(10005);
# a procedure's file can't be read
^ 16
@ G
| &TRACE OFF
> G
CMS105E Device fault on 191
R(00100);
> G
R;
# three procedures, each with its code
@ G
| &TRACE OFF
| EXEC H
| &TYPE G &RC
| &EXIT 1
@ H
| &TRACE OFF
| EXEC I
| &TYPE H &RC
| &EXIT 2
@ I
| &TRACE OFF
| &EXIT 3
> G
H 3
G 2
R(00001);
# a fault ends one procedure alone
@ G
| &TRACE OFF
| EXEC H
| &TYPE &RC
@ H
| &TRACE OFF
| &GOTO -NONE
> G
CMS085E Procedure H stopped at line 2 with fault 7
10007
R;
# procedures end together
@ G
| &TRACE OFF
| EXEC H
@ H
| &TRACE OFF
| EXEC I
@ I
| &TRACE OFF
| &TYPE LAST
> G
LAST
R;
# a loop is tested behind a procedure's end
@ G
| &TRACE OFF
| &LOOP 1 2
| EXEC H
@ H
| &TRACE OFF
| &TYPE IN H
> G
IN H
IN H
R;
# a procedure erases itself
@ G
| &TRACE OFF
| ERASE G EXEC A
| &TYPE STILL HERE
| STATE G EXEC A
| &TYPE &RC
> G
STILL HERE
CMS002E File G EXEC A not found
28
R;
# a procedure writes and runs another
@ G
| &TRACE OFF
| &A = &LITERAL OF &TRACE OFF
| &B = &LITERAL OF &TYPE I AM NEW
| EXECIO 1 DISKW NEW EXEC A (STRING &A
| EXECIO 1 DISKW NEW EXEC A (STRING &B
| EXEC NEW
> G
I AM NEW
R;
# names are expanded in a command
@ G
| &TRACE OFF
| EXECIO 1 DISKW NEW EXEC A (STRING &TRACE OFF
| EXECIO 1 DISKW NEW EXEC A (STRING &TYPE I AM NEW
| EXEC NEW
> G
CMS086E Procedure NEW is not run, reason 1
R;
";

const COPIED: &str = "# a copy and a listing
@ G
| &TRACE OFF
| COPYFILE G EXEC A = COPY =
| LISTFILE G * A (FTYPE
> G
G        EXEC
G        COPY
R;
# new: 191,1024,n400,A 192,1024,n400,B
> FORMAT 191 A
CMS603R FORMAT will erase all files on disk A (191). Go on? Enter YES or NO
> YES
CMS605R Enter disk label
> WORK
CMS733I 400 blocks formatted on A (191)
R;
> FORMAT 192 B
CMS603R FORMAT will erase all files on disk B (192). Go on? Enter YES or NO
> YES
CMS605R Enter disk label
> BACKUP
CMS733I 400 blocks formatted on B (192)
R;
@ MAKE
| &TRACE OFF
| &LOOP 2 30
| &I = &I + 1
| EXECIO 40 DISKW S&I SOURCE A (STRING L 3,SAVE
> EXEC MAKE
R;
> COPYFILE * SOURCE A = = B (RECFM F LRECL 80
R;
> LISTFILE S30 SOURCE B (DATE
FILENAME FILETYPE FM F LRECL  RECORDS   BLOCKS DATE     TIME
S30      SOURCE   B1 F    80       40        4 01/01/00 00:01:09
R;
> QUERY DISK B
LABEL  VDV M STA BLKSZ  FILES     USED     FREE    TOTAL
BACKUP 192 B R/W  1024     30      158      242      400
R;
# new: -g 2 191,1024,n3000,A
CMS603R FORMAT will erase all files on disk A (191). Go on? Enter YES or NO
CMS605R Enter disk label
CMS733I 3000 blocks formatted on A (191)
R;
R;
R;
R;
R;
R;
R;
R;
LABEL  VDV M STA BLKSZ  FILES     USED     FREE    TOTAL
GEN001 191 A R/W  1024     53      167     2833     3000
R;
";

#[test]
fn procedures_run(rt: HostRuntime) -> Result<(), Fail> {
    check_sessions(&rt, rt.alloc(), &[STATEMENTS, COMMANDS, COPIED])
}
