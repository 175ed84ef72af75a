// Sessions of procedures and the program stack, as transcripts.
use crate::transcript::check_sessions;
use std::test::Fail;

const STACKED: &str = "# a stacked line is a command
@ S
| &TRACE OFF
| &STACK LISTFILE * * A
> EXEC S
R;
S        EXEC     A1
R;
> STATE S EXEC A
R;
# a stacked line is in front of the script
@ G
| &TRACE OFF
| &STACK STATE NONE FILE A
> G
R;
CMS002E File NONE FILE A not found
R(00028);
> STATE G EXEC A
R;
# lines are stacked at both ends
@ G
| &TRACE OFF
| &STACK A
| &STACK LIFO B
| &STACK FIFO C
> G
R;
CMS001E Unknown command B
R(-0003);
CMS001E Unknown command A
R(-0003);
CMS001E Unknown command C
R(-0003);
# a block is stacked in front
@ G
| &TRACE OFF
| &BEGSTACK LIFO
| A
| B
| &END
> G
R;
CMS001E Unknown command B
R(-0003);
CMS001E Unknown command A
R(-0003);
# a block is stacked behind
@ G
| &TRACE OFF
| &BEGSTACK
| A
| B
| &END
> G
R;
CMS001E Unknown command A
R(-0003);
CMS001E Unknown command B
R(-0003);
# a stacked line is read
@ G
| &TRACE OFF
| &STACK ONE TWO
| &READ ARGS
| &TYPE &N &2
> G
2 TWO
R;
# a line of the script is read
@ G
| &TRACE OFF
| &READ STRING &X
| &TYPE &X
> G
> some  text
some  text
R;
# words are read into variables
@ G
| &TRACE OFF
| &READ VARS &A &B &C
| &TYPE &B / &C /
> G
> ONE TWO
TWO / /
R;
# a line that is not printable is asked for again
@ G
| &TRACE OFF
| &READ STRING &X
| &TYPE &X
> G
> A\u{7}B
CMS010E Line has an invalid character
> GOOD
GOOD
R;
# records are read from where the last reading stopped
@ G
| &TRACE OFF
| EXECIO 1 DISKR G EXEC A 4
| &READ STRING &X
| EXECIO 1 DISKR G EXEC A
| &READ STRING &Y
| &TYPE &X / &Y
> G
EXECIO 1 DISKR G EXEC A / &READ STRING &Y
R;
# a reading place is forgotten by FINIS
@ G
| &TRACE OFF
| EXECIO 1 DISKR G EXEC A 3 (FINIS
| &READ STRING &X
| EXECIO 1 DISKR G EXEC A
| &READ STRING &Y
| &TYPE &Y
> G
&TRACE OFF
R;
# and by an update of the file
@ G
| &TRACE OFF
| EXECIO 1 DISKR H DATA A
| &READ STRING &X
| EXECIO 1 DISKW H DATA A (STRING THIRD
| EXECIO 1 DISKR H DATA A
| &READ STRING &Y
| &TYPE &X &Y
> EXECIO 1 DISKW H DATA A (STRING FIRST
R;
> EXECIO 1 DISKW H DATA A (STRING SECOND
R;
> G
FIRST FIRST
R;
# and by a release of its disk
@ G
| &TRACE OFF
| EXECIO 1 DISKR H DATA A
| &READ STRING &X
| RELEASE A
| ACCESS 191 A
| EXECIO 1 DISKR H DATA A
| &READ STRING &Y
| &TYPE &X &Y
> EXECIO 1 DISKW H DATA A (STRING FIRST
R;
> EXECIO 1 DISKW H DATA A (STRING SECOND
R;
> G
FIRST FIRST
R;
# and by a ready line
@ G
| &TRACE OFF
| EXECIO 1 DISKR G EXEC A
| &READ STRING &X
| &TYPE &X
> G
&TRACE OFF
R;
> G
&TRACE OFF
R;
# the end of a file
@ G
| &TRACE OFF
| EXECIO 1 DISKR G EXEC A 9
| &TYPE &RC
> G
2
R;
";

const FORMATTED: &str = "# a procedure formats its own disk
@ G
| &TRACE OFF
| &STACK YES
| &STACK NEWVOL
| FORMAT 191 A
| &TYPE STILL HERE
| LISTFILE
| &TYPE &RC
> G
CMS603R FORMAT will erase all files on disk A (191). Go on? Enter YES or NO
CMS605R Enter disk label
CMS733I 24 blocks formatted on A (191)
STILL HERE
CMS002E File * * A not found
28
R;
# a script that ends in a read
@ G
| &TRACE OFF
| &READ ARGS
| &TYPE &N
> G
0
R;
";

#[test]
fn lines_are_stacked_and_read(rt: HostRuntime) -> Result<(), Fail> {
    check_sessions(&rt, rt.alloc(), &[STACKED, FORMATTED])
}
