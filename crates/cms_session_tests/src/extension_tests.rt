// Sessions with extensions, as transcripts.
use crate::extensions::push;
use crate::transcript::{check_sessions, passed};
use cms_ext::ExtList;
use std::alloc::{AllocError, Global};
use std::test::Fail;

const TALLIES: &str = "# a tally is asked and dropped
+ TALLY
> TALLY
TALLY 1
R;
> tally again
TALLY 2
R;
> NUCXMAP
TALLY
R;
> NUCXDROP TALLY
R;
> TALLY
CMS001E Unknown command TALLY
R(-0003);
> NUCXMAP
R;
> NUCXDROP TALLY
CMS122E Extension TALLY does not exist
R(00028);
# operands
+ TALLY TYPE
> NUCXDROP NONE
CMS122E Extension NONE does not exist
R(00028);
> NUCXDROP
CMS054E Operand is missing
R(00024);
> NUCXDROP TALLY TALLY
CMS070E Operand TALLY is not valid
R(00024);
> NUCXDROP A!
CMS062E Name A! is not valid
R(00020);
> NUCXDROP TALLY (ALL
CMS003E Option ALL is not valid
R(00024);
> NUCXMAP X
CMS070E Operand X is not valid
R(00024);
> NUCXMA
CMS001E Unknown command NUCXMA
R(-0003);
> nucxmap
TALLY
TYPE
R;
# a command is hidden by an extension, also NUCXDROP
+ TYPE NUCXDROP
> TYPE HELLO TEXT
TALLY 1
R;
> NUCXDROP TYPE
TALLY 1
R;
# each has a count of its own, also behind one that was dropped
+ A B C
> B
TALLY 1
R;
> NUCXDROP A
R;
> C
TALLY 1
R;
> B
TALLY 2
R;
> NUCXMAP
B
C
R;
# a procedure drops it
+ TALLY
@ P
| &TRACE OFF
| TALLY
| NUCXDROP TALLY
| TALLY
| &EXIT &RC
> P
TALLY 1
CMS001E Unknown command TALLY
R(-0003);
# a procedure comes first where CMS takes the line
+ TALLY
@ TALLY
| &TRACE OFF
| &TYPE THE PROCEDURE
| TALLY
> TALLY
THE PROCEDURE
TALLY 1
R;
";

const ASKING: &str = "# lines are asked for
+ NOTE
> NOTE
> One
One
> Two
Two
> END
R(00007);
> NOTE
> Three
Three
R(00007);
# a stacked line comes before the console's
+ NOTE
@ P
| &TRACE OFF
| &STACK HELLO
| NOTE
| &TYPE &RC
> P
HELLO
> END
7
R;
# no turn is left for the third reply: -t 3 191,512,rw,A
+ NOTE
> NOTE
> One
One
> Two
! Turns
";

const SENT: &str = "# texts are sent to an extension
+ PAD
@ P
| &TRACE OFF
| &SUBCOMMAND PAD Hello  World
| &TYPE &RC
| &SUBCOMMAND pad again
| &SUBCOMMAND PAD
| &EXIT &RC
> P
Hello World
0
again
R(00028);
# commands go to it, until they go to CMS again
+ PAD TALLY
@ P
| &TRACE OFF
| &PRESUME &SUBCOMMAND pad
| TALLY
| STATE NONE EXEC A
| &COMMAND TALLY
| &SUBCOMMAND TALLY X
| &TYPE &RC
| * a comment
| &NOPE
| &TYPE &RC
| &PRESUME
| TALLY
| &PRESUME &SUBCOMMAND PAD
| &PRESUME &COMMAND
| TALLY
> P
TALLY
STATE NONE EXEC A
TALLY 1
24
28
TALLY 2
TALLY 3
R;
# there is none, or none any more
+ PAD
@ P
| &TRACE OFF
| &SUBCOMMAND NONE X
| &TYPE &RC
| &SUBCOMMAND a!b X
| &SUBCOMMAND MORETHANEIGHT X
| &PRESUME &SUBCOMMAND PAD
| HELLO
| &COMMAND NUCXDROP PAD
| HELLO
| &TYPE &RC
| PAD
> P
CMS122E Extension NONE does not exist
28
CMS122E Extension A!B does not exist
CMS122E Extension MORETHANEIGHT does not exist
HELLO
CMS122E Extension PAD does not exist
28
CMS122E Extension PAD does not exist
R;
# a text's code starts the error action, and a text without a code other than 0 doesn't
+ PAD
@ P
| &TRACE OFF
| &ERROR &TYPE BAD &RC
| &SUBCOMMAND PAD X
| &SUBCOMMAND PAD
| &PRESUME &SUBCOMMAND NONE
| Y
| &ERROR Z
| W
> P
X
BAD 28
CMS122E Extension NONE does not exist
BAD 28
CMS122E Extension NONE does not exist
CMS122E Extension NONE does not exist
R;
# an extension that asks for lines within a procedure's text
+ NOTE PAD
@ Q
| &TRACE OFF
| &COMMAND NOTE
| &TYPE &RC
| EXEC NONE
@ P
| &TRACE OFF
| &PRESUME &SUBCOMMAND PAD
| &COMMAND EXEC Q
| EXEC Q
> P
> One
One
> END
7
CMS002E File NONE EXEC * not found
EXEC Q
R;
# where commands go must be said in full
+ PAD
@ P
| &TRACE OFF
| &PRESUME PAD
> P
CMS085E Procedure P stopped at line 2 with fault 6
R(10006);
# the first call is in the statement's turn, the second has one of its own: -t 7 191,512,rw,A
+ PAD
@ P
| &TRACE OFF
| &SUBCOMMAND PAD X
| &TYPE Y
> P
X
! Turns
# that is enough: -t 8 191,512,rw,A
+ PAD
@ P
| &TRACE OFF
| &SUBCOMMAND PAD X
| &TYPE Y
> P
X
Y
R;
";

const FILES: &str = "# hello
+ CARRY
> CARRY HELLO TEXT A COPY TEXT A
R;
> TYPE COPY TEXT A
HELLO
WORLD
R;
> CARRY HELLO TEXT A COPY TEXT A
CMS107E Disk A is full, 2 blocks needed, 1 free
R(00100);
> ERASE HELLO TEXT A
R;
> CARRY COPY TEXT A COPY TEXT A
R;
> TYPE COPY TEXT A
HELLO
WORLD
R;
> CARRY NONE TEXT A COPY TEXT A
CMS002E File NONE TEXT A not found
R(00028);
> CARRY COPY TEXT C COPY TEXT A
CMS069E Disk C is not accessed
R(00036);
> CARRY COPY TEXT A COPY TEXT C
CMS069E Disk C is not accessed
R(00036);
# hello: 191,512,ro,A
+ CARRY
> CARRY HELLO TEXT A COPY TEXT A
CMS037E Disk A is read-only
R(00036);
# hello
^ 8
+ CARRY
> CARRY HELLO TEXT A COPY TEXT A
CMS105E Device fault on 191
R(00100);
> STATE COPY TEXT A
CMS002E File COPY TEXT A not found
R(00028);
# hello
^ 10
+ CARRY
> CARRY HELLO TEXT A COPY TEXT A
CMS105E Device fault on 191
R(00100);
> STATE COPY TEXT A
CMS002E File COPY TEXT A not found
R(00028);
# hello
+ HEAP
> HEAP LONG TEXT A
CMS120E Limit 3 reached
R(00040);
> STATE LONG TEXT A
CMS002E File LONG TEXT A not found
R(00028);
";

#[test]
fn extensions_answer_their_lines(rt: HostRuntime) -> Result<(), Fail> {
    check_sessions(&rt, rt.alloc(), &[TALLIES, ASKING, SENT, FILES])
}

// Whether a word is taken once.
fn taken_once(alloc: Global) -> Result<bool, AllocError> {
    let mut extensions = ExtList::new(alloc);
    let first = push(alloc, &mut extensions, "TALLY")?;
    let second = push(alloc, &mut extensions, "TALLY")?;
    Ok(first && !second && extensions.len() == 1)
}

#[test]
fn a_second_tally_comes_back(rt: HostRuntime) -> Result<(), Fail> {
    let taken_once = taken_once(rt.alloc()).expect(&rt, "memory");
    passed(if taken_once { "" } else { "taken twice" })
}
