// Sessions with the editor, as transcripts.
use crate::transcript::check_sessions;
use std::test::Fail;

const EDITS: &str = "# hello
+ TALLY EDIT
> NUCXMAP
TALLY
EDIT
R;
> EDIT
R(00024);
> EDIT HELLO TEXT
R;
> EDIT
> type 2
HELLO
> next
> TYPE 2
HELLO
WORLD
> DOWN 1
?EDIT: DOWN 1
> CHANGE /ELL/IDD/
> INPUT NEW LINE
> LOCATE HELLO
?EDIT: LOCATE HELLO
> SAVE
> END
R;
> TYPE HELLO TEXT
HIDDO
NEW L
WORLD
R;
> EDIT NONE TEXT
CMS002E File NONE TEXT A not found
R(00028);
> EDIT HELLO TEXT C
CMS069E Disk C is not accessed
R(00036);
> EDIT
R(00024);
# hello
+ EDIT
> COPYFILE HELLO TEXT A COPY TEXT A
R;
> EDIT HELLO TEXT
R;
> EDIT
> NEXT
> REPLACE AGAIN
> SAVE
CMS107E Disk A is full, 2 blocks needed, 1 free
?EDIT: SAVE
> END
R;
> ERASE COPY TEXT A
R;
> EDIT
> TYPE
AGAIN
> SAVE
> END
R;
> TYPE HELLO TEXT
AGAIN
WORLD
R;
# a file is edited in place, and another is made
+ EDIT
@ P
| &TRACE OFF
| &STACK NEXT
| &STACK CHANGE /pepper/vinegar/
| &STACK SAVE
| &STACK END
| EDIT
| &TYPE &RC
> EXECIO 1 DISKW SALT TEXT A (STRING Salt and pepper
R;
> EDIT SALT TEXT A
R;
> P
0
R;
> TYPE SALT TEXT
Salt and vinegar
R;
> EDIT PLAN TEXT
CMS002E File PLAN TEXT A not found
R(00028);
> EDIT
> INPUT Monday
> INPUT Tuesday
> SAVE
> END
R;
> TYPE PLAN TEXT
Monday
Tuesday
R;
> LISTFILE PLAN TEXT A (FORMAT NOHEADER
PLAN     TEXT     A1 V     7
R;
# hello: 191,512,ro,A
+ EDIT
> EDIT HELLO TEXT
R;
> EDIT
> SAVE
CMS037E Disk A is read-only
?EDIT: SAVE
> TOP
> NEXT
> TYPE
HELLO
> END
R;
# a line of another form, with code 24
+ EDIT
> EDIT HELLO
R(00024);
> EDIT HELLO TEXT A1
R(00024);
> EDIT HELLO TEXT A (X
R(00024);
";

const SPOKEN: &str = "# a procedure speaks to the editor
+ EDIT
@ M
| &TRACE OFF
| EDIT N NOTE
| &SUBCOMMAND EDIT LOCATE BETA
| &PRESUME &SUBCOMMAND EDIT
| CHANGE /ET/OT/
| INPUT GAMMA
| SAVE
| &PRESUME
| TYPE N NOTE
> EXECIO 2 DISKW N NOTE A
> ALPHA
> BETA
R;
> M
ALPHA
BOTA
GAMMA
R;
# its error action comes by subcommands
+ EDIT
@ M
| &TRACE OFF
| &ERROR &TYPE CODE &RC
| EDIT N NOTE
| &SUBCOMMAND EDIT LOCATE BETA
| &SUBCOMMAND EDIT BOTTOM
| &PRESUME &SUBCOMMAND EDIT
| TOPP
| &SUBCOMMAND NONE X
> EXECIO 1 DISKW N NOTE A (STRING ALPHA
R;
> M
CODE 28
CODE 24
CMS122E Extension NONE does not exist
CODE 28
R;
# a save is refused, and then good; an empty line ends the editor's lines
+ EDIT
> EXECIO 1 DISKW N NOTE A (STRING ALPHA
R;
> ACCESS 191 A/A
CMS723I A (191) R/O
R;
> EDIT N NOTE
R;
> EDIT
> NEXT
> REPLACE OMEGA
> SAVE
CMS037E Disk A is read-only
?EDIT: SAVE
> 
R;
> ACCESS 191 A
R;
> EDIT
> SAVE
> END
R;
> TYPE N NOTE
OMEGA
R;
# subcommands at the buffer's edges
+ EDIT
> EXECIO 3 DISKW N NOTE A
> ALPHA
> BETA
> GAMMA
R;
> EDIT N NOTE
R;
> EDIT
> DELETE
?EDIT: DELETE
> REPLACE X
?EDIT: REPLACE X
> CHANGE /A/B/
?EDIT: CHANGE /A/B/
> UP
> TYPE 2
ALPHA
> LOCATE ALPHA
> LOCATE ALPHA
?EDIT: LOCATE ALPHA
> CHANGE xALPHAxOMEGAx
> TYPE
OMEGA
> CHANGE //B/
?EDIT: CHANGE //B/
> CHANGE /OMEGA//
?EDIT: CHANGE /OMEGA//
> BOTTOM
> NEXT 5
> TYPE 3
GAMMA
> DELETE 5
> TYPE
BETA
> INPUT {X*249}
> CHANGE /X/XXXXXXX/
> CHANGE /X/XX/
?EDIT: CHANGE /X/XX/
> TYPE
{X*255}
> END
R;
";

#[test]
fn files_are_edited(rt: HostRuntime) -> Result<(), Fail> {
    check_sessions(&rt, rt.alloc(), &[EDITS, SPOKEN])
}
