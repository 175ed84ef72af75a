// Whole sessions, as transcripts.
use crate::transcript::check_sessions;
use crate::trial::{Trial, check_trials};
use std::test::Fail;

const SCRIPTS: &str = "# hello: 191,512,ro,A
> TYPE HELLO TEXT A
HELLO
WORLD
R;
# hello: 191,512,ro,A
> TYPE HELLO TEXT A\r\r
HELLO
WORLD
R;
>> * done
# hello: 191,512,ro,A
> TYPE NO TEXT A
CMS002E File NO TEXT A not found
R(00028);
# hello: 191,512,ro,A
> TYPE HELLO TEXT B
CMS069E Disk B is not accessed
R(00036);
# hello: 191,512,ro,A
> TYPE HELLO TEXT A
HELLO
WORLD
R;
> EXECIO 1 DISKR HELLO TEXT
R;
> TYPE HELLO TEXT A
CMS001E Unknown command HELLO
R(-0003);
HELLO
WORLD
R;
# hello: 191,512,ro,A
# hello: 191,512,ro,A
> * a comment
> 
>    
> 
>> * another
# hello, no label: 191,512,ro,A
> TYPE HELLO TEXT A
CMS069E Disk A is not accessed
R(00036);
# hello, varying: 191,512,ro,A
> TYPE HELLO TEXT A
CMS069E Disk A is not accessed
R(00036);
# hello, TYPE EXEC: 191,512,ro,A
> TYPE TYPE EXEC A
CMS086E Procedure TYPE is not run, reason 1
R(10101);
# hello: 192,512,ro,A
> TYPE HELLO TEXT A
CMS069E Disk A is not accessed
R(00036);
# hello, varying: 192,512,ro,A
# hello: 001,512,rw,A
> TYPE HELLO TEXT A
CMS069E Disk A is not accessed
R(00036);
# hello: FfF,512,ro,A
> * a comment
> ERASE HELLO TEXT A
CMS069E Disk A is not accessed
R(00036);
# hello: 191,512,ro,A
> TYPE ABCDEFGH IJKLMNOP A
CMS002E File ABCDEFGH IJKLMNOP A not found
R(00028);
> TYPE $#@+-:_0 A A
CMS002E File $#@+-:_0 A A not found
R(00028);
# hello: 191,1024,ro,A
> TYPE HELLO TEXT A
CMS069E Disk A is not accessed
R(00036);
# hello: 191,512,ro,N
> TYPE HELLO TEXT A
! World
# hello: 
> * a comment
! Usage(Syntax)
# hello: 000,512,ro,A
> * a comment
! Usage(Unit(1))
# hello: -t 191,512,ro,A
> * a comment
! Usage(Syntax)
# hello: -t 0 191,512,ro,A
> * a comment
! Usage(Turns)
# hello: -z W0060 191,512,ro,A
> * a comment
! Usage(Zone)
# hello: 191,512,ro,A 191,512,ro,N
> * a comment
! Usage(Twice(401))
# hello: -g 2147483648 191,512,ro,A
> * a comment
! Usage(Seed)
# hello: 191,512,n9,N
> TYPE HELLO TEXT A
CMS069E Disk A is not accessed
R(00036);
# hello: 191,512,ro,A
> FROB
CMS001E Unknown command FROB
R(-0003);
> frob(x
CMS001E Unknown command FROB
R(-0003);
>  * X
CMS001E Unknown command *
R(-0003);
> (
CMS001E Unknown command (
R(-0003);
> TYPES X
CMS001E Unknown command TYPES
R(-0003);
# hello: 191,512,ro,A
> ex hello
CMS002E File HELLO EXEC * not found
R(00028);
# hello: 191,512,ro,A
> COPY HELLO TEXT A = = B
CMS069E Disk B is not accessed
R(00036);
# hello: 191,512,ro,A
> TYPE HELLO\u{7} TEXT A
CMS010E Line has an invalid character
R(00020);
> * \u{7}f
CMS010E Line has an invalid character
R(00020);
# hello: -g 1 191,512,ro,A
> TYPE HELLO TEXT A
CMS037E Disk A is read-only
R(00036);
CMS001E Unknown command YES
R(-0003);
CMS001E Unknown command GEN001
R(-0003);
CMS037E Disk A is read-only
R(00036);
CMS037E Disk A is read-only
R(00036);
CMS037E Disk A is read-only
R(00036);
CMS037E Disk A is read-only
R(00036);
CMS037E Disk A is read-only
R(00036);
CMS037E Disk A is read-only
R(00036);
CMS002E File GEN EXEC * not found
R(00028);
LABEL  VDV M STA BLKSZ  FILES     USED     FREE    TOTAL
TEST01 191 A R/O   512      1        7        2        9
R;
# hello: 191,512,ro,A -t 2
> TYPE HELLO TEXT A
HELLO
WORLD
R;
> 
# hello: -t 2 191,512,ro,A
> TYPE HELLO TEXT A
HELLO
WORLD
R;
> 
> * one more
! Turns
";

// Long lines and many of them.
const LONG: &str = "# hello: 191,512,ro,A
> {**255}
> { *255}
> {**255}\r\r
> TYPE HELLO TEXT A
HELLO
WORLD
R;
>> { *255}
# hello: -t 1000 191,512,ro,A
> TYPE HELLO TEXT A
HELLO
WORLD
R;
{> *
*1000}! Turns
# hello: -t 3 191,512,ro,A
> {X*600}
CMS011E Line is longer than 255 bytes
R(00020);
# hello: -t 2 191,512,ro,A
> {X*600}
CMS011E Line is longer than 255 bytes
R(00020);
! Turns
";

// Records are typed as they are read, and no more is read than is typed.
const READ: &str = "# long records: 191,512,ro,A
> TYPE L FILE A
{A*512}
{B*512}
{C*512}
R;
! Done arrrrinrororooi
# long records: 191,512,ro,A
^ 8
> TYPE L FILE A
CMS105E Device fault on 191
R(00100);
> TYPE L FILE A
{A*512}
{B*512}
{C*512}
R;
# long records: 191,512,ro,A
^ 10
> TYPE L FILE A
{A*512}
CMS105E Device fault on 191
R(00100);
> TYPE L FILE A
{A*512}
{B*512}
{C*512}
R;
# long records: 191,512,ro,A
^ 12
> TYPE L FILE A
{A*512}
{B*512}
CMS105E Device fault on 191
R(00100);
> TYPE L FILE A
{A*512}
{B*512}
{C*512}
R;
# long records: 191,512,ro,A
> TYPE L FILE A 1 2 (COL 1-1
A
B
R;
! Done arrrrinrorooi
# long records: 191,512,ro,A
> TYPE L FILE A 2 (COL 1-1
B
C
R;
! Done arrrrinrrorooi
# long records: 191,512,ro,A
> TYPE L FILE A 4
CMS070E Operand 4 is not valid
R(00024);
! Done arrrrinooi
# spanning, stars: 191,512,ro,A
> TYPE V FILE A
{**508}A
ABC
R;
! Done arrrrrrinrorooi
# long directory: 191,512,ro,A
> TYPE G FILE A
HELLO
R;
! Done arrrrrrrrrrrrinrooi
# wide: 191,512,ro,A
> TYPE FILE0001 TEXT A
0001
R;
> TYPE FILE0020 TEXT A
0020
R;
! Done arrrrrrrrinroonrooi
";

// Volumes of each block size with a full directory block, two of them as large as one map block allows.
const WIDE: &str = "# many of 512: 191,512,rw,A
> TYPE FILE0006 TEXT A
0006
R;
> ERASE FILE0006 TEXT A
R;
> TYPE FILE0006 TEXT A
CMS002E File FILE0006 TEXT A not found
R(00028);
> TYPE FILE0001 TEXT A
{1
*512}R;
# many of 1024: 191,1024,rw,A
> TYPE FILE0014 TEXT A
0014
R;
> ERASE FILE0014 TEXT A
R;
> TYPE FILE0014 TEXT A
CMS002E File FILE0014 TEXT A not found
R(00028);
> TYPE FILE0001 TEXT A
{1
*1024}R;
# many of 2048: 191,2048,rw,A
> TYPE FILE0030 TEXT A
0030
R;
> ERASE FILE0030 TEXT A
R;
> TYPE FILE0030 TEXT A
CMS002E File FILE0030 TEXT A not found
R(00028);
> TYPE FILE0001 TEXT A
{1
*2048}R;
# many of 4096: 191,4096,rw,A
> TYPE FILE0062 TEXT A
0062
R;
> ERASE FILE0062 TEXT A
R;
> TYPE FILE0062 TEXT A
CMS002E File FILE0062 TEXT A not found
R(00028);
> TYPE FILE0001 TEXT A
{1
*4096}R;
";

#[test]
fn scripts_are_typed(rt: HostRuntime) -> Result<(), Fail> {
    check_sessions(&rt, rt.alloc(), &[SCRIPTS, LONG, READ, WIDE])
}

// A file is typed.
const TYPED: Trial = Trial {
    images: "hello",
    words: "191,512,ro,A",
    transcript: "> TYPE HELLO TEXT A
HELLO
WORLD
R;
",
    // the attaching, the opening, the script and the turn; the file's block, its records, the ready line and the script's end
    calls: b"arrrinroooi",
    look: ["191,512,ro,A", "TYPE HELLO TEXT A\n"],
    states: "# file
HELLO
WORLD
R;
",
    moments: "# 0 6 file file file file
",
    faults: "# 1 1 file file
# 2 4 file file
CMS069E Disk A is not accessed
R(00036);
# 5 6 file file
# 7 7 file file
CMS105E Device fault on 191
R(00100);
# 8 11 file file
",
};

#[test]
fn each_call_fails_in_turn(rt: HostRuntime) -> Result<(), Fail> {
    check_trials(&rt, rt.alloc(), &[TYPED])
}
