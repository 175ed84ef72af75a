// Procedures and what they want, by the rules of VM/SP EXEC 2.
use crate::exec2::shared::procedure_of;
use crate::texts::{file_name, short};
use cms_cases::{Report, number};
use cms_fields::Moment;
use cms_text::Lines;
use exec2_parse::Procedure;
use exec2_run::{Exec, FileName, Side, Want};
use std::alloc::Global;
use std::process::Abort;

// A procedure and what it wants, `CALLED # LINES # ANSWERS => WANTED`, or with `# turns` before the arrow how many turns it takes too, of
// which there are at most as many as stand behind that word, if a number does. The lines stand between semicolons, behind a first line
// `&TRACE OFF`, where `@N text` is N lines of that text; the answers are `r text` to a read, `c code` to a command, and `f` where the
// stack is full.

/// Typing and expansion.
pub const TYPING: &str = "\
 # &TYPE HELLO # # turns => say [HELLO];end 0;turns 2
 # &type hello World # => say [hello World];end 0
 # &TYPE # => say [];end 0
 # &TYPE A    B # => say [A B];end 0
 # &TYPE &NOPE A &NOPE B # => say [A B];end 0
 # &X = 5;&TYPE &X # # turns => say [5];end 0;turns 3
 # &I = 2;&A2 = Q;&TYPE &A&I # => say [Q];end 0
 # &I = 2;&A2 = Q;&TYPE &A&I;&TYPE X &NOPE Y # # turns => say [Q];say [X Y];end 0;turns 5
 # &I = 2;&A&I = Q;&TYPE &A2 # => say [Q];end 0
 # & = 5;&TYPE & # => say [5];end 0
 # &X = Y;&XY = Z;&TYPE A&X &X&X # => say [AY Z];end 0
 # &X = &LITERAL OF &Y;&Y = 3;&TYPE &X # => say [&Y];end 0
 # &TYPE A&BLANK # => say [A ];end 0
 # &x = 1;&TYPE &X &x # => say [1 1];end 0
 # &X = &LEFT OF A 200;&TYPE &X &X # => fail 5 3";

/// Lines that do nothing.
pub const NOTHING: &str = "\
 # ;* a comment;-L;&TYPE A # # turns => say [A];end 0;turns 5
 # &TRACE ON X &Y # # turns => end 0;turns 2
 # &END X # => end 0
 # &TRACE = 5;&TYPE &TRACE # => say [5];end 0
 # &TYPE = 5;&TYPE &TYPE # => say [5];end 0";

/// Assignment.
pub const ASSIGNMENT: &str = "\
 # &X = &A &B c;&TYPE &X # => say [c];end 0
 # &X = &A + &B;&TYPE &X # => say [+];end 0
 # &X = Z;&X =;&TYPE A &X B # => say [A B];end 0
 # &X = 1 + 2;&Y = 7 - 10;&Z = - 5;&TYPE &X &Y &Z # => say [3 -3 -5];end 0
 # &X = &NOPE + 5;&Y = 007;&Z = 007 + 0;&TYPE &X &Y &Z # => say [5 007 7];end 0
 # &S = -;&X = 5 &S 3;&TYPE &X # => say [2];end 0
 # &X = 5 + &NOPE # => fail 6 2
 # &X = 1 2 # => fail 6 2
 # &X = A + 1 # => fail 6 2
 # &X = 5 + + 3 # => fail 6 2
 # &X = 5 -3 # => fail 6 2
 # &X = 9223372036854775808 + 0 # => fail 6 2
 # &X = 9223372036854775807 + 1 # => fail 3 2
 # &X = 9223372036854775807 + 1 - 1 # => fail 3 2
 # &RC = 1 2 # => fail 11 2
 # &N = 1 # => fail 11 2
 # &0 = 1 # => fail 11 2
 # &01 = X;&TYPE &01 # => say [X];end 0
T A B # &1 = X;&3 = C;&TYPE &1 &2 &3 &N # => say [X B C 2];end 0
 # &A= 5 # => cmd [5];end 0";

/// Functions.
pub const FUNCTIONS: &str = "\
 # &X = &CONCAT OF A B C;&Y = &datatype of 12;&Z = &DATATYPE OF &NOPE;&TYPE &X &Y &Z # => say [ABC NUM CHAR];end 0
 # &X = &DIV OF -7 2;&Y = &DIV OF 100 5 2;&Z = &MULT OF 3 4 5;&TYPE &X &Y &Z # => say [-3 10 60];end 0
 # &X = &LEFT OF ABC 2;&Y = &RIGHT OF ABC 5;&TYPE &X &Y # => say [AB   ABC];end 0
 # &X = &LENGTH OF &NOPE;&Y = &LOCATION OF &NOPE ABC;&Z = &LOCATION OF Z ABC;&TYPE &X &Y &Z # => say [0 1 0];end 0
 # &X = &PIECE OF ABCDE 2 3;&Y = &SUBSTR OF ABC 2;&Z = &POSITION OF B A B;&TYPE &X &Y &Z # => say [BCD BC 2];end 0
 # &X = &STRING OF A &NOPE B;&Y = &TRANS OF CAB XY AB;&Z = &WORD OF 2 A B;&TYPE &X &Y &Z # => say [A B CXY B];end 0
 # &X = &LEFT OF A 3;&Y = &TRIM OF &X;&TYPE &Y # => say [A];end 0
 # &X = &DIV OF 7 0 # # turns => fail 4 2;turns 2
 # &X = &LEFT OF AB # => fail 1 2
 # &X = &LEFT OF A 1 2 # => fail 1 2
 # &X = &LEFT OF AB X # => fail 2 2
 # &X = &LEFT OF AB 256 # => fail 2 2
 # &X = &DIV OF 1 0 A # => fail 4 2
 # &X = &DIV OF A 0 # => fail 2 2
 # &X = &MULT OF 9223372036854775807 2 # => fail 3 2
 # &X = &LEFT AB 1 # => fail 6 2";

/// Commands and their codes.
pub const COMMANDS: &str = "\
 # LISTFILE * * A # # turns => cmd [LISTFILE * * A];end 0;turns 2
T ab # erase &1 file # => cmd [erase ab file];end 0
 # &COMMAND STATE X # => cmd [STATE X];end 0
 # &COMMAND # => cmd [];end 0
 # &NOPE # => cmd [];end 0
 # &FOO A # => cmd [A];end 0
 # -L * x # => cmd [* x];end 0
 # CMD;&TYPE &RC &RETCODE # c 28 => cmd [CMD];say [28 28];end 0
 # &TYPE &RC # => say [0];end 0";

/// Texts that go to an extension.
pub const EXTENSIONS: &str = "\
 # &SUBCOMMAND EDIT LOCATE  BETA;&TYPE &RC # c 3 # turns => sub [EDIT] [LOCATE BETA];say [3];end 0;turns 3
 # &subcommand edit find &NOPE x # => sub [edit] [find x];end 0
 # &E = EDIT;&SUBCOMMAND &NOPE &E &NOPE TOP # => sub [EDIT] [TOP];end 0
 # &SUBCOMMAND EDIT;&COMMAND EDIT # => sub [EDIT] [];cmd [EDIT];end 0
 # &SUBCOMMAND # => fail 6 2
 # &SUBCOMMAND &NOPE # => fail 6 2
 # &X = &LEFT OF A 200;&SUBCOMMAND E &X &X # => fail 5 3
 # &X = {A*200};&SUBCOMMAND E &X {B*54};&SUBCOMMAND E &X {B*55} # => sub [E] [{A*200} {B*54}];fail 5 4
 # &X = {A*201};&SUBCOMMAND {C*55}&X # => fail 5 3
 # &ERROR &TYPE BAD;&SUBCOMMAND E X;&TYPE NEXT # c 5 # turns => sub [E] [X];say [BAD];say [NEXT];end 0;turns 5
 # &ERROR &SUBCOMMAND E &RC;CMD;&TYPE &RC # c 5;c 7 => cmd [CMD];sub [E] [5];say [7];end 0
 # &PRESUME &SUBCOMMAND EDIT;TOP;&NOPE;&COMMAND STATE;&PRESUME;CMD # # turns => sub [EDIT] [TOP];sub [EDIT] [];cmd [STATE];cmd [CMD];end 0;turns 7
 # &presume &subcommand edit;TOP;&PRESUME &COMMAND;CMD # => sub [edit] [TOP];cmd [CMD];end 0
 # &PRESUME &SUBCOMMAND A;&SUBCOMMAND B X;Y;&PRESUME &SUBCOMMAND B &NOPE;Z # => sub [B] [X];sub [A] [Y];sub [B] [Z];end 0
 # &E = EDIT;&PRESUME &SUBCOMMAND &E;&E = F;TOP # => sub [EDIT] [TOP];end 0
 # &PRESUME &SUBCOMMAND E;&CALL -S;A;&EXIT;-S B;&PRESUME;&RETURN # => sub [E] [B];cmd [A];end 0
 # &PRESUME &SUBCOMMAND E;&IF 1 = 1 A;* B;-L C # => sub [E] [A];sub [E] [C];end 0
 # &ERROR BAD;&PRESUME &SUBCOMMAND E;CMD # c 4 => sub [E] [CMD];sub [E] [BAD];end 0
 # &PRESUME &COMMAND X # => fail 6 2
 # &PRESUME &SUBCOMMAND # => fail 6 2
 # &PRESUME &SUBCOMMAND A B # => fail 6 2
 # &PRESUME EDIT # => fail 6 2
 # &PRESUME &NOPE # => fail 6 2
 # &C = &LITERAL OF &COMMAND;&PRESUME &C # => fail 6 3
 # &X = {A*201};&PRESUME &SUBCOMMAND {C*55}&X # => fail 5 3
 # &X = {A*201};&PRESUME &SUBCOMMAND E {C*55}&X # => fail 5 3
 # &PRESUME = 5;&TYPE &PRESUME # => say [5];end 0";

/// Comparison.
pub const COMPARISON: &str = "\
 # &IF 7 = 07 &TYPE Y # => say [Y];end 0
 # &IF A eq A &TYPE Y # => say [Y];end 0
 # &IF AB < B &TYPE Y;&IF a < A &TYPE Z;&IF 1 > A &TYPE W # => say [Y];say [Z];say [W];end 0
 # &IF &NOPE = &NOPE &TYPE Y;&IF A = &NOPE &TYPE N;&IF A ^= &NOPE &TYPE Z # => say [Y];say [Z];end 0
 # &IF 10 GE 9 &TYPE Y;&IF 10 LE 9 &TYPE N;&IF -1 LT 0 &TYPE Z;&IF 3 NE 3 &TYPE N # => say [Y];say [Z];end 0
 # &IF 1 = 1 &IF 2 > 1 &TYPE Y # # turns => say [Y];end 0;turns 2
 # &IF 1 = 1 # => end 0
 # &IF 1 = 2 &GOTO # => end 0
 # &IF 1 ? 1 &TYPE Y # => fail 6 2
 # &IF 1 = # => fail 6 2
 # &OP = <;&IF 1 &OP 2 &TYPE Y # => fail 6 3
 # &IF 1 = 1 -L &TYPE X # => cmd [-L X];end 0
 # &X = &STRING OF A B;&IF &X = &X &TYPE Y # => say [Y];end 0";

/// Jumps.
pub const JUMPS: &str = "\
 # &GOTO -L;&TYPE A;-L &TYPE B # # turns => say [B];end 0;turns 3
 # -A &TYPE 1;&I = &I + 1;&IF &I = 2 &EXIT;&GOTO -A;-A &TYPE 2 # => say [1];say [2];end 0
 # -L &IF &X = 1 &EXIT 3;&X = 1;&GOTO -L # => end 3
 # &X = -L;&GOTO &X;&TYPE A;-L # => end 0
 # &GOTO -l;-L # => fail 7 2
 # &GOTO L # => fail 6 2
 # &GOTO # => fail 6 2
 # &GOTO -A B;-A # => fail 6 2
 # &GOTO -L;&BEGTYPE;-L &TYPE Q;&END # => say [Q];end 0
 # &SKIP;&TYPE A;&TYPE B # => say [B];end 0
 # &SKIP 2;&TYPE A;&TYPE B;&TYPE C # => say [C];end 0
 # &SKIP 0 # => end 0
 # &SKIP &NOPE;&TYPE A;&TYPE B # => say [B];end 0
 # &I = &I + 1;&TYPE &I;&IF &I < 3 &SKIP -2 # # turns => say [1];say [2];say [3];end 0;turns 10
 # &SKIP 1 # => fail 12 2
 # &SKIP -2 # => fail 12 2
 # &SKIP A # => fail 2 2
 # &SKIP 1 2;&TYPE A # => fail 6 2
 # -T &I = &I + 1;&TYPE &I;&IF &I < 2 &GOTO -T;&EXIT 7 # # turns => say [1];say [2];end 7;turns 8";

/// Loops.
pub const LOOPS: &str = "\
 # &LOOP 1 3;&TYPE A # # turns => say [A];say [A];say [A];end 0;turns 5
 # &LOOP 2 2;&TYPE A;&TYPE B # => say [A];say [B];say [A];say [B];end 0
 # &LOOP 1 0;&TYPE A;&TYPE B # => say [B];end 0
 # &LOOP -E 2;&TYPE A;-E &TYPE B;&TYPE C # => say [A];say [B];say [A];say [B];say [C];end 0
 # -E &LOOP -E 2;&TYPE A;-E &TYPE B # => say [A];say [B];say [A];say [B];end 0
 # -E &LOOP -E 2;&TYPE A # => fail 7 2
 # -E &TYPE A;&LOOP -E 2 # => say [A];fail 7 3
 # &LOOP 2 *;&I = &I + 1;&IF &I = 3 &EXIT &I # => end 3
 # &LOOP 2 WHILE &I < 3;&I = &I + 1;&TYPE &I # # turns => say [1];say [2];say [3];end 0;turns 8
 # &LOOP 1 WHILE 1 = 2;&TYPE A;&TYPE B # => say [B];end 0
 # &loop 1 while 1 = 2;&TYPE A # => end 0
 # &LOOP 1 UNTIL 1 = 1;&TYPE A;&TYPE B # => say [A];say [B];end 0
 # &LOOP 0 1;&TYPE A # => fail 2 2
 # &LOOP 1 -1;&TYPE A # => fail 2 2
 # &LOOP 1 A;&TYPE A # => fail 2 2
 # &LOOP -1 2;&TYPE A # => fail 7 2
 # &LOOP 1;&TYPE A # => fail 6 2
 # &LOOP # => fail 6 2
 # &LOOP 1 2 3;&TYPE A # => fail 6 2
 # &LOOP 1 &NOPE;&TYPE A # => fail 6 2
 # &LOOP 2 1;&TYPE A # => fail 12 2
 # &LOOP 1 UNTIL;&TYPE A # => fail 6 2
 # &LOOP 1 UNTIL 1 ? 2;&TYPE A # => fail 6 2
 # &LOOP 1 WHILE 1 =;&TYPE A # => fail 6 2
 # &LOOP 3 2;&TYPE A;&LOOP 1 2;&TYPE B # => say [A];say [B];say [B];say [A];say [B];say [B];end 0
 # &LOOP 2 3;&TYPE A;&GOTO -X;-X &TYPE B # => say [A];say [A];say [A];say [B];end 0
 # &LOOP 2 5;&TYPE A;&GOTO -X;&TYPE N;-X &TYPE B # => say [A];say [B];end 0
 # &LOOP 1 3;&GOTO -O;-P &TYPE X;&EXIT 9;-O &TYPE B;&GOTO -P # => say [B];say [X];end 9
 # &LOOP 3 2;&I = &I + 1;&TYPE &I;&IF &I = 1 &SKIP -2 # => say [1];say [2];say [3];end 0
 # &X = A;&LOOP 1 UNTIL PPPPPPPPPPPPPPPPPPPPPPPPPPPPPPPPPPPPPPPPPPPPPPPPPPPPPPPPPPPP&X = B;&X = &LEFT OF A 200 # => fail 5 3
 # @100 &LOOP -E 1;-E &TYPE A # # turns => say [A];end 0;turns 102
 # @101 &LOOP -E 1;-E &TYPE A # => fail 9 102
 # @100 &LOOP -E 1;&LOOP 1 0;-E &TYPE A # => end 0";

/// Calls.
pub const CALLS: &str = "\
 # &CALL -S A B;&TYPE C;&EXIT;-S &TYPE &1 &2 &N;&RETURN # => say [A B 2];say [C];end 0
T X # &CALL -S A B;&TYPE &1 &2 &N;&EXIT;-S &RETURN # => say [X 1];end 0
T A B C # &CALL -S X;&EXIT;-S &TYPE &1 &2 &3 &N;&RETURN # => say [X 1];end 0
 # &A = Q;&CALL -S &A;&EXIT;-S &TYPE &1;&RETURN # => say [Q];end 0
 # &TYPE &DEPTH &FROM;&CALL -S;&EXIT;-S &TYPE &DEPTH &FROM;&RETURN # => say [0 0];say [1 3];end 0
 # &LOOP 1 2;&CALL -S;&TYPE E;&EXIT;-S &TYPE A;&RETURN # => say [A];say [A];say [E];end 0
 # &CALL -S;&TYPE E;&EXIT;-S &LOOP 1 5;&RETURN # => say [E];end 0
 # -S &CALL -S # # turns => fail 9 2;turns 102
 # &RETURN # => fail 8 2
 # &RETURN X # => fail 8 2
 # &CALL -S;&EXIT;-S &RETURN X # => fail 6 4
 # &CALL S # => fail 6 2
 # &CALL # => fail 6 2
 # &CALL -Z # => fail 7 2";

/// The error action.
pub const ERRORS: &str = "\
 # &ERROR &TYPE BAD;CMD X;&TYPE NEXT # c 5 # turns => cmd [CMD X];say [BAD];say [NEXT];end 0;turns 5
 # &ERROR &TYPE BAD;CMD X;&TYPE NEXT # c 0 # turns => cmd [CMD X];say [NEXT];end 0;turns 4
 # &ERROR &TYPE BAD;&ERROR;CMD # c 5 => cmd [CMD];end 0
 # &ERROR &SKIP;CMD;&TYPE A;&TYPE B # c 4 => cmd [CMD];say [B];end 0
 # &ERROR &EXIT &RC;CMD # c 28 => cmd [CMD];end 28
 # &ERROR &CALL -S;CMD;&TYPE N;&EXIT;-S &TYPE &RC;&RETURN # c 7 => cmd [CMD];say [7];say [N];end 0
 # &ERROR CMD2;CMD1;&TYPE &RC # c 1;c 2 => cmd [CMD1];cmd [CMD2];say [2];end 0
 # &ERROR &GOTO -Z;CMD # c 1 => cmd [CMD];fail 7 3
 # &ERROR &X = 5;CMD;&TYPE &X # c 1 => cmd [CMD];say [5];end 0
 # &ERROR &TYPE E;&LOOP 1 2;CMD;&TYPE N # c 1;c 1 => cmd [CMD];say [E];cmd [CMD];say [E];say [N];end 0
 # &ERROR &TYPE E;CMD # c 1 => cmd [CMD];say [E];end 0
 # &ERROR &BEGTYPE;CMD;A B;&END;&TYPE N # c 1 => cmd [CMD];say [A B];say [N];end 0
 # &ERROR &TYPE &LINE;CMD # c 1 => cmd [CMD];say [3];end 0
 # &IF 1 = 1 &ERROR &TYPE E;CMD # c -3 => cmd [CMD];say [E];end 0";

/// Reading, and arguments.
pub const READING: &str = "\
 # &READ ARGS;&TYPE &1 &2 &N # r x y => read;say [x y 2];end 0
 # &read vars &A &B;&TYPE &B &A # r 1 2 3 => read;say [2 1];end 0
 # &B = Z;&READ VARS &A &B;&TYPE &A &B # r 1 => read;say [1];end 0
 # &READ STRING &S;&TYPE &S # r a  b => read;say [a  b];end 0
 # &I = 2;&READ VARS &A&I;&TYPE &A2 # r q => read;say [q];end 0
 # &READ VARS # r x => read;end 0
 # &READ # => fail 6 2
 # &READ STRING # => fail 6 2
 # &READ FOO # => fail 6 2
 # &READ VARS X # => fail 6 2
 # &READ VARS &RC # => fail 11 2
 # &B = 1;&READ STRING &A &B # => fail 6 3
 # &READ STRING &A &B;&TYPE &A # r x y => read;say [x y];end 0
 # &READ ARGS X # => fail 6 2
T A B # &ARGS;&TYPE &1 &N # => say [0];end 0
 # &X = &STRING OF A B;&ARGS &X C;&TYPE &N &1 # => say [2 A B];end 0";

/// Stacking and blocks.
pub const STACKING: &str = "\
 # &STACK A B # => stack back [A B];end 0
 # &STACK LIFO A # => stack front [A];end 0
 # &STACK fifo A # => stack back [A];end 0
 # &STACK FIFO # => stack back [];end 0
 # &X = LIFO;&STACK &X A # => stack back [LIFO A];end 0
 # &STACK A # f => stack back [A];fail 13 2
 # &BEGSTACK;A  B;* c;&END;&TYPE N # => stack back [A  B] [* c];say [N];end 0
 # &BEGSTACK LIFO;A;B;&end x # => stack front [A] [B];end 0
 # &BEGSTACK;A;&END # f => stack back [A];fail 13 2
 # &BEGTYPE;&X y;  Z;&END # => say [&X y] [  Z];end 0
 # &BEGTYPE;&END;&TYPE A # => say;say [A];end 0
 # &BEGTYPE;-L &END;&END # => say [-L &END];end 0
 # &BEGTYPE;A # => fail 10 2
 # &BEGTYPE X;&END # => fail 6 2";

/// The end.
pub const ENDS: &str = "\
 # &EXIT # => end 0
 # &EXIT -9999 # => end -9999
 # &EXIT 99999 # => end 99999
 # &EXIT 007 # => end 7
 # &EXIT &NOPE # => end 0
 # &EXIT 100000 # => fail 2 2
 # &EXIT -10000 # => fail 2 2
 # &EXIT A # => fail 2 2
 # &EXIT 5 6 # => fail 6 2";

/// Given variables.
pub const GIVEN: &str = "\
t x # &TYPE &0 &CMDSTRING;&TYPE &ARGSTRING &FILENAME &FILETYPE &FILEMODE # => say [T t x];say [x T EXEC A1];end 0
T a b c # &TYPE &INDEX &N &LINE &LINENUM # => say [3 3 2 2];end 0
T(A B # &TYPE &1 &2 &N &ARGSTRING # => say [(A B 2 (A B];end 0
T  a  b # &TYPE &ARGSTRING # => say [ a  b];end 0
 # &TYPE &DATE &TIME # => say [00/01/01 00:00:01];end 0";

/// Long lines, words and values, and many words.
pub const LONG: &str = "\
 # %253;%254;%255 # => cmd [{X*253}];cmd [{X*254}];cmd [{X*255}];end 0
 # &TYPE {A*247};&TYPE {B*248};&TYPE {C*249} # => say [{A*247}];say [{B*248}];say [{C*249}];end 0
 # &X = {A*200};&Y = &CONCAT OF &X {B*55};&TYPE &Y # => say [{A*200}{B*55}];end 0
 # &X = {A*201};&TYPE {C*54}&X;&TYPE {C*55}&X # => say [{C*54}{A*201}];fail 5 4
 # &IF {A*110} = {A*110} &TYPE Y;&IF {A*109}B < {A*110} &TYPE N # => say [Y];end 0
 # &X = &LEFT OF A 150;&IF &X = A &TYPE Y # => say [Y];end 0
 # &X = {A*120};&Y = &CONCAT OF &X {B*120};&IF &Y > &X &TYPE Y;&IF &X GE &Y &TYPE N # => say [Y];end 0
 # &X = {A*200};&Y = &CONCAT OF &X {A*54} B;&Z = &CONCAT OF &X {A*54} C;&IF &Y < &Z &TYPE Y;&IF &Y = &Z &TYPE N # => say [Y];end 0
 # &X = &CONCAT OF{ A*64};&Y = &POSITION OF B{ A*70} B;&Z = &WORD OF 65{ A*64} C;&TYPE &X &Y &Z # => say [{A*64} 71 C];end 0
T{ A*24} B # &TYPE &N &24 &25 # => say [25 A B];end 0
 # &CALL -S{ A*99} B;&EXIT;-S &TYPE &N &99 &100;&RETURN # => say [100 A B];end 0
 # &ARGS{ A*30} B;&TYPE &N &31 # => say [31 B];end 0
 # &READ ARGS;&TYPE &N &1 &31 # r{ A*30} B => read;say [31 A B];end 0
 # &READ VARS{ &A*21} &B;&TYPE &A &B # r{ X*20} Y Z => read;say [Y Z];end 0";

/// Limits.
pub const LIMITS: &str = "\
 # &LOOP 2 999;&I = &I + 1;&V&I = X;&TYPE OK # => say [OK];end 0
 # &LOOP 2 1000;&I = &I + 1;&V&I = X;&TYPE OK # => fail 14 4
 # &LOOP 2 997;&I = &I + 1;&V&I = X;&READ VARS &A &B;&TYPE &A &B # r x y => read;say [x y];end 0
 # &LOOP 2 998;&I = &I + 1;&V&I = X;&READ VARS &A &B # r x y => read;fail 14 5
 # &LOOP 2 998;&I = &I + 1;&V&I = X;&CALL -S A B;-S &RETURN # => fail 14 5
 # &LOOP 2 998;&I = &I + 1;&V&I = X;&ARGS A;&TYPE &1;&ARGS A B # => say [A];fail 14 7
T X # &LOOP 2 997;&I = &I + 1;&V&I = X;&CALL -S;&EXIT;-S &Y = 1;&Z = 2;&RETURN # => fail 14 9";

/// A jump to its own line, which takes each turn that it is given and wants nothing.
pub const ENDLESS: &str = "\
 # -L &GOTO -L # # turns 99 => ;turns 99";

// The turns that a procedure may take, where a row doesn't say how many.
const TURNS: u32 = 10_000;

// The field of a case at a place, from 0, without a blank at each end.
fn field(case: &str, place: usize) -> &str {
    let text = case.split('#').nth(place).unwrap_or("");
    let text = text.strip_prefix(' ').unwrap_or(text);
    text.strip_suffix(' ').unwrap_or(text)
}

// The file of the procedures, T EXEC A1.
fn found<R: Abort>(rt: &R) -> FileName {
    FileName {
        name: file_name(rt, &[0xE3], &[0xC5, 0xE7, 0xC5, 0xC3]),
        letter: 0,
        number: 1,
    }
}

// The procedure of these lines behind the one that turns the trace off.
fn procedure<R: Abort>(rt: &R, alloc: Global, lines: &str) -> Procedure {
    let lines = format!(in alloc; "&TRACE OFF;{lines}").expect(rt, "memory");
    procedure_of(rt, alloc, 255, lines.as_str()).expect(rt, "a procedure")
}

// A procedure that is called, by its name alone where no line is given.
fn started<R: Abort>(rt: &R, alloc: Global, called: &str, lines: &str) -> Exec {
    let called = short(rt, alloc, if called.is_empty() { "T" } else { called });
    let procedure = procedure(rt, alloc, lines);
    Exec::start(alloc, procedure, &called, &found(rt)).expect(rt, "memory")
}

// The moment of a turn, from 0: 2000-01-01 00:00:00, and a second more for each.
fn moment(turn: u32) -> Moment {
    Moment::of_epoch(946_684_800 + i64::from(turn), 0)
}

// What the procedure wants in a turn.
fn turned<R: Abort>(rt: &R, exec: &mut Exec, turn: &mut u32) -> Want {
    let now = moment(*turn);
    *turn = turn.saturating_add(1);
    exec.turn(&now).expect(rt, "memory")
}

// What the procedure wants now, which may take a turn.
fn next_want<R: Abort>(rt: &R, exec: &mut Exec, turn: &mut u32) -> Want {
    let now = moment(turn.saturating_sub(1));
    let want = exec.settle(&now).expect(rt, "memory");
    match want {
        Want::Next => turned(rt, exec, turn),
        other => other,
    }
}

// Adds a text between brackets.
fn push_text(into: &mut Report, text: &[u8]) {
    into.push_str(" [");
    into.ascii(text);
    into.push(']')
}

// Adds a word and the lines behind it, each between brackets and with a blank before it.
fn push_lines(into: &mut Report, first: &str, lines: &Lines) {
    into.push_str(first);
    for line in lines.as_slice() {
        push_text(into, line.bytes());
    }
    into.push(';')
}

// Adds a command.
fn push_command(into: &mut Report, command: &[u8]) {
    into.push_str("cmd");
    push_text(into, command);
    into.push(';')
}

// Adds a word and texts between brackets.
fn push_sub(into: &mut Report, word: &[u8], text: &[u8]) {
    into.push_str("sub");
    push_text(into, word);
    push_text(into, text);
    into.push(';')
}

fn push_ended(into: &mut Report, code: i32) {
    into.push_str("end ");
    into.value(&code)
}

// Adds what is wanted.
fn push_want(into: &mut Report, want: &Want) {
    match want {
        Want::Next => {}
        Want::Say(lines) => push_lines(into, "say", lines),
        Want::Stack(lines, Side::Front) => push_lines(into, "stack front", lines),
        Want::Stack(lines, Side::Back) => push_lines(into, "stack back", lines),
        Want::Read => into.push_str("read;"),
        Want::Command(command) => push_command(into, command.bytes()),
        Want::Sub(word, text) => push_sub(into, word.bytes(), text.bytes()),
        Want::Ended(code) => push_ended(into, *code),
        Want::Failed { number, line } => write!(into, "fail {number} {line}"),
    }
}

// The next answer, behind the letters that it begins with.
fn answer_in<'a>(answers: &mut &'a str, letters: &str) -> Option<&'a str> {
    let (first, rest) = answers.split_once(';').unwrap_or((*answers, ""));
    *answers = rest;
    first.strip_prefix(letters)
}

// What the procedure goes on with once its lines are stacked, or refused.
fn stacked(exec: &mut Exec, answers: &mut &str) -> Want {
    match answer_in(answers, "f") {
        Some(_) => exec.refuse_stack(),
        None => Want::Next,
    }
}

fn lined<R: Abort>(rt: &R, alloc: Global, exec: &mut Exec, answers: &mut &str) -> Want {
    let line = short(rt, alloc, answer_in(answers, "r ").unwrap_or(""));
    exec.take_line(&line).expect(rt, "memory")
}

fn coded_by(exec: &mut Exec, answers: &mut &str) -> Want {
    let code = answer_in(answers, "c ").unwrap_or("0");
    exec.take_code(code.parse().unwrap_or(0));
    Want::Next
}

// What the procedure goes on with where this was wanted; nothing where it has ended.
fn answered<R: Abort>(
    rt: &R,
    alloc: Global,
    exec: &mut Exec,
    want: &Want,
    answers: &mut &str,
) -> Option<Want> {
    match want {
        Want::Next | Want::Say(_) => Some(Want::Next),
        Want::Stack(_, _) => Some(stacked(exec, answers)),
        Want::Read => Some(lined(rt, alloc, exec, answers)),
        Want::Command(_) | Want::Sub(_, _) => Some(coded_by(exec, answers)),
        Want::Ended(_) | Want::Failed { .. } => None,
    }
}

// Adds what was wanted, and says what the procedure goes on with.
fn step<R: Abort>(
    into: &mut Report,
    rt: &R,
    alloc: Global,
    exec: &mut Exec,
    turn: &mut u32,
    last: Want,
    answers: &mut &str,
) -> Option<Want> {
    let want = match last {
        Want::Next => next_want(rt, exec, turn),
        other => other,
    };
    push_want(into, &want);
    let next = answered(rt, alloc, exec, &want, answers);
    drop(want);
    next
}

// Adds all that a procedure wants, and says how many turns it takes, of which there are at most so many.
fn push_wants<R: Abort>(
    into: &mut Report,
    rt: &R,
    alloc: Global,
    exec: &mut Exec,
    answers: &str,
    most: u32,
) -> u32 {
    let mut answers = answers;
    let mut turn: u32 = 0;
    let mut want = Want::Next;
    for _ in 0..most {
        match step(into, rt, alloc, exec, &mut turn, want, &mut answers) {
            Some(next) => want = next,
            None => return turn,
        }
    }
    drop(want);
    turn
}

// The most turns that a row's last field allows.
fn most_turns(last: &str) -> u32 {
    match last.strip_prefix("turns ") {
        Some(count) => number(count),
        None => TURNS,
    }
}

/// Tells what a row's procedure wants, with the turns that it takes where the row asks for these.
pub fn tell<R: Abort>(into: &mut Report, rt: &R, alloc: Global, case: &str) {
    let last = field(case, 3);
    let turns = push_wants(
        into,
        rt,
        alloc,
        &mut started(rt, alloc, field(case, 0), field(case, 1)),
        field(case, 2),
        most_turns(last),
    );
    if !last.is_empty() {
        into.push_str(";turns ");
        into.value(&turns);
    }
}
