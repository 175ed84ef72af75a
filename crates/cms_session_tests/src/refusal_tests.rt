// Sessions of procedures that end by a fault, that are refused, or whose turns run out.
use crate::session::ended;
use crate::transcript::{Transcript, check_sessions, passed};
use crate::volumes::{WORDS, world_named};
use cms_images::image_left;
use cms_session::Status;
use cms_world::MemWorld;
use std::alloc::Global;
use std::process::Abort;
use std::test::Fail;

const REFUSED: &str = "# fault 1
@ G
| &TRACE OFF
| &X = &LEFT OF A
> G
CMS085E Procedure G stopped at line 2 with fault 1
R(10001);
# fault 2
@ G
| &TRACE OFF
| &EXIT A
> G
CMS085E Procedure G stopped at line 2 with fault 2
R(10002);
# fault 3
@ G
| &TRACE OFF
| &X = 9223372036854775807 + 1
> G
CMS085E Procedure G stopped at line 2 with fault 3
R(10003);
# fault 4
@ E
| &TRACE OFF
| &X = &DIV OF 7 0
> E
CMS085E Procedure E stopped at line 2 with fault 4
R(10004);
# fault 6
@ G
| &TRACE OFF
| &X = A + 1
> G
CMS085E Procedure G stopped at line 2 with fault 6
R(10006);
# fault 7
@ G
| &TRACE OFF
| &GOTO -NONE
> G
CMS085E Procedure G stopped at line 2 with fault 7
R(10007);
# fault 8
@ G
| &TRACE OFF
| &RETURN
> G
CMS085E Procedure G stopped at line 2 with fault 8
R(10008);
# fault 9
@ G
| &TRACE OFF
| -C &CALL -C
> G
CMS085E Procedure G stopped at line 2 with fault 9
R(10009);
# fault 10
@ G
| &TRACE OFF
| &BEGTYPE
| A
> G
CMS085E Procedure G stopped at line 2 with fault 10
R(10010);
# fault 11
@ G
| &TRACE OFF
| &RC = 1
> G
CMS085E Procedure G stopped at line 2 with fault 11
R(10011);
# fault 12
@ G
| &TRACE OFF
| &LOOP 9 2
> G
CMS085E Procedure G stopped at line 2 with fault 12
R(10012);
# no name
@ G
| &TRACE OFF
> EXEC
CMS054E Operand is missing
R(00024);
> EXEC A=B
CMS062E Name A=B is not valid
R(00020);
> EXEC NONE
CMS002E File NONE EXEC * not found
R(00028);
# no procedure
@ G
| &TYPE A
> G
CMS086E Procedure G is not run, reason 1
R(10101);
> EXEC G
CMS086E Procedure G is not run, reason 1
R(10101);
# no procedure for a procedure
@ G
| &TRACE OFF
| EXEC H
| &TYPE &RC
@ H
| A
> G
CMS086E Procedure H is not run, reason 1
10101
R;
# the 51st within others
@ G
| &TRACE OFF
| &TYPE &1
| &X = &1 + 1
| EXEC G &X
| &TYPE &1 &RC
> G 50
50
51
52
53
54
55
56
57
58
59
60
61
62
63
64
65
66
67
68
69
70
71
72
73
74
75
76
77
78
79
80
81
82
83
84
85
86
87
88
89
90
91
92
93
94
95
96
97
98
99
CMS120E Limit 5 reached
99 40
98 0
97 0
96 0
95 0
94 0
93 0
92 0
91 0
90 0
89 0
88 0
87 0
86 0
85 0
84 0
83 0
82 0
81 0
80 0
79 0
78 0
77 0
76 0
75 0
74 0
73 0
72 0
71 0
70 0
69 0
68 0
67 0
66 0
65 0
64 0
63 0
62 0
61 0
60 0
59 0
58 0
57 0
56 0
55 0
54 0
53 0
52 0
51 0
50 0
R;
";

#[test]
fn procedures_are_refused(rt: HostRuntime) -> Result<(), Fail> {
    check_sessions(&rt, rt.alloc(), &[REFUSED])
}

// The procedures of sessions with few turns.
const LOOPING: &str = "@ L
| &TRACE OFF
| -L &GOTO -L
@ G
| &TRACE OFF
| EXEC H
| &TYPE NEVER
@ H
| &TRACE OFF
| &TYPE IN H
| EXEC L
";

// The words, the line, what is typed, and how many turns are spent.
const TURNS: &[(&str, &str, &str, usize)] = &[
    ("-t 100 191,512,rw,A", "EXEC L\n", "", 100),
    ("-t 1 191,512,rw,A", "L\n", "", 1),
    ("-t 5 191,512,rw,A", "G\n", "IN H\n", 5),
    ("-t 20 191,512,rw,A", "G\n", "IN H\n", 20),
];

// The image with these procedures.
fn image_of<R: Abort>(rt: &R, alloc: Global, procedures: &str) -> Vec<u8> {
    let transcript = Transcript::of(alloc, procedures);
    let mut world = world_named(rt, alloc, "", transcript.script.text());
    ended(rt, alloc, WORDS, &mut world);
    let image = image_left(alloc, &world, world.events(), u64::MAX);
    drop(world);
    image.expect(rt, "memory")
}

// How often the clock was asked in a world.
fn clocks(world: &MemWorld) -> usize {
    world.calls().iter().filter(|call| **call == b'n').count()
}

// Whether the turns of a session run out so.
fn runs_out<R: Abort>(
    rt: &R,
    alloc: Global,
    image: &[u8],
    session: &(&str, &str, &str, usize),
) -> bool {
    let (words, line, typed, turns) = *session;
    let mut world = MemWorld::new(alloc, line.as_bytes(), 0).expect(rt, "memory");
    world.add_image("A", image).expect(rt, "memory");
    let status = ended(rt, alloc, words, &mut world);
    let is_typed = world.typed() == typed.as_bytes();
    let clocks = clocks(&world);
    drop(world);
    status == Status::Turns && is_typed && clocks == turns
}

// The words of the first session whose turns run out otherwise; nothing where there is none.
fn other_words<R: Abort>(rt: &R, alloc: Global) -> &'static str {
    let image = image_of(rt, alloc, LOOPING);
    for session in TURNS {
        if !runs_out(rt, alloc, &image, session) {
            return session.0;
        }
    }
    ""
}

#[test]
fn the_turns_run_out_in_a_procedure(rt: HostRuntime) -> Result<(), Fail> {
    passed(other_words(&rt, rt.alloc()))
}
