// Sessions on several units, and such that ask for disks and release them, as transcripts.
use crate::transcript::check_sessions;
use std::test::Fail;

// An empty script is one read.
const ASKED: &str = "# empty: 191,512,rw,A
! Done arrri 1 1
# empty, last marked: 191,512,rw,A
> QUERY DISK A
LABEL  VDV M STA BLKSZ  FILES     USED     FREE    TOTAL
TEST01 191 A R/W   512      0        7        2        9
R;
# hello: 191,512,ro,A
> query disk
LABEL  VDV M STA BLKSZ  FILES     USED     FREE    TOTAL
TEST01 191 A R/O   512      1        7        2        9
R;
# two files: 191,512,rw,A
> QUERY SEARCH
TEST01 191 A   R/W
R;
> QUERY DISK B
CMS069E Disk B is not accessed
R(00036);
> QUERY X
CMS070E Operand X is not valid
R(00024);
";

const RELEASED: &str = "# one file: 191,512,rw,A
> RELEASE A
R;
> TYPE A FILE A
CMS069E Disk A is not accessed
R(00036);
> RELEASE A
CMS069E Disk A is not accessed
R(00036);
> QUERY DISK
LABEL  VDV M STA BLKSZ  FILES     USED     FREE    TOTAL
R;
# one file + one file
> RELEASE 191
R;
> RELEASE 192
CMS069E Disk 192 is not accessed
R(00036);
> RELEASE 193
CMS113E Device 193 does not exist
R(00036);
> ERASE A FILE A
CMS069E Disk A is not accessed
R(00036);
";

// Units are attached in their order.
const UNITS: &str = "# hello + three hellos: 191,512,ro,A 192,512,rw,B
> TYPE HELLO TEXT A
HELLO
WORLD
R;
! Done aarrrinroooi 2
# hello + three hellos: 192,512,ro,A 193,512,n9,N 191,512,rw,B
> TYPE HELLO LIST A
B
R;
> ERASE HELLO LIST A
R;
! Done aaarrrinroonwwswsoi 3
# hello + three hellos: 192,512,ro,A 193,512,rw,B
> TYPE HELLO TEXT A
CMS069E Disk A is not accessed
R(00036);
! Done aainooi 2
# hello + three hellos: 191,512,n9,N 192,512,ro,A
> TYPE HELLO TEXT A
CMS069E Disk A is not accessed
R(00036);
! Done aarinooi 2
# hello + three hellos: 191,512,ro,A 192,512,ro,N 193,512,ro,B
> TYPE HELLO TEXT A
! World aa 1
# hello + three hellos: 191,512,ro,A 192,512,n9,B
> TYPE HELLO TEXT A
! World aa 1
# hello + three hellos: 191,512,ro,N 192,512,ro,A
> TYPE HELLO TEXT A
! World a 0
";

#[test]
fn disks_are_told_of_and_released(rt: HostRuntime) -> Result<(), Fail> {
    check_sessions(&rt, rt.alloc(), &[ASKED, RELEASED, UNITS])
}
