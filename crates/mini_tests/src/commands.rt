// Commands over an image, and what each comes to.
ghost use Rattle.std.specs.Prelude.{All};
ghost use Rattle.mini_words.specs.Ranges.{IsWithin};

use cms_cases::Report;
use cms_text::Series;
use cms_world::{Argv, MemWorld};
use mini_host::MemHost;
use mini_words::{Request, read_requests};
use mini_work::work;
use std::alloc::Global;
use std::process::Abort;

/// Commands with semicolons between them, on a new image `disk` of 60 blocks of 512 bytes, of which the last is told: its status, the lines that it
/// types, behind `|`, and what it notes, behind `!`. The host has `a.txt` (four lines, one empty, one with a carriage return, the last without
/// its line feed), `b.bin` of ten bytes, `bad.txt` with a carriage return in line 2, `c`, whose name has no dot, and the folders `out` and `.`.
pub const ROWS: &str = "\
info disk => Done|label: TEST|block size: 512|blocks: 60|used: 6|free: 54|lost: 0|files: 0
check disk => Done|disk: sound, 0 files, 0 blocks lost
check no => Refused!no: NotThere
make -b 512 -n 60 -l TEST disk => Refused!disk: IsThere
list disk => Done
list disk a.* => Refused!a.*: NothingFits
put -v disk a.txt => Done|A.TXT
put disk a.txt => Done
put -v disk bad.txt c no.txt a.txt => Refused|A.TXT!bad.txt: BadForm(CarriageReturn(2))!c: NoName!no.txt: NotThere
put -n d.disk disk disk => Refused!disk: IsImage
put disk a.txt;put disk a.txt => Refused!a.txt: IsThere
put disk a.txt;put -r -v disk a.txt => Done|A.TXT
put -f binary -L 4 -m 3 disk b.bin;list -l disk => Done|B.BIN             F     4       3        1 2000-01-01 00:00:01 3
put -m 3 disk a.txt;put -r disk a.txt;list -l disk => Done|A.TXT             V     7       4        1 2000-01-01 00:00:02 3
put -L 5 disk a.txt => Refused!a.txt: BadForm(LongLine(2))
put -L 7 disk a.txt;list -l disk => Done|A.TXT             F     7       4        1 2000-01-01 00:00:01 1
put disk a.txt;get disk a.txt => Done|Hello|World  ||été
put -L 7 disk a.txt;get disk a.txt => Done|Hello|World||été
put -n d.e disk c;get disk *.e d.* => Done|x
put disk a.txt;get disk b.* a.* => Refused|Hello|World  ||été!b.*: NothingFits
put disk a.txt;get -v -d out disk *.* => Done|A.TXT
put disk a.txt;get -d out disk *.*;get -d out disk *.* => Refused!out/a.txt: IsThere
put disk a.txt;get -d out disk *.*;get -r -v -d out disk *.* => Done|A.TXT
put disk a.txt;get -d no disk *.* => Refused!no: NoFolder
put disk a.txt;get -o no/all disk *.* => Refused!no: NoFolder
put disk a.txt;get -o disk disk *.* => Refused!disk: IsImage
put disk a.txt;get -v -o all disk *.* => Done|A.TXT
put disk a.txt;get -o all disk *.*;put -n b.b disk all;get disk b.b => Done|Hello|World  ||été
put disk a.txt;rename -v disk a.txt z.txt => Done|Z.TXT
put disk a.txt;rename -v disk a.txt a.txt => Done|A.TXT
rename disk a.txt z.txt => Refused!A.TXT: NothingFits
put disk a.txt;put -n b.b disk c;rename disk a.txt b.b => Refused!B.B: IsThere
put disk a.txt;put -n b.b disk c;erase -v disk *.b a.* *.* => Done|B.B|A.TXT
put disk a.txt;erase -v disk a.* q.q => Refused|A.TXT!q.q: NothingFits
put disk a.txt;erase disk *.*;info disk => Done|label: TEST|block size: 512|blocks: 60|used: 6|free: 54|lost: 0|files: 0
dump disk 61 => Refused!disk: NoBlock(61)";

// What is told of a command behind its status: what it typed, and what it noted.
fn push_told(into: &mut Report, world: &MemWorld, typed: usize, host: &MemHost, notes: usize) {
    let text = world.typed().get(typed..).unwrap_or(&[]);
    for line in str::from_utf8(text).unwrap_or("?").lines() {
        write!(into, "|{line}");
    }
    for note in host.notes().get(notes..).unwrap_or(&[]) {
        write!(into, "!{}: {:?}", note.word.text(), note.refusal);
    }
}

// What a request comes to.
fn push_request<R: Abort>(
    into: &mut Report,
    rt: &R,
    alloc: Global,
    world: &mut MemWorld,
    host: &mut MemHost,
    request: &Request,
)
    requires { IsWithin request.now }
{
    if world.units() >= 256 {
        return into.push_str("no more units");
    }
    let typed = world.typed().len();
    let notes = host.notes().len();
    let status = work(alloc, world, host, request).expect(rt, "memory");
    into.value(&status);
    push_told(into, world, typed, host, notes)
}

// What some requests come to, one behind another.
fn push_requests<R: Abort>(
    into: &mut Report,
    rt: &R,
    alloc: Global,
    world: &mut MemWorld,
    host: &mut MemHost,
    requests: &Series<Request>,
)
    requires { All IsWithin requests.now }
{
    for request in requests.as_slice() {
        push_request(into, rt, alloc, world, host, request);
    }
}

// The words of a command.
fn words_of<R: Abort>(rt: &R, alloc: Global, command: &str) -> Argv {
    let mut words = Argv::new(alloc);
    words.push("minidisk").expect(rt, "memory");
    for word in command.split(' ') {
        words.push(word).expect(rt, "memory");
    }
    words
}

// What the requests of a command come to.
fn push_run<R: Abort>(
    into: &mut Report,
    rt: &R,
    alloc: Global,
    world: &mut MemWorld,
    host: &mut MemHost,
    command: &str,
) {
    match read_requests(alloc, &words_of(rt, alloc, command)) {
        Ok(requests) => push_requests(into, rt, alloc, world, host, &requests),
        Err(_) => into.push_str("words"),
    }
}

// The host of each case.
fn host_of<R: Abort>(rt: &R, alloc: Global) -> MemHost {
    let mut host = MemHost::new(alloc);
    let files: [(&str, &[u8]); 4] = [
        ("a.txt", b"Hello\nWorld  \r\n\n\xC3\xA9t\xC3\xA9"),
        ("b.bin", b"0123456789"),
        ("bad.txt", b"one\ntwo\rthree\n"),
        ("c", b"x\n"),
    ];
    for (name, bytes) in files {
        host.add_file(name, bytes).expect(rt, "memory");
    }
    host.add_folder("out").expect(rt, "memory");
    host.add_folder(".").expect(rt, "memory");
    host
}

// Makes the image, and gives the host its bytes as a file.
fn make_image<R: Abort>(rt: &R, alloc: Global, world: &mut MemWorld, host: &mut MemHost) {
    let mut found = Report::new(alloc);
    push_run(
        &mut found,
        rt,
        alloc,
        world,
        host,
        "make -b 512 -n 60 -l TEST disk",
    );
    if world.has_unit(0) {
        let left = world.crash(alloc, 0, world.events(), u64::MAX);
        host.add_file("disk", &left.expect(rt, "memory"))
            .expect(rt, "memory");
    }
}

// Runs the commands of a case before its last.
fn run_first<R: Abort>(
    rt: &R,
    alloc: Global,
    world: &mut MemWorld,
    host: &mut MemHost,
    commands: &str,
) {
    let mut found = Report::new(alloc);
    for command in commands.split(';') {
        push_run(&mut found, rt, alloc, world, host, command);
    }
}

/// Tells what the last of the commands of a case comes to.
pub fn tell<R: Abort>(into: &mut Report, rt: &R, alloc: Global, case: &str) {
    let mut world = MemWorld::new(alloc, b"", 946_684_800).expect(rt, "memory");
    let mut host = host_of(rt, alloc);
    make_image(rt, alloc, &mut world, &mut host);
    let mut last = case;
    if let Some((first, rest)) = case.rsplit_once(';') {
        run_first(rt, alloc, &mut world, &mut host, first);
        last = rest;
    }
    push_run(into, rt, alloc, &mut world, &mut host, last)
}
