// Lists of words with what they ask for.
use cms_cases::{Ascii, Report};
use cms_journal::BlockSize;
use cms_names::Name;
use cms_text::Series;
use cms_world::{Argv, ImageName};
use mini_words::{Get, Image, NamePattern, Put, Refused, Request, Target, read_requests};
use std::alloc::Global;
use std::process::Abort;

/// Words with strokes between them, and what they ask for, or why they are refused.
pub const ROWS: &str = "\
minidisk/list/w.img => list(w.img) long=false
minidisk/list/-l/-b/1024/w.img => list(w.img,1024) long=true
minidisk/list/w.img/-l => list(w.img) long=true
minidisk/list/-b512/w.img/a*.txt/%b.* => list(w.img,512) long=false a*.txt %b.*
minidisk/list/-b/2048/--/-x.img => list(-x.img,2048) long=false
minidisk/info/w.img => info(w.img)
minidisk/info/-b=4096/w.img => info(w.img,4096)
minidisk/get/w.img/a.b => get(w.img) Text replaces=false says=false output a.b
minidisk/get/-f/text/-o/out/-v/-r/w.img/a.b/c.d => get(w.img) Text replaces=true says=true file(out) a.b c.d
minidisk/get/-f/binary/-d/out/w.img/*.* => get(w.img) Binary replaces=false says=false folder(out) *.*
minidisk/get/-f/records/w.img/$#@+-:_0.a => get(w.img) Records replaces=false says=false output $#@+-:_0.a
minidisk/put/w.img/a.b => put(w.img) Text(None) 1 none replaces=false says=false 0 a.b
minidisk/put/w.img/a.b/x,y/c => put(w.img) Text(None) 1 none replaces=false says=false 0 a.b x,y c
minidisk/put/-L/80/w.img/a.b => put(w.img) Text(Some(80)) 1 none replaces=false says=false 0 a.b
minidisk/put/-f/binary/-L/65535/-m/0/-n/x.y/-r/-v/-z/E1459/-b/512/w.img/a => put(w.img,512) Binary(65535) 0 X.Y replaces=true says=true 53940 a
minidisk/put/-f/records/-L1/-m6/-zW0001/w.img/a => put(w.img) Records(Some(1)) 6 none replaces=false says=false -60 a
minidisk/put/-n/in.txt/w.img/- => put(w.img) Text(None) 1 IN.TXT replaces=false says=false 0 -
minidisk/erase/w.img/a.b => erase(w.img) says=false 0 a.b
minidisk/erase/-v/-z/W0500/w.img/a.*/b.c => erase(w.img) says=true -18000 a.* b.c
minidisk/rename/w.img/a.b/c.d => rename(w.img) says=false 0 A.B C.D
minidisk/rename/-v/-b/512/-z/E0000/w.img/a.b/abcdefgh.12345678 => rename(w.img,512) says=true 0 A.B ABCDEFGH.12345678
minidisk/make/-b/512/-n/8/-l/a/w.img => make(w.img,512) 8 A      0
minidisk/make/-l/abcdef/-n/1048576/-b/4096/-z/E0100/w.img => make(w.img,4096) 1048576 ABCDEF 3600
minidisk/check/w.img => check(w.img)
minidisk/check/-b/1024/a/b/c => check(a,1024) check(b,1024) check(c,1024)
minidisk/dump/w.img => dump(w.img)
minidisk/dump/-b/512/w.img/1/1048576/3 => dump(w.img,512) 1 1048576 3
minidisk => MissingSubcommand
minidisk/--help => DisplayHelp
minidisk/-h => DisplayHelp
minidisk/--version => DisplayVersion
minidisk/get/--help => DisplayHelp
minidisk/copy/w.img => InvalidSubcommand
minidisk/list => MissingRequiredArgument
minidisk/list/-x/w.img => UnknownArgument
minidisk/list/-b/512/-b/512/w.img => ArgumentConflict
minidisk/list/w.img/-b => InvalidValue
minidisk/get/w.img => MissingRequiredArgument
minidisk/make/-b/512/-n/8/w.img => MissingRequiredArgument
minidisk/list/-b/513/w.img => Size
minidisk/list/-b/0512/w.img => Size
minidisk/make/-b/x/-n/8/-l/a/w.img => Size
minidisk/get/-f/Text/w.img/a.b => Form
minidisk/put/-f/lines/-L/0/w.img/a => Form
minidisk/put/-L/0/w.img/a => Length
minidisk/put/-L/65536/w.img/a => Length
minidisk/put/-L/080/w.img/a => Length
minidisk/put/-L/+80/w.img/a => Length
minidisk/put/-f/binary/w.img/a => NoLength
minidisk/put/-m/7/w.img/a => Digit
minidisk/put/-m/10/w.img/a => Digit
minidisk/put/-n/a/w.img/a => Name(1)
minidisk/put/-n/a.*/w.img/a => Name(1)
minidisk/list/w.img/a.b/c => Name(2)
minidisk/list/w.img/a.b.c => Name(1)
minidisk/list/w.img/.b => Name(1)
minidisk/list/w.img/a. => Name(1)
minidisk/list/w.img/abcdefghi.b => Name(1)
minidisk/list/w.img/\u{e9}.b => Name(1)
minidisk/rename/w.img/a.b/c => Name(2)
minidisk/rename/w.img/a.*/c.d => Name(1)
minidisk/make/-b/512/-n/7/-l/a/w.img => Blocks
minidisk/make/-b/512/-n/1048577/-l/a/w.img => Blocks
minidisk/make/-b/512/-n/4294967304/-l/a/w.img => Blocks
minidisk/make/-b/512/-n/8/-l/abcdefg/w.img => Label
minidisk/make/-b/512/-n/8/-l/a b/w.img => Label
minidisk/erase/-z/E1500/w.img/a.b => Zone
minidisk/erase/-z/e0100/w.img/a.b => Zone
minidisk/erase/-z/E0160/w.img/a.b => Zone
minidisk/erase/-z/E01000/w.img/a.b => Zone
minidisk/dump/w.img/1/0 => Block(2)
minidisk/dump/w.img/1048577 => Block(1)
minidisk/get/-o/a/-d/b/w.img/a.b => TwoTargets
minidisk/get/-v/w.img/a.b => SaysNothing
minidisk/put/-n/a.b/w.img/a/b => OneFile
minidisk/put/w.img/- => NoName
minidisk/put/w.img/a/- => NoName
minidisk/put/-n/a.b/w.img/a/- => OneFile";

fn argv<R: Abort>(rt: &R, alloc: Global, case: &str) -> Argv {
    let mut words = Argv::new(alloc);
    for word in case.split('/') {
        words.push(word).expect(rt, "memory");
    }
    words
}

// Adds a command with its image.
fn push_command(into: &mut Report, name: &str, image: &str, size: Option<BlockSize>) {
    match size {
        Some(size) => write!(into, "{name}({image},{})", size.bytes()),
        None => write!(into, "{name}({image})"),
    }
}

fn push_on(into: &mut Report, name: &str, image: &Image) {
    push_command(into, name, image.name.text(), image.size)
}

fn push_name(into: &mut Report, name: &Name) {
    let (file, kind) = (Ascii(name.file.as_bytes()), Ascii(name.kind.as_bytes()));
    write!(into, " {file}.{kind}")
}

fn push_patterns(into: &mut Report, names: &Series<NamePattern>) {
    for name in names.as_slice() {
        write!(into, " {}", name.word.text());
    }
}

fn push_files(into: &mut Report, files: &Series<ImageName>) {
    for file in files.as_slice() {
        write!(into, " {}", file.text());
    }
}

fn push_target(into: &mut Report, target: &Target) {
    match target {
        Target::Output => into.push_str("output"),
        Target::File(file) => push_command(into, "file", file.text(), None),
        Target::Folder(folder) => push_command(into, "folder", folder.text(), None),
    }
}

fn push_get(into: &mut Report, get: &Get) {
    push_on(into, "get", &get.image);
    write!(
        into,
        " {:?} replaces={} says={} ",
        get.form, get.replaces, get.says
    );
    push_target(into, &get.target);
    push_patterns(into, &get.names)
}

fn push_put(into: &mut Report, put: &Put) {
    push_on(into, "put", &put.image);
    write!(into, " {:?} {}", put.layout, put.number);
    match &put.name {
        Some(name) => push_name(into, name),
        None => into.push_str(" none"),
    }
    write!(
        into,
        " replaces={} says={} {}",
        put.replaces, put.says, put.offset
    );
    push_files(into, &put.files)
}

// Adds a command that changes an image, whether it says what it does, and the zone.
fn push_change(into: &mut Report, name: &str, image: &Image, says: bool, offset: i32) {
    push_on(into, name, image);
    write!(into, " says={says} {offset}")
}

fn push_names(into: &mut Report, from: &Name, to: &Name) {
    push_name(into, from);
    push_name(into, to)
}

// Adds the blocks, the label and the zone of an image that is made.
fn push_made(into: &mut Report, blocks: u32, label: &[u8; 6], offset: i32) {
    write!(into, " {blocks} {} {offset}", Ascii(label))
}

fn push_blocks(into: &mut Report, blocks: &Series<u32>) {
    for block in blocks.as_slice() {
        write!(into, " {block}");
    }
}

// Adds a command with its image, and what else is asked of that alone.
fn push_head(into: &mut Report, request: &Request) {
    match request {
        Request::List { image, .. } => push_on(into, "list", image),
        Request::Info(image) => push_on(into, "info", image),
        Request::Get(request) => push_get(into, request),
        Request::Put(request) => push_put(into, request),
        Request::Erase {
            image,
            says,
            offset,
            ..
        } => { push_change(into, "erase", image, *says, *offset) }
        Request::Rename {
            image,
            says,
            offset,
            ..
        } => { push_change(into, "rename", image, *says, *offset) }
        Request::Make { image, size, .. } => push_command(into, "make", image.text(), Some(*size)),
        Request::Check(image) => push_on(into, "check", image),
        Request::Dump { image, .. } => push_on(into, "dump", image),
    }
}

// Adds what stands behind that.
fn push_rest(into: &mut Report, request: &Request) {
    match request {
        Request::List { long, names, .. } => {
            write!(into, " long={long}");
            push_patterns(into, names)
        }
        Request::Erase { names, .. } => push_patterns(into, names),
        Request::Rename { from, to, .. } => push_names(into, from, to),
        Request::Make {
            blocks,
            label,
            offset,
            ..
        } => push_made(into, *blocks, label, *offset),
        Request::Dump { blocks, .. } => push_blocks(into, blocks),
        _ => {}
    }
}

// Adds requests with blanks between.
fn push_requests(into: &mut Report, requests: &Series<Request>) {
    for request in requests.as_slice() {
        if !into.text().is_empty() {
            into.push(' ');
        }
        push_head(into, request);
        push_rest(into, request);
    }
}

/// Tells what a case comes to.
pub fn tell<R: Abort>(into: &mut Report, rt: &R, alloc: Global, case: &str) {
    match read_requests(alloc, &argv(rt, alloc, case)) {
        Ok(requests) => push_requests(into, &requests),
        Err(Refused::Clap(error)) => into.value(&error.kind()),
        Err(Refused::Word(fault)) => into.value(&fault),
    }
}
