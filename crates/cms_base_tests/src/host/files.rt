// Units that are real files.
use crate::world::steps::filling;
use cms_cases::Report;
use cms_host::{FileWorld, Host, System};
use cms_world::{Access, Unit, World};
use std::alloc::{AllocError, Global};
use std::fs::{File, Files, OpenFile, OpenOptions};
use std::time::Clock;
use std::{env, fs, io};

// The path of a file of these tests.
fn path(rt: &HostRuntime, name: &str) -> io::Result<String> {
    let folder = env::temp_dir(rt)?;
    let id = std::process::id(rt.process());
    Ok(format!(in rt.alloc(); "{}/cms-{id}-{name}", folder.as_str())?)
}

// The system itself.
fn host(rt: &HostRuntime) -> Host<&HostRuntime> {
    Host::new(rt.alloc(), rt)
}

// Opens a file to be read, and perhaps written.
fn opened(rt: &HostRuntime, name: &str, writes: bool) -> io::Result<File> {
    OpenOptions::new().read(true).write(writes).open(rt, name)
}

// Has a host keep a file that is open, and says its number.
fn keep_file<R: Files<File = File> + io::Input + Print + Eprint + Clock + Drop>(
    rt: &HostRuntime,
    host: &mut Host<R>,
    name: &str,
    writes: bool,
) -> io::Result<usize> {
    let file = opened(rt, name, writes)?;
    Ok(host.keep(file, name)?)
}

// Has a host keep three files: one that is open to be read alone, a device that can't be synced, and the first again to be written.
fn keep_files<R: Files<File = File> + io::Input + Print + Eprint + Clock + Drop>(
    rt: &HostRuntime,
    host: &mut Host<R>,
    name: &str,
) -> io::Result<usize> {
    fs::write(rt, name, &[7; 1024])?;
    keep_file(rt, host, name, false)?;
    keep_file(rt, host, "/dev/null", true)?;
    keep_file(rt, host, name, true)
}

// Whether it went.
fn went<T: Drop>(came: io::Result<T>) -> bool {
    came.is_ok()
}

// Adds whether the file that is open to be read alone is read and written, and the device synced; whether each block of the image is read
// once its file is cut off in the second, and written; and whether files and folders that aren't there are synced.
fn push_failures<S: System>(into: &mut Report, host: &mut S, name: &str) {
    let mut block = [0; 512];
    let said = [
        host.read_at(0, &mut block, 512),
        host.write_at(0, &block, 0),
        host.sync(1),
        went(host.set_size(2, 600)),
        host.read_at(2, &mut block, 0),
        host.read_at(2, &mut block, 512),
        host.write_at(2, &block, 512),
        host.sync(2),
        host.sync(9),
        went(host.sync_folder(name)),
        went(host.sync_folder("/dev/null/x")),
    ];
    into.value(&said);
    into.push('\n')
}

// Adds whether a name that isn't there, a device and a folder are opened.
fn push_opened<S: System>(into: &mut Report, host: &mut S, missing: &str) {
    let said = [
        went(host.open(missing, Access::ReadWrite)),
        went(host.open(missing, Access::ReadOnly)),
        went(host.open("/dev/null", Access::ReadOnly)),
        went(host.open("/", Access::ReadOnly)),
    ];
    into.value(&said);
    into.push('\n')
}

// Adds what comes of files that are kept, and of names that aren't opened, of which the new one isn't there then. The old file is removed.
fn push_kept<'a, R: Files<File = File> + io::Input + Print + Eprint + Clock + Drop>(
    into: &mut Report,
    rt: &HostRuntime,
    host: Host<R>,
    (old, new): (&'a str, &'a str),
) -> io::Result<()> {
    let mut host = host;
    keep_files(rt, &mut host, old)?;
    push_failures(into, &mut host, old);
    fs::remove_file(rt, old)?;
    push_opened(into, &mut host, new);
    into.value(&went(fs::metadata(rt, new)));
    into.push('\n');
    Ok(())
}

// The name that a letter stands for: the first of two, the second, or a folder.
fn name_of<'a>(letter: char, names: (&'a str, &'a str)) -> &'a str {
    match letter {
        '1' => names.0,
        '2' => names.1,
        _ => "/",
    }
}

// Adds the number of a unit and its blocks.
fn push_unit(into: &mut Report, unit: Unit) {
    into.value(&unit.number);
    into.push(' ');
    into.value(&unit.blocks);
    into.push(';')
}

// Adds what comes of attaching an image: the unit's number and its blocks, or a hyphen.
fn push_attaching<S: System + Drop>(
    into: &mut Report,
    world: &mut FileWorld<S>,
    name: &str,
    access: Access,
) {
    match world.attach(name, 512, access) {
        Ok(unit) => push_unit(into, unit),
        Err(_) => into.push_str("-;"),
    }
}

// Adds what comes of attaching images, and a blank.
fn push_attached<'a, S: System + Drop>(
    into: &mut Report,
    world: &mut FileWorld<S>,
    names: (&'a str, &'a str),
    rows: &[(char, Access)],
) {
    for (letter, access) in rows {
        push_attaching(into, world, name_of(*letter, names), *access);
    }
    into.push(' ')
}

// What is attached in a first world: a torn image, a new one, and a folder.
const FIRST: &[(char, Access)] = &[
    ('1', Access::ReadOnly),
    ('1', Access::ReadOnly),
    ('1', Access::ReadWrite),
    ('2', Access::ReadOnly),
    ('/', Access::ReadOnly),
    ('2', Access::New(8)),
    ('2', Access::New(8)),
    ('2', Access::ReadOnly),
];

// In a second world, where images are in use.
const SECOND: &[(char, Access)] = &[
    ('1', Access::ReadOnly),
    ('1', Access::ReadWrite),
    ('2', Access::ReadWrite),
    ('2', Access::ReadOnly),
];

// And there once the first world has ended.
const THIRD: &[(char, Access)] = &[('2', Access::ReadWrite)];

// Adds what comes of attaching images in a first world, that ends, and in a second.
fn push_both<'a, S: System + Drop>(
    into: &mut Report,
    names: (&'a str, &'a str),
    first: FileWorld<S>,
    second: &mut FileWorld<S>,
) {
    let mut first = first;
    push_attached(into, &mut first, names, FIRST);
    push_attached(into, second, names, SECOND)
}

// Adds what comes of attaching images in two worlds at once, and in the second once the first has ended.
fn push_worlds<'a, S: System + Drop>(
    into: &mut Report,
    alloc: Global,
    names: (&'a str, &'a str),
    (first, second): (S, S),
) -> Result<(), AllocError> {
    let first = FileWorld::new(alloc, first, false)?;
    let mut second = FileWorld::new(alloc, second, false)?;
    push_both(into, names, first, &mut second);
    push_attached(into, &mut second, names, THIRD);
    Ok(())
}

// A call on a unit: a block is filled with a letter, the unit is synced, or a block is read.
#[derive(Clone, Copy)]
enum Call {
    Fill(u8, u32, u8),
    Sync(u8),
    Read(u8, u32),
}

// The letter that fills a block, as a digit.
fn letter_in<S: System + Drop>(world: &mut FileWorld<S>, unit: u8, block: u32) -> char {
    let mut bytes = [0; 512];
    let is_read = world.read_block(unit, block, &mut bytes).is_ok();
    match filling(&bytes) {
        Some(letter) if is_read => char::from(b'0'.saturating_add(letter)),
        _ => '-',
    }
}

// What comes of a call.
fn came<S: System + Drop>(world: &mut FileWorld<S>, call: Call) -> char {
    let (went, sign) = match call {
        Call::Fill(unit, block, letter) => {
            (world.write_block(unit, block, &[letter; 512]).is_ok(), 'w')
        }
        Call::Sync(unit) => (world.sync(unit).is_ok(), ';'),
        Call::Read(unit, block) => (true, letter_in(world, unit, block)),
    };
    if went { sign } else { '-' }
}

// Blocks of two units are filled, the first is synced, and blocks are read.
const CALLS: &[Call] = &[
    Call::Fill(0, 2, 9),
    Call::Fill(0, 8, 5),
    Call::Fill(0, 0, 1),
    Call::Fill(0, 9, 1),
    Call::Fill(1, 2, 1),
    Call::Fill(2, 2, 1),
    Call::Sync(0),
    Call::Read(0, 1),
    Call::Read(0, 2),
    Call::Read(0, 3),
    Call::Read(0, 8),
    Call::Read(1, 2),
    Call::Read(0, 0),
    Call::Read(0, 9),
    Call::Read(2, 1),
];

// Adds what comes of these calls, and how many failed.
fn push_calls<S: System + Drop>(into: &mut Report, world: &mut FileWorld<S>) {
    for call in CALLS {
        into.push(came(world, *call));
    }
    let (faults, edges) = world.failures();
    into.push(';');
    into.value(&faults);
    into.push(',');
    into.value(&edges);
    into.push('\n')
}

// A new image, and one that is read alone.
const UNITS: &[(char, Access)] = &[('2', Access::New(8)), ('1', Access::ReadOnly)];

// Whether the clock of a world stands behind the year 2023.
fn is_late<S: System + Drop>(world: &mut FileWorld<S>) -> bool {
    match world.now() {
        Ok(seconds) => seconds > 1_700_000_000,
        Err(_) => false,
    }
}

// Adds what comes of these calls on a new image and one that is read alone, and of the clock.
fn push_units<'a, S: System + Drop>(
    into: &mut Report,
    alloc: Global,
    names: (&'a str, &'a str),
    system: S,
) -> Result<(), AllocError> {
    let mut world = FileWorld::new(alloc, system, false)?;
    push_attached(into, &mut world, names, UNITS);
    push_calls(into, &mut world);
    into.value(&is_late(&mut world));
    into.push('\n');
    Ok(())
}

/// What comes of images in two worlds, of blocks in one, of the clock, of calls that fail, and of what is no image; and whether the new file
/// is there in the end.
pub const TOLD: &str = "\
0 3;1 3;-;-;-;2 8;-;-; 0 3;-;-;-; 1 8; 0 8;1 3; ww----;09057---;7,0
true
[true, false, false, true, true, false, true, true, false, true, false]
[false, false, false, false]
false
";

// Adds what comes of images in two worlds, and of blocks in one.
fn push_images<'a, S: System + Drop>(
    into: &mut Report,
    rt: &HostRuntime,
    names: (&'a str, &'a str),
    (first, second, third): (S, S, S),
) -> io::Result<()> {
    push_worlds(into, rt.alloc(), names, (first, second))?;
    fs::remove_file(rt, names.1)?;
    push_units(into, rt.alloc(), names, third)?;
    Ok(())
}

// The same of two names, of files that aren't there before and behind all of these; and what comes of files that are kept.
fn push_files<'a>(
    into: &mut Report,
    rt: &HostRuntime,
    old: &'a str,
    new: &'a str,
) -> io::Result<()> {
    fs::write(rt, old, &[7; 2000])?;
    push_images(into, rt, (old, new), (host(rt), host(rt), host(rt)))?;
    fs::remove_file(rt, new)?;
    push_kept(into, rt, host(rt), (old, new))
}

/// Adds all of it.
pub fn push(into: &mut Report, rt: &HostRuntime) -> io::Result<()> {
    let old = path(rt, "old")?;
    let new = path(rt, "new")?;
    push_files(into, rt, &old, &new)
}
