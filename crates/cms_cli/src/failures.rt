// What failed, on standard error, for a person.
use cms_host::{FileWorld, Host, Trouble};
use cms_session::{Status, WordFault};
use cms_words::read_words;
use cms_world::Argv;
use std::fmt::Display;
use std::io;

/// The form of the words.
const FORM: &str = "cms [-t TURNS] [-z ZONE] [-g NUMBER] VDEV,BSIZE,ACCESS,NAME";

// Why words are refused, and which.
fn tell_refusal(rt: &HostRuntime, fault: WordFault) -> io::Result<()> {
    match fault {
        WordFault::Syntax => eprintln!(rt; "cms: the words must be {FORM}; cms --help says more"),
        WordFault::Unit(place) => eprintln!(rt;
            "cms: unit word {place} must be VDEV,BSIZE,ACCESS,NAME, as 191,1024,rw,disk.img, and at most the 16th; cms --help says more"
        ),
        WordFault::Turns => eprintln!(rt;
            "cms: the value of -t must be a number from 1 to 1,000,000,000, without commas"
        ),
        WordFault::Zone => eprintln!(rt;
            "cms: the value of -z must be E or W and hhmm, hours to 14 and minutes to 59, as E0100"
        ),
        WordFault::Twice(vdev) => eprintln!(rt; "cms: two unit words have the device {vdev:03X}"),
        WordFault::Seed => eprintln!(rt;
            "cms: the value of -g must be a number to 2,147,483,647, without commas"
        ),
        WordFault::Memory => eprintln!(rt; "cms: there is no memory"),
    }
}

/// Says why the program ended otherwise than done, but where the world failed.
pub fn tell_ending(rt: &HostRuntime, status: Status, written: bool) {
    let _ = if written {
        tell_status(rt, status)
    } else {
        eprintln!(rt; "cms: what was typed can't be written to standard output")
    };
}

// Says why a session ended that ended early.
fn tell_status(rt: &HostRuntime, status: Status) -> io::Result<()> {
    match status {
        Status::Done | Status::World => Ok(()),
        Status::Usage(fault) => tell_refusal(rt, fault),
        Status::Memory => eprintln!(rt; "cms: there is no memory"),
        Status::Turns => eprintln!(rt; "cms: the turns of the session are spent"),
    }
}

// Why an image can't be attached.
fn tell_image<D: Display + Drop>(
    rt: &HostRuntime,
    words: &Argv,
    attached: usize,
    why: D,
) -> io::Result<()> {
    let units = match read_words(rt.alloc(), words) {
        Ok(words) => words.units,
        Err(_) => return eprintln!(rt; "cms: an image can't be attached: {why}"),
    };
    match units.get(attached) {
        Some(unit) => {
            let name = unit.name.text();
            eprintln!(rt; "cms: {name} can't be attached: {why}")
        }
        None => eprintln!(rt; "cms: an image can't be attached: {why}"),
    }
}

/// Says what failed in a world of files.
pub fn tell_world(rt: &HostRuntime, words: &Argv, world: &FileWorld<Host<&HostRuntime>>) {
    let _ = match world.trouble() {
        Some(Trouble::Image(error)) => tell_image(rt, words, world.attached(), error),
        Some(Trouble::InUse) => tell_image(
            rt,
            words,
            world.attached(),
            "it is in use, by another program or by another unit",
        ),
        Some(Trouble::Device) => eprintln!(rt; "cms: a block of an image can't be read or written"),
        Some(Trouble::Input) => eprintln!(rt;
            "cms: the commands can't be read from standard input"
        ),
        Some(Trouble::Output) => eprintln!(rt;
            "cms: what was typed can't be written to standard output"
        ),
        Some(Trouble::Clock) => eprintln!(rt; "cms: the clock can't be read"),
        None => Ok(()),
    };
}
