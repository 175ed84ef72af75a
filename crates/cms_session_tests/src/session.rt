// A session in a world in memory.
use crate::extensions::push;
use cms_ext::ExtList;
use cms_session::{Status, run, run_with};
use cms_world::{Argv, MemWorld};
use std::alloc::Global;
use std::process::Abort;

// The program's name and the words that blanks part.
fn argv<R: Abort>(rt: &R, alloc: Global, line: &str) -> Argv {
    let mut argv = Argv::new(alloc);
    argv.push("cms").expect(rt, "memory");
    for word in line.split_ascii_whitespace() {
        argv.push(word).expect(rt, "memory");
    }
    argv
}

// Extensions under these words; of one that stands there twice the first is taken.
fn handed_in<R: Abort>(rt: &R, alloc: Global, words: &str) -> ExtList {
    let mut extensions = ExtList::new(alloc);
    for word in words.split_ascii_whitespace() {
        push(alloc, &mut extensions, word).expect(rt, "memory");
    }
    extensions
}

/// How a session with these words ends in a world to which no unit is attached yet.
pub fn ended<R: Abort>(rt: &R, alloc: Global, words: &str, world: &mut MemWorld) -> Status {
    assert!(rt; world.units() == 0, "a unit is attached");
    run(alloc, &argv(rt, alloc, words), world)
}

/// The same of a session that is handed extensions under words.
pub fn ended_with<R: Abort>(
    rt: &R,
    alloc: Global,
    words: &str,
    handed: &str,
    world: &mut MemWorld,
) -> Status {
    if handed.is_empty() {
        return ended(rt, alloc, words, world);
    }
    assert!(rt; world.units() == 0, "a unit is attached");
    let extensions = handed_in(rt, alloc, handed);
    run_with(alloc, &argv(rt, alloc, words), world, extensions)
}
