// What the words of a case name, for tests whose cases are rows of text.
use crate::hello::hello;
use crate::known::{put, volume_named};
use crate::new_volume::{Made, formatted};
use cms_cases::{byte, number};
use cms_ebcdic::from_host;
use cms_names::{Name, Part};
use cms_world::MemWorld;
use std::alloc::{AllocError, Global};

/// FILE, in EBCDIC.
pub const FILE: &[u8] = &[0xC6, 0xC9, 0xD3, 0xC5];

/// The name of type FILE whose one character is the first of a text in ASCII, if it is a name.
pub fn file_named(text: &str) -> Option<Name> {
    let [character, ..] = text.as_bytes() else {
        return None;
    };
    let letter = from_host(*character)?;
    match (Part::read(&[letter]), Part::read(FILE)) {
        (Ok(file), Ok(kind)) => Some(Name { file, kind }),
        _ => None,
    }
}

// An empty volume whose map has two data blocks.
const NEW: Made = Made {
    bsize: 512,
    total: 8192,
    map: 2,
    pointers: 1,
};

/// The image of a name; no bytes where none is known by it.
pub fn image_named(alloc: Global, name: &str) -> Result<Vec<u8>, AllocError> {
    match name {
        "hello" => hello(alloc, &[]),
        "new on 8192" => formatted(alloc, &NEW),
        _ => volume_named(alloc, name),
    }
}

// Puts bytes into an image, by a text of the block, the place in it, and the bytes in hexadecimal digits.
fn put_text(image: &mut [u8], change: &str) {
    let mut words = change.split_ascii_whitespace();
    let block = number(words.next().unwrap_or(""));
    let mut at = number(words.next().unwrap_or(""));
    for digits in words {
        if let Some(byte) = byte(digits) {
            put(image, block as usize, at as usize, &[byte]);
        }
        at = at.saturating_add(1);
    }
}

/// Puts bytes into an image, by texts with commas between them: each has the block, the place in it, and the bytes in hexadecimal digits.
pub fn put_texts(image: &mut [u8], changes: &str) {
    for change in changes.split(',') {
        put_text(image, change);
    }
}

// Gives a world an image named `disk`, and one call that fails.
fn prepare(
    world: &mut MemWorld,
    image: &[u8],
    failing: u32,
    lands: bool,
) -> Result<(), AllocError> {
    world.add_image("disk", image)?;
    world.fail_at(failing, lands)
}

/// A world in memory with an image named `disk`, and one call that fails, where the world comes to it: a write may land all the same.
pub fn world_with(
    alloc: Global,
    image: &[u8],
    failing: u32,
    lands: bool,
) -> Result<MemWorld, AllocError> {
    let mut world = MemWorld::new(alloc, b"", 0)?;
    prepare(&mut world, image, failing, lands).and(Ok(world))
}

/// The letters of all calls of a world.
pub fn calls_of(world: &MemWorld) -> &str {
    str::from_utf8(world.calls()).unwrap_or("?")
}
