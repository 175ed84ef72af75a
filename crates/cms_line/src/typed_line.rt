// Lines typed at the console.
ghost use Rattle.std.specs.Prelude.{◌≡◌, ◌<◌, ◌≤◌, [], map, take, length, OnOk, OnErr};
ghost use Rattle.cms_ebcdic.specs.CodePage.{host_of};
ghost use Rattle.cms_journal.specs.Causes.{HasCause};
ghost use Rattle.cms_line.specs.Typed.{TypedTo, TypedPart};
ghost use Rattle.cms_model.specs.Acts.{typed_line};

use cms_ebcdic::to_host;
use cms_world::{Failed, World};

// Room for a line of the console or a message, and for a record of the greatest length, with the line feed.
const ROOM: usize = 1024;

const LONG_ROOM: usize = 65_536;

// Types all the bytes, each time as many as the world takes.
fn type_all<W: World>(world: &mut W, bytes: &[u8]) -> Result<(), Failed>
    ensures ok { OnOk result (TypedTo (W.told world.old) (W.told world.new) bytes.now []) }
    ensures err { OnErr result (TypedPart (W.told world.old) (W.told world.new) bytes.now) }
    ensures cause { HasCause (W.edges world.old) (W.edges world.new) result }
    ensures faults { W.faults world.new ≡ W.faults world.old }
{
    let mut rest = bytes;
    while !rest.is_empty() {
        let count = world.type_out(rest)?;
        rest = &rest[count..];
    }
    Ok(())
}

// Puts a text in ASCII at the front of a buffer.
fn put_ascii(text: &[u8], into: &mut [u8])
    requires { length text.now ≤ length into.old }
    ensures { take (length text.now) into.new ≡ map host_of text.now }
{
    for (place, byte) in text.iter().enumerate() {
        into[place] = to_host(*byte);
    }
}

// Types a line through a buffer, as a whole where it has room for that.
fn type_through<W: World>(world: &mut W, bytes: &[u8], buffer: &mut [u8]) -> Result<(), Failed>
    requires { 0 < length buffer.old }
    ensures ok { OnOk result (TypedTo (W.told world.old) (W.told world.new)
        (typed_line bytes.now) []) }
    ensures err { OnErr result (TypedPart (W.told world.old) (W.told world.new)
        (typed_line bytes.now)) }
    ensures cause { HasCause (W.edges world.old) (W.edges world.new) result }
    ensures faults { W.faults world.new ≡ W.faults world.old }
{
    let room = buffer.len();
    let mut rest = bytes;
    while rest.len() >= room {
        let (front, behind) = rest.split_at(room);
        put_ascii(front, buffer);
        type_all(world, buffer)?;
        rest = behind;
    }
    put_ascii(rest, buffer);
    buffer[rest.len()] = b'\n';
    type_all(world, &buffer[..rest.len() + 1])
}

// Types a long line. A function of its own, so that only such a line pays for the room.
#[inline(never)]
fn type_long<W: World>(world: &mut W, bytes: &[u8]) -> Result<(), Failed>
    ensures ok { OnOk result (TypedTo (W.told world.old) (W.told world.new)
        (typed_line bytes.now) []) }
    ensures err { OnErr result (TypedPart (W.told world.old) (W.told world.new)
        (typed_line bytes.now)) }
    ensures cause { HasCause (W.edges world.old) (W.edges world.new) result }
    ensures faults { W.faults world.new ≡ W.faults world.old }
{
    type_through(world, bytes, &mut [0; LONG_ROOM])
}

/// Types a line of EBCDIC and a line feed: each byte as its ASCII character, as a period where the code page has none.
///
/// A line of up to 65,535 bytes, and so every line of the console, message and record, is offered to the world as a whole; a
/// longer one goes out in pieces. Takes no memory. After `Failed` a front of it was typed.
pub fn type_line<W: World>(world: &mut W, bytes: &[u8]) -> Result<(), Failed>
    ensures ok { OnOk result (TypedTo (W.told world.old) (W.told world.new)
        (typed_line bytes.now) []) }
    ensures err { OnErr result (TypedPart (W.told world.old) (W.told world.new)
        (typed_line bytes.now)) }
    ensures cause { HasCause (W.edges world.old) (W.edges world.new) result }
    ensures faults { W.faults world.new ≡ W.faults world.old }
{
    if bytes.len() < ROOM {
        type_through(world, bytes, &mut [0; ROOM])
    } else {
        type_long(world, bytes)
    }
}
