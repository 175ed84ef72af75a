// A unit is attached.
ghost use Rattle.std.specs.Prelude.{◌≡◌, ◌<◌, length, option_map, None, Some, IfOk, IfSome, IfNone, OnErr, All, IsTrue};
ghost use Rattle.cms_journal.specs.Journal.{HasBlocks, IsWritable, IsAttached, IsFresh, IsMade, NoneIsNamed, may_write, start_of};
ghost use Rattle.cms_world.specs.Images.{starting};

use crate::images::starting_blocks;
use crate::recorder::Recorder;
use crate::{Access, Unit};
use cms_journal::{Attached, Blocks, Bytes};
use std::alloc::{AllocError, Global};

/// Attaches a unit by what stands under its name: none is attached where there is no image, or where one is to be made that is
/// there.
pub fn attach_image(
    alloc: Global,
    recorder: &mut Recorder,
    standing: Option<Vec<u8>>,
    name: &str,
    bsize: u32,
    access: Access,
) -> Result<Option<Unit>, AllocError>
    requires size { 0 < bsize }
    requires room { length recorder.old.units < 256 }
    requires fresh { standing ≡ None → NoneIsNamed recorder.old.units name.now }
    ensures start { IfOk result (λ attached. option_map
        (λ unit. start_of recorder.new.units unit.number) attached
        ≡ starting (option_map (λ bytes. bytes.items) standing) access bsize) }
    ensures attached { IfOk result (λ attached. IfSome attached (λ unit. IsAttached recorder.old
        (Some recorder.new) name.now bsize access unit.number unit.blocks)) }
    ensures held { IfOk result (λ attached. IfSome attached
        (λ unit. HasBlocks recorder.new.units unit.number unit.blocks bsize)) }
    ensures writable { IfOk result (λ attached. IfSome attached (λ unit. IsTrue (may_write access)
        → IsWritable recorder.new.units unit.number)) }
    ensures none { IfOk result (λ attached. IfNone attached (recorder.new ≡ recorder.old)) }
    ensures err { OnErr result (recorder.new ≡ recorder.old) }
{
    match starting_blocks(alloc, standing, bsize, access)? {
        None => Ok(None),
        Some(start) => Ok(Some(attach_blocks(alloc, recorder, name, bsize, access, start)?)),
    }
}

// Attaches a unit with these blocks.
fn attach_blocks(
    alloc: Global,
    recorder: &mut Recorder,
    name: &str,
    bsize: u32,
    access: Access,
    start: Blocks,
) -> Result<Unit, AllocError>
    requires room { length recorder.old.units < 256 }
    requires sizes { All (λ block. length block ≡ bsize) start }
    requires made { IsMade access bsize start }
    requires fresh { IsFresh access recorder.old.units name.now }
    ensures start { IfOk result (λ unit. start_of recorder.new.units unit.number ≡ start) }
    ensures attached { IfOk result (λ unit.
        IsAttached recorder.old (Some recorder.new) name.now bsize access unit.number unit.blocks) }
    ensures held { IfOk result (λ unit.
        HasBlocks recorder.new.units unit.number unit.blocks bsize) }
    ensures writable { IfOk result (λ unit. IsTrue (may_write access)
        → IsWritable recorder.new.units unit.number) }
    ensures err { OnErr result (recorder.new ≡ recorder.old) }
{
    // a unit of more blocks than 32 bits count would take 2 TB of memory
    let Ok(blocks) = u32::try_from(start.len()) else {
        return Err(AllocError);
    };
    let number = recorder.units() as u8;
    let writable = match access {
        Access::ReadOnly => false,
        Access::ReadWrite => true,
        Access::New(_) => true,
    };
    recorder.attach(
        alloc,
        Attached {
            name: Bytes::of(alloc, name.as_bytes())?,
            bsize,
            writable,
            start,
        },
    )?;
    Ok(Unit { number, blocks })
}
