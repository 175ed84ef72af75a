// The read of a block into memory of its own.
ghost use Rattle.std.specs.Prelude.{◌≡◌, ◌≤◌, vec_len, IfOk, IfErr};
ghost use Rattle.std.specs.Option.{ForSome};
ghost use Rattle.cms_journal.specs.Journal.{HasBlock, block_of};
ghost use Rattle.cms_world.specs.declared.block.ReadFault.TheVariants.{Device};
ghost use Rattle.cms_world.specs.Seen.{OnlyReads, seen};

use crate::World;
use std::alloc::Global;

/// Why a block wasn't read.
#[derive(Clone, Copy)]
pub enum ReadFault {
    /// the device failed
    Device,
    /// no memory was left
    Memory,
}

/// The bytes of a block of an attached unit, of which its world tells the block size.
pub fn read_block<W: World>(
    alloc: Global,
    world: &mut W,
    unit: u8,
    block: u32,
    bsize: u32,
) -> Result<Vec<u8>, ReadFault>
    requires { ForSome (W.told world.old) (λ j. HasBlock j.units unit block bsize) }
    ensures bytes { IfOk result (λ v. ForSome (W.told world.old)
        (λ j. v.items ≡ block_of j unit block)) }
    ensures size { IfOk result (λ v. vec_len v ≡ bsize) }
    ensures reads { OnlyReads (seen W.World world.old) (seen W.World world.new) Device result }
{
    let Ok(mut bytes) = vec![in alloc; 0; bsize as usize] else {
        return Err(ReadFault::Memory);
    };
    match world.read_block(unit, block, bytes.as_mut_slice()) {
        Ok(()) => Ok(bytes),
        Err(_) => Err(ReadFault::Device),
    }
}
