// How many levels and pointer blocks a tree has.
ghost use Rattle.std.specs.Prelude.{◌≡◌, ◌≤◌};
ghost use Rattle.cms_model.specs.Sizes.{levels, pointer_count};

use crate::Shape;

/// The shape of a tree over so many data blocks, at least one, whose pointer blocks have `fan` pointers each, at least two.
pub fn shape(leaves: u32, fan: u32) -> Shape
    requires some { 1 ≤ leaves }
    requires wide { 2 ≤ fan }
    ensures levels { result.levels ≡ levels fan leaves }
    ensures pointers { result.pointers ≡ pointer_count fan leaves }
{
    let mut levels = 0u8;
    let mut pointers = 0u32;
    let mut room = 1u64;
    while room < u64::from(leaves) {
        room *= u64::from(fan);
        levels += 1;
        pointers += u64::from(leaves).div_ceil(room) as u32;
    }
    Shape { levels, pointers }
}
