// Which blocks were met, and which of them the map marks.
ghost use Rattle.std.specs.Prelude.{◌≡◌, ◌≤◌, ◌<◌, ◌-◌, ◌^◌, ◌&&◌, not, ℕ, List, [], None, false, length, slice_index_or, IfOk, IfErr, Ok};
ghost use Rattle.cms_model.specs.declared.fault.OpenFault.TheVariants.{Device};
ghost use Rattle.cms_held.specs.HeldVolumes.{IsFaultOf};
ghost use Rattle.cms_model.specs.Lists.{first_repeat};
ghost use Rattle.cms_model.specs.Maps.{lowest_unmarked, lost_count};
ghost use Rattle.cms_map.specs.Bits.{bits_in};
ghost use Rattle.cms_edf.specs.OpeningSteps.{AreBlocks, AreClear, Tells, lost_in};

use cms_map::Map;
use cms_model::OpenFault;
use std::alloc::Global;

/// How many blocks of a volume are lost: marked by its map, and not among these, which are met. None of these may be met twice,
/// and the map must mark each from 6 on.
#[tactic(auto, using(crate::proofs::Lost::clear))]
pub fn lost_of(alloc: Global, total: u32, map: &Map, blocks: &[u32]) -> Result<u32, OpenFault>
    requires total { length map.now ≡ total }
    requires within { AreBlocks total blocks.now }
    ensures ok { IfOk result (λ lost. (bytes : List ℕ) → map.now ≡ bits_in total bytes
        → lost_in bytes total blocks.now ≡ Ok lost) }
    ensures fault { IfErr result (λ why. (bytes : List ℕ) → map.now ≡ bits_in total bytes
        → IsFaultOf (lost_in bytes total blocks.now) why) }
    ensures device { IfErr result (λ why. why ≡ Device → ⊥) }
{
    match vec![in alloc; false; total as usize] {
        Ok(mut seen) => lost_among(seen.as_mut_slice(), total, map, blocks),
        Err(_) => Err(OpenFault::Memory),
    }
}

// The same, with a bit for each block, none of them set.
#[tactic(auto, using(crate::proofs::Lost::crossed))]
fn lost_among(seen: &mut [bool], total: u32, map: &Map, blocks: &[u32]) -> Result<u32, OpenFault>
    requires total { length map.now ≡ total }
    requires size { length seen.old ≡ total }
    requires clear { AreClear seen.old }
    requires within { AreBlocks total blocks.now }
    ensures ok { IfOk result (λ lost. (bytes : List ℕ) → map.now ≡ bits_in total bytes
        → lost_in bytes total blocks.now ≡ Ok lost) }
    ensures fault { IfErr result (λ why. (bytes : List ℕ) → map.now ≡ bits_in total bytes
        → IsFaultOf (lost_in bytes total blocks.now) why) }
    ensures device { IfErr result (λ why. why ≡ Device → ⊥) }
{
    if let Some(block) = met_twice(seen, blocks) {
        return Err(OpenFault::Crossed(block));
    }
    if let Some(block) = not_marked(seen, map) {
        return Err(OpenFault::MapMissing(block));
    }
    Ok(lost_blocks(seen, map))
}

/// The first block that is met a second time. `seen` has a bit for each block of the volume, block 1 first, none of them set;
/// where no block is met twice, the bits of those that were met are set then.
pub fn met_twice(seen: &mut [bool], blocks: &[u32]) -> Option<u32>
    requires within { AreBlocks (length seen.old) blocks.now }
    requires clear { AreClear seen.old }
    ensures first { result ≡ first_repeat [] blocks.now }
    ensures seen { result ≡ None → Tells seen.new blocks.now }
{
    for place in 0..blocks.len() {
        let block = blocks[place];
        let bit = block as usize - 1;
        if seen[bit] {
            return Some(block);
        }
        seen[bit] = true;
    }
    None
}

// The block, from 1 on, was met, and the map doesn't mark it.
fn is_missing(seen: &[bool], map: &Map, block: u32) -> bool
    requires same { length seen.now ≡ length map.now }
    requires first { 1 ≤ block }
    requires last { block ≤ length map.now }
    ensures { result ≡ (slice_index_or seen.now (block - 1) false && not
        (slice_index_or map.now (block - 1) false)) }
{
    seen[block as usize - 1] && !map.is_used(block)
}

// The map marks the block, from 1 on, and it was not met.
fn is_lost(seen: &[bool], map: &Map, block: u32) -> bool
    requires same { length seen.now ≡ length map.now }
    requires first { 1 ≤ block }
    requires last { block ≤ length map.now }
    ensures { result ≡ (slice_index_or map.now (block - 1) false && not
        (slice_index_or seen.now (block - 1) false)) }
{
    map.is_used(block) && !seen[block as usize - 1]
}

/// The lowest block from 6 on that was met and that the map doesn't mark.
pub fn not_marked(seen: &[bool], map: &Map) -> Option<u32>
    requires same { length seen.now ≡ length map.now }
    requires few { length map.now < 2 ^ 32 }
    ensures { (bytes met : List ℕ) → map.now ≡ bits_in (length map.now) bytes → Tells seen.now met
        → result ≡ lowest_unmarked bytes met 6 (length map.now - 5) }
{
    for block in 6..seen.len() as u64 + 1 {
        if is_missing(seen, map, block as u32) {
            return Some(block as u32);
        }
    }
    None
}

/// How many blocks from 6 on are marked and were not met.
pub fn lost_blocks(seen: &[bool], map: &Map) -> u32
    requires same { length seen.now ≡ length map.now }
    requires few { length map.now < 2 ^ 32 }
    ensures { (bytes met : List ℕ) → map.now ≡ bits_in (length map.now) bytes → Tells seen.now met
        → result ≡ lost_count bytes met 6 (length map.now - 5) }
{
    let mut lost = 0;
    for block in 6..seen.len() as u64 + 1 {
        lost += u32::from(is_lost(seen, map, block as u32));
    }
    lost
}
