// Any volume is opened.
ghost use Rattle.std.specs.Prelude.{◌≡◌, ◌⊎◌, ◌≤◌, ◌<◌, length, IfOk, IfErr};
ghost use Rattle.std.specs.Option.{ForSome};
ghost use Rattle.cms_journal.specs.Journal.{HasBlocks, contents_of};
ghost use Rattle.cms_model.specs.Trees.{image_of};
ghost use Rattle.cms_model.specs.declared.fault.OpenFault.TheVariants.{Device};
ghost use Rattle.cms_held.specs.HeldVolumes.{IsFaultOf, AnswersOpening};
ghost use Rattle.cms_held.specs.Kept.{Keeps};
ghost use Rattle.cms_edf.specs.OpeningFiles.{HasVolume, behind_label};
ghost use Rattle.cms_edf.specs.OpeningSteps.{OfImage};
ghost use Rattle.cms_world.specs.Seen.{OnlyReads, seen};

use crate::blocks::LABEL;
use crate::contents::read_contents;
use crate::entries::label_of;
use crate::held::Held;
use crate::listing::{Place, read_listing};
use crate::trees::{block_of, tree_held};
use crate::volume::{read_marks, read_trees};
use cms_fields::{Label, LabelFault};
use cms_journal::BlockSize;
use cms_model::OpenFault;
use cms_world::{Unit, World};
use std::alloc::Global;

// Where the volume of a label stands.
fn place_of(unit: &Unit, bsize: BlockSize, label: &Label) -> Place
    ensures { result ≡ record {
      unit = unit.now.number;
      bsize = bsize;
      total = label.now.blocks;
      origin = label.now.origin;
    } }
{
    Place {
        unit: unit.number,
        bsize,
        total: label.blocks,
        origin: label.origin,
    }
}

// The volume behind its label.
fn open_labelled<W: World>(
    alloc: Global,
    world: &mut W,
    unit: &Unit,
    bsize: BlockSize,
    label: Label,
    label_bytes: Vec<u8>,
) -> Result<Held, OpenFault>
    requires origin { (label.origin ≡ 4) ⊎ (label.origin ≡ 5) }
    requires total { 6 ≤ label.blocks }
    requires within { label.blocks ≤ unit.now.blocks }
    requires long { length label_bytes.items ≡ bsize }
    requires bytes { OfImage (W.told world.old) unit.now.number
        (λ image. label_bytes.items ≡ image 3) }
    requires blocks { ForSome (W.told world.old)
        (λ j. HasBlocks j.units unit.now.number unit.now.blocks bsize) }
    ensures read { IfOk result (λ held. OfImage (W.told world.old) unit.now.number (λ image.
        HasVolume unit.now.number
        (record { bsize = bsize; count = unit.now.blocks }) image label held.volume)) }
    ensures disk { IfOk result (λ held. held.volume.disk
        ≡ record { bsize = bsize; count = unit.now.blocks }) }
    ensures unit { IfOk result (λ held. held.volume.unit ≡ unit.now.number) }
    ensures kept { IfOk result (λ held. Keeps held.volume) }
    ensures fault { IfErr result (λ why. OfImage (W.told world.old) unit.now.number (λ image.
        IsFaultOf (behind_label (record { bsize = bsize; count = unit.now.blocks }) image label)
        why)) }
    ensures reads { OnlyReads (seen W.World world.old) (seen W.World world.new) Device result }
{
    let place = place_of(unit, bsize, &label);
    let listing = read_listing(alloc, world, &place)?;
    let trees = match read_trees(alloc, world, &place, &listing) {
        Ok(trees) => trees,
        Err(fault) => {
            drop(listing);
            return Err(fault);
        }
    };
    let marks = match read_marks(alloc, world, &place, &listing.walked, &trees) {
        Ok(marks) => marks,
        Err(fault) => {
            drop(trees);
            drop(listing);
            return Err(fault);
        }
    };
    let files = match read_contents(alloc, world, &place, &listing.entries, trees.files) {
        Ok(files) => files,
        Err(fault) => {
            drop(trees.map);
            drop(listing);
            return Err(fault);
        }
    };
    Ok(Held {
        unit: unit.number,
        bsize,
        blocks: unit.blocks,
        label,
        label_bytes,
        directory: listing.walked.leaves,
        directory_nodes: listing.walked.pointers,
        map_tree: tree_held(trees.map),
        map: marks.map,
        files,
        lost: marks.lost,
    })
}

/// Opens the volume on an attached unit, or answers the first test that fails, with
/// its number, block or place. It reads the label, the directory, the map, all pointer blocks and the records of varying lengths,
/// each block once, and nothing of fixed records.
pub fn open_volume<W: World>(
    alloc: Global,
    world: &mut W,
    unit: &Unit,
    bsize: BlockSize,
) -> Result<Held, OpenFault>
    requires blocks { ForSome (W.told world.old)
        (λ j. HasBlocks j.units unit.now.number unit.now.blocks bsize) }
    ensures answers { OfImage (W.told world.old) unit.now.number (λ image.
        AnswersOpening unit.now.number
        (record { bsize = bsize; count = unit.now.blocks }) image result) }
    ensures disk { IfOk result (λ held. held.volume.disk
        ≡ record { bsize = bsize; count = unit.now.blocks }) }
    ensures unit { IfOk result (λ held. held.volume.unit ≡ unit.now.number) }
    ensures kept { IfOk result (λ held. Keeps held.volume) }
    ensures reads { OnlyReads (seen W.World world.old) (seen W.World world.new) Device result }
{
    if unit.blocks < 6 {
        return Err(OpenFault::Label(LabelFault::Count));
    }
    let label_bytes = block_of(alloc, world, unit.number, LABEL, bsize)?;
    let label = label_of(&label_bytes, bsize, unit.blocks)?;
    open_labelled(alloc, world, unit, bsize, label, label_bytes)
}
