// What an update writes but a file's blocks: the directory, the map and the label.
ghost use Rattle.std.specs.Prelude.{length};
ghost use Rattle.cms_world.specs.Seen.{OnUnits, seen};
ghost use Rattle.cms_held.specs.Systems.{system_writes};
ghost use Rattle.cms_edf.specs.BlockWrites.{MayWrite, Writes};
ghost use Rattle.cms_edf.specs.Doubts.{UpdatesSystems, target_of};
ghost use Rattle.cms_edf.specs.NewDirectories.{GoesOn, directory_in};

use crate::block_writes::{Target, write_directory, write_first, write_map_tree};
use crate::doubt::{Doubt, confirm};
use crate::held::HeldTree;
use crate::new_directory::NewDirectory;
use crate::tree_part::TreePart;
use cms_fields::Label;
use cms_journal::BlockSize;
use cms_map::Map;
use cms_world::{Failed, World};
use std::marker::Model;

/// The most bytes of a block.
pub const LARGEST: usize = 4096;

/// A new directory, map and label, ready to be written.
#[derive(Drop)]
pub struct Systems {
    pub(crate) bsize: BlockSize,
    pub(crate) label: Label,
    pub(crate) label_bytes: Vec<u8>,
    pub(crate) directory: NewDirectory,
    pub(crate) directory_bytes: Vec<u8>,
    pub(crate) map_tree: HeldTree,
    pub(crate) map_part: TreePart,
    pub(crate) map: Map,
}

impl Model for Systems {
    ghost use Rattle.cms_held.specs.Systems as systems;
    ghost use Rattle.cms_edf.specs.Doubts.{IsReady};

    ghost Value = { systems.Systems };

    ghost view = { λ s. record {
      label = s.label;
      label_bytes = s.label_bytes.items;
      directory = s.directory.tree;
      directory_part = s.directory.part;
      directory_bytes = s.directory_bytes.items;
      map = s.map_tree;
      map_part = s.map_part;
      bits = s.map;
    } };

    ghost invariant = { λ s. IsReady s.bsize (record {
      label = s.label;
      label_bytes = s.label_bytes.items;
      directory = s.directory.tree;
      directory_part = s.directory.part;
      directory_bytes = s.directory_bytes.items;
      map = s.map_tree;
      map_part = s.map_part;
      bits = s.map;
    }) };
}

impl Systems {
    // Writes the directory and the map, but for the label. These are the directory's data blocks that are held.
    fn write<W: World>(&self, world: &mut W, unit: u8, held: &[u32]) -> Result<(), Failed>
        requires goes { GoesOn held.now (directory_in self.now) }
        requires may { MayWrite (W.told world.old) (target_of unit self.now) }
        ensures writes { Writes (seen W.World world.old) (seen W.World world.new)
            (target_of unit self.now)
            (system_writes (length self.now.label_bytes) self.now) result }
    {
        let target = Target {
            unit,
            total: self.label.blocks,
            bsize: self.bsize,
        };
        let mut room = [0; LARGEST];
        let block = &mut room[..self.bsize.bytes() as usize];
        match write_directory(
            world,
            &target,
            &self.directory,
            held,
            &self.directory_bytes,
            block,
        ) {
            Ok(()) => {}
            Err(Failed) => return Err(Failed),
        }
        match write_map_tree(
            world,
            &target,
            &self.map_tree,
            &self.map_part,
            &self.map,
            block,
        ) {
            Ok(()) => write_first(world, &target, &self.directory, &self.directory_bytes),
            Err(Failed) => Err(Failed),
        }
    }

    /// Carries out an update: writes the directory and the map, syncs, writes the label, and syncs.
    ///
    /// These are the data blocks of the directory that is held. Takes no memory. At `Old` a part of the writes was made and nothing was synced since; at `Either` all of them were, with one
    /// sync, and perhaps the label was written.
    pub fn carry_out<W: World>(&self, world: &mut W, unit: u8, held: &[u32]) -> Result<(), Doubt>
        requires goes { GoesOn held.now (directory_in self.now) }
        requires may { MayWrite (W.told world.old) (target_of unit self.now) }
        ensures updates { UpdatesSystems (W.told world.old)
            (W.told world.new) unit self.now result }
        ensures counts { OnUnits (seen W.World world.old) (seen W.World world.new) result }
    {
        match self.write(world, unit, held) {
            Ok(()) => confirm(world, unit, self.bsize, &self.label_bytes),
            Err(Failed) => Err(Doubt::Old),
        }
    }
}
