// A change of a volume, and what it does to the files that are held.
ghost use Rattle.std.specs.Prelude.{◌≡◌, ◌≤◌, ◌<◌, length, slice_get, Some};
ghost use Rattle.indexmap.specs.IndexMap.{spare, values};
ghost use Rattle.cms_held.specs.HeldVolumes.{by_name};
ghost use Rattle.cms_held.specs.Renewals.{Edit};
ghost use Rattle.cms_edf.specs.ChangePlans.{DoesTo, MayEdit};

use crate::file_edits::{drop_file, move_stamps, rename_file};
use crate::held::HeldFile;
use cms_names::Name;
use indexmap::IndexMap;

/// A change of a volume.
#[derive(Clone, Copy)]
pub enum Change<'c> {
    /// the file of a name goes
    Drop {
        name: &'c Name,
    },
    /// the file of a name has another name, which no other file has, and the mode number 0 to 6
    Rename {
        from: &'c Name,
        to: &'c Name,
        number: u8,
    },
    /// the volume has another volume id, in EBCDIC
    Relabel {
        volid: [u8; 6],
    },
    /// the stamps of all files are moved: those of a year before that of the pivot in the 1900s are a century later
    Century {
        /// 0 to 100
        pivot: u32,
    },
}

/// What a change does to the files: to one by its place, or to all.
#[derive(Clone, Copy)]
pub enum FileEdit {
    Drop { place: u32 },
    Rename { place: u32, to: Name, number: u8 },
    Century { pivot: u32 },
}

impl FileEdit {
    /// Edits the files.
    pub fn edit_files(&self, files: &mut IndexMap<Name, HeldFile>)
        requires may { MayEdit (values files.old) self.now }
        requires named { files.old.entries ≡ by_name (values files.old) }
        requires room { 1 ≤ spare files.old }
        ensures files { (x : Edit) → DoesTo (values files.old) self.now x
            → values files.new ≡ x.files }
        ensures named { files.new.entries ≡ by_name (values files.new) }
    {
        match self {
            FileEdit::Drop { place } => drop_file(files, *place),
            FileEdit::Rename { place, to, number } => rename_file(files, *place, to, *number),
            FileEdit::Century { pivot } => move_stamps(files, *pivot),
        }
    }
}
