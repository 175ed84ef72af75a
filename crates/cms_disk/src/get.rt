// A file that is read whole.
ghost use Rattle.std.specs.Prelude.{◌≡◌, ◌⊎◌, ◌<◌, ◌≤◌, ◌++◌, ℕ, List, [], ◌∷◌, length, Some, None, Err, IfOk, IfErr, OnOk, OnErr, IsSome};
ghost use Rattle.std.specs.Option.{ForSome};
ghost use Rattle.cms_journal.specs.Journal.{HasBlocks, contents_of};
ghost use Rattle.cms_fields.specs.Limits.{longest_record};
ghost use Rattle.cms_names.specs.declared.name.Name as names;
ghost use Rattle.cms_model.specs.Records.{IsValid, stored};
ghost use Rattle.cms_model.specs.Trees.{image_of};
ghost use Rattle.cms_edf.specs.OpeningSteps.{OfImage};
ghost use Rattle.cms_disk.specs.Cursors.{HasLeft, fixed_of};
ghost use Rattle.cms_disk.specs.Disks.{IsReadable, place_of};
ghost use Rattle.cms_disk.specs.Gets.{Gathers, GetsIn, IsLike, data_length};
ghost use Rattle.cms_disk.specs.declared.fault.DiskFault.TheVariants.{Altered, Device, Memory, NotFound};
ghost use Rattle.cms_world.specs.Seen.{OnlyReads, seen};

use crate::cursor::Cursor;
use crate::fault::DiskFault;
use crate::minidisk::Minidisk;
use cms_edf::{FileData, FileInfo, Stored};
use cms_names::{Format, Name};
use cms_records::put_var;
use cms_world::World;
use std::alloc::{AllocError, Global};

// The stored bytes of records, and the length of the longest.
#[derive(Drop)]
struct Gathered {
    bytes: Vec<u8>,
    longest: u32,
}

// Appends a record as it is stored.
fn push(bytes: &mut Vec<u8>, format: Format, text: &[u8]) -> Result<(), AllocError>
    requires some { 1 ≤ length text.now }
    requires short { length text.now ≤ longest_record }
    ensures { OnOk result (bytes.new.items ≡ bytes.old.items ++ stored format (text.now ∷ [])) }
{
    match format {
        Format::F => bytes.extend_from_slice(text),
        Format::V => put_var(bytes, text),
    }
}

// Reads the records that are left.
fn gather<W: World>(
    alloc: Global,
    world: &mut W,
    cursor: &mut Cursor,
    format: Format,
) -> Result<Gathered, DiskFault>
    requires blocks { ForSome (W.told world.old)
        (λ j. HasBlocks j.units cursor.old.unit cursor.old.total cursor.old.bsize) }
    requires fixed { cursor.old.begun.fixed ≡ fixed_of format cursor.old.begun.longest }
    requires short { cursor.old.begun.longest ≤ longest_record }
    ensures gathered { IfOk result (λ g. (records : List (List ℕ))
        × Gathers format cursor.old g.bytes.items g.longest records
        × OfImage (W.told world.old) cursor.old.unit
        (λ image. (all : List (List ℕ)) → HasLeft image cursor.old all → all ≡ records)) }
    ensures altered { IfErr result (λ e. e ≡ Altered
        → OfImage (W.told world.old) cursor.old.unit (λ image. (all : List (List ℕ))
        → HasLeft image cursor.old all → ⊥)) }
    ensures fault { IfErr result (λ e. (e ≡ Device) ⊎ (e ≡ Altered) ⊎ (e ≡ Memory)) }
    ensures reads { OnlyReads (seen W.World world.old) (seen W.World world.new) Device result }
{
    let mut bytes = Vec::new(alloc);
    let mut longest = 0;
    while cursor.next(world)? {
        let text = cursor.text();
        longest = longest.max(text.len() as u32);
        push(&mut bytes, format, text)?;
    }
    Ok(Gathered { bytes, longest })
}

// The length of a file's records: the one given at F, the longest's at V.
fn length_of(info: &FileInfo, longest: u32) -> u32
    ensures { result ≡ data_length info.now.format info.now.length longest }
{
    match info.format {
        Format::F => info.length,
        Format::V => longest,
    }
}

impl Minidisk {
    /// The records of the file of a name, as they are stored. `NotFound` exactly where no file has it; `Device` only where the device
    /// failed; `Altered` where the file's bytes aren't its records any more, which is never in a world that tells its journal and has left
    /// the file as it was.
    pub fn get<W: World>(
        &self,
        alloc: Global,
        world: &mut W,
        name: &Name,
    ) -> Result<FileData, DiskFault>
        requires blocks { ForSome (W.told world.old) (λ j. IsReadable j self.now) }
        ensures valid { IfOk result IsValid }
        ensures like { IfOk result (IsLike self.now.volume name.now) }
        ensures file { OfImage (W.told world.old) self.now.volume.unit
            (λ image. GetsIn image self.now name.now result) }
        ensures found { OnOk result (IsSome (place_of name.now self.now.volume)) }
        ensures missing { IfErr result (λ e. e ≡ NotFound
            → place_of name.now self.now.volume ≡ None) }
        ensures absent { place_of name.now self.now.volume ≡ None → result ≡ Err NotFound }
        ensures fault { IfErr result (λ e. (e ≡ NotFound) ⊎ (e ≡ Device) ⊎ (e ≡ Altered)
            ⊎ (e ≡ Memory)) }
        ensures reads { OnlyReads (seen W.World world.old) (seen W.World world.new) Device result }
    {
        let place = self.place(name)?;
        self.get_at(alloc, world, place)
    }

    /// The records of the file at a place, from 0 below the number of files, as they are stored. The faults are those of `get` but
    /// `NotFound`.
    pub fn get_at<W: World>(
        &self,
        alloc: Global,
        world: &mut W,
        place: u32,
    ) -> Result<FileData, DiskFault>
        requires place { place < length self.now.volume.files }
        requires blocks { ForSome (W.told world.old) (λ j. IsReadable j self.now) }
        ensures valid { IfOk result IsValid }
        ensures like { IfOk result (λ d. (name : names.Name)
            → place_of name self.now.volume ≡ Some place → IsLike self.now.volume name d) }
        ensures file { (name : names.Name) → place_of name self.now.volume ≡ Some place
            → OfImage (W.told world.old) self.now.volume.unit
            (λ image. GetsIn image self.now name result) }
        ensures fault { IfErr result (λ e. (e ≡ Device) ⊎ (e ≡ Altered) ⊎ (e ≡ Memory)) }
        ensures reads { OnlyReads (seen W.World world.old) (seen W.World world.new) Device result }
    {
        let info = self.info(place);
        let mut cursor = self.cursor_at(alloc, place)?;
        let gathered = gather(alloc, world, &mut cursor, info.format)?;
        Ok(FileData {
            format: info.format,
            length: length_of(&info, gathered.longest),
            number: info.number,
            stamp: info.stamp,
            count: info.count,
            bytes: Stored::take(gathered.bytes),
        })
    }
}
