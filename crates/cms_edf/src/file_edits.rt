// Files that go, have another name, or have their stamps moved.
ghost use Rattle.std.specs.Prelude.{◌≡◌, ◌⊎◌, ◌≤◌, ◌<◌, false, length, map, slice_get, slice_set, swap_remove, Some};
ghost use Rattle.indexmap.specs.IndexMap.{spare, values};
ghost use Rattle.cms_model.specs.Minidisks.{is_named};
ghost use Rattle.cms_held.specs.HeldVolumes as volumes;
ghost use Rattle.cms_held.specs.HeldVolumes.{by_name, names_in};
ghost use Rattle.cms_held.specs.Renewals.{moved_entry, moved_file, renamed};
ghost use Rattle.cms_model.specs.Changes.{stamp_moved};

use crate::held::HeldFile;
use cms_fields::{Entry, Stamp};
use cms_names::Name;
use indexmap::IndexMap;

/// The file at a place goes, and the last takes its place.
pub fn drop_file(files: &mut IndexMap<Name, HeldFile>, place: u32)
    requires within { place < length (values files.old) }
    requires named { files.old.entries ≡ by_name (values files.old) }
    ensures files { (f : volumes.HeldFile)
        → values files.new ≡ swap_remove (values files.old) place f }
    ensures named { files.new.entries ≡ by_name (values files.new) }
    ensures room { spare files.old ≤ spare files.new }
{
    files.swap_remove_index(place as usize);
}

// A file with another name and mode number.
fn with_name(file: HeldFile, to: &Name, number: u8) -> HeldFile
    ensures { result ≡ renamed to.now number file }
{
    let entry = Entry {
        name: *to,
        number,
        ..file.entry
    };
    HeldFile { entry, ..file }
}

/// The file at a place has another name, which no other file has, and mode number. It keeps its place.
pub fn rename_file(files: &mut IndexMap<Name, HeldFile>, place: u32, to: &Name, number: u8)
    requires within { place < length (values files.old) }
    requires named { files.old.entries ≡ by_name (values files.old) }
    requires free { (is_named to.now (names_in (values files.old)) ≡ false)
        ⊎ ((f : volumes.HeldFile) → slice_get (values files.old) place ≡ Some f
        → to.now ≡ f.entry.name) }
    requires room { 1 ≤ spare files.old }
    ensures files { (f : volumes.HeldFile) → slice_get (values files.old) place ≡ Some f
        → values files.new ≡ slice_set (values files.old) place (renamed to.now number f) }
    ensures named { files.new.entries ≡ by_name (values files.new) }
{
    let place = place as usize;
    let Some((_, file)) = files.swap_remove_index(place) else {
        return;
    };
    let file = with_name(file, to, number);
    files.insert(*to, file).unwrap();
    let last = files.len() - 1;
    files.swap_indices(place, last);
}

// A stamp of a year before that of the pivot in the 1900s is one of the same day a century later.
fn moved_stamp(stamp: Stamp, pivot: u32) -> Stamp
    requires { pivot ≤ 100 }
    ensures { result ≡ stamp_moved pivot stamp }
{
    if u32::from(stamp.year) < 1900 + pivot {
        Stamp {
            year: stamp.year + 100,
            ..stamp
        }
    } else {
        stamp
    }
}

/// The entry of a file whose stamp is moved.
pub fn moved_entry(entry: &Entry, pivot: u32) -> Entry
    requires { pivot ≤ 100 }
    ensures { result ≡ moved_entry pivot entry.now }
{
    Entry {
        stamp: moved_stamp(entry.stamp, pivot),
        ..*entry
    }
}

// The stamp of the file at a place is moved.
fn move_stamp(files: &mut IndexMap<Name, HeldFile>, place: usize, pivot: u32)
    requires pivot { pivot ≤ 100 }
    requires within { place < length (values files.old) }
    requires named { files.old.entries ≡ by_name (values files.old) }
    ensures files { (f : volumes.HeldFile) → slice_get (values files.old) place ≡ Some f
        → values files.new ≡ slice_set (values files.old) place (moved_file pivot f) }
    ensures named { files.new.entries ≡ by_name (values files.new) }
    ensures room { spare files.old ≤ spare files.new }
{
    let file = &mut files[place];
    file.entry = moved_entry(&file.entry, pivot);
}

/// The stamps of all files are moved. Each file keeps its place.
pub fn move_stamps(files: &mut IndexMap<Name, HeldFile>, pivot: u32)
    requires pivot { pivot ≤ 100 }
    requires named { files.old.entries ≡ by_name (values files.old) }
    ensures files { values files.new ≡ map (moved_file pivot) (values files.old) }
    ensures named { files.new.entries ≡ by_name (values files.new) }
    ensures room { spare files.old ≤ spare files.new }
{
    for place in 0..files.len() {
        move_stamp(files, place, pivot);
    }
}
