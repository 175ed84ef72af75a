// The entries of a volume's files after an update.
ghost use Rattle.std.specs.Prelude.{◌≡◌, ◌≤◌, ◌<◌, All, Some, length, map, slice_get, swap_remove};
ghost use Rattle.cms_fields.specs.declared.entry.Entry.{Entry};
ghost use Rattle.cms_held.specs.Kept.{Keeps};
ghost use Rattle.cms_held.specs.Renewals.{entries_held, moved_entry};
ghost use Rattle.cms_held.specs.Written.{ReadsBack};
ghost use Rattle.cms_edf.specs.ChangePlans.{Edited, MayEdit};
ghost use Rattle.cms_edf.specs.FileDrafts.{IsPlaceIn, list_with};

use crate::change::FileEdit;
use crate::directory_bytes::spell_entry;
use crate::file_edits::moved_entry;
use crate::held::{Held, HeldFile};
use cms_fields::Entry;
use cms_names::Name;
use indexmap::IndexMap;
use std::marker::Model;

/// How the entries of the files that are held become others.
#[derive(Clone, Copy)]
pub enum Alteration {
    /// another stands in a place, or behind them
    Other { place: u32, entry: Entry },
    /// the stamps of all are moved
    Moved { pivot: u32 },
}

/// The entries of a volume's files after an update: the first `count` of the files as they are held, altered. They are told one by one,
/// and no list of them is made.
#[derive(Drop)]
pub struct NewEntries<'a> {
    files: &'a IndexMap<Name, HeldFile>,
    count: u32,
    alteration: Alteration,
}

impl<'a> Model for NewEntries<'a> {
    ghost use Rattle.std.specs.Prelude.{List, length};
    ghost use Rattle.indexmap.specs.IndexMap.{values};
    ghost use Rattle.cms_fields.specs.declared.entry.Entry.{Entry};
    ghost use Rattle.cms_held.specs.Renewals.{entries_held};
    ghost use Rattle.cms_edf.specs.NewEntries.{AreAltered, altered};

    ghost Value = { List Entry };

    ghost view = { λ l. altered (entries_held (values l.files.now)) l.count l.alteration };

    ghost invariant = { λ l. AreAltered (length (values l.files.now)) l.count l.alteration };
}

impl<'a> NewEntries<'a> {
    /// The entries with another in a place, or behind them. What is written for it is read back as it.
    pub fn with(held: &'a Held, place: Option<u32>, entry: &Entry) -> NewEntries<'a>
        requires { IsPlaceIn held.now.volume.files place }
        ensures entries { result ≡ list_with (entries_held held.now.volume.files) place entry.now }
        ensures spelled { ReadsBack entry.now }
        ensures kept { Keeps held.now.volume }
    {
        spell_entry(entry);
        let count = held.files.len() as u32;
        match place {
            Some(place) => NewEntries {
                files: &held.files,
                count,
                alteration: Alteration::Other {
                    place,
                    entry: *entry,
                },
            },
            None => NewEntries {
                files: &held.files,
                count: count + 1,
                alteration: Alteration::Other {
                    place: count,
                    entry: *entry,
                },
            },
        }
    }

    // The entries without the one at a place, which the last takes.
    fn without(held: &'a Held, place: u32) -> NewEntries<'a>
        requires { place < length held.now.volume.files }
        ensures { (e : Entry) → result ≡ swap_remove (entries_held held.now.volume.files) place e }
    {
        let last = held.files.len() - 1;
        NewEntries {
            files: &held.files,
            count: last as u32,
            alteration: Alteration::Other {
                place,
                entry: *held.files[last].entry(),
            },
        }
    }

    // The entries with the stamps of all moved.
    fn moved(held: &'a Held, pivot: u32) -> NewEntries<'a>
        requires { pivot ≤ 100 }
        ensures entries { result ≡ map (moved_entry pivot) (entries_held held.now.volume.files) }
        ensures back { All ReadsBack result }
    {
        let entries = NewEntries {
            files: &held.files,
            count: held.files.len() as u32,
            alteration: Alteration::Moved { pivot },
        };
        spell_entries(&entries);
        entries
    }

    /// The entries after an edit.
    pub fn edited(held: &'a Held, edit: &FileEdit) -> NewEntries<'a>
        requires { MayEdit held.now.volume.files edit.now }
        ensures edited { Edited held.now.volume edit.now result }
        ensures kept { Keeps held.now.volume }
    {
        match edit {
            FileEdit::Drop { place } => NewEntries::without(held, *place),
            FileEdit::Rename { place, to, number } => {
                let entry = Entry {
                    name: *to,
                    number: *number,
                    ..*held.files[*place as usize].entry()
                };
                NewEntries::with(held, Some(*place), &entry)
            }
            FileEdit::Century { pivot } => NewEntries::moved(held, *pivot),
        }
    }

    /// How many there are.
    pub fn count(&self) -> u32
        ensures { result ≡ length self.now }
    {
        self.count
    }

    /// The entry at a place, from 0 below their number.
    pub fn get(&self, nth: u32) -> Entry
        requires { nth < length self.now }
        ensures { slice_get self.now nth ≡ Some result }
    {
        match self.alteration {
            Alteration::Other { place, entry } => {
                if nth == place {
                    entry
                } else {
                    *self.files[nth as usize].entry()
                }
            }
            Alteration::Moved { pivot } => moved_entry(self.files[nth as usize].entry(), pivot),
        }
    }
}

// What is written for each of the entries is read back as it.
fn spell_entries(entries: &NewEntries<'_>)
    ensures { All ReadsBack entries.now }
{
    for nth in 0..entries.count() {
        spell_entry(&entries.get(nth));
    }
}
