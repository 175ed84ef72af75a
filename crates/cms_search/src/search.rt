// Searches of a table.
ghost use Rattle.std.specs.Prelude.{◌≡◌, ◌⊎◌, ◌≤◌, ◌++◌, ◌+◌, Ok, Err, length, IfOk, IfErr, OnOk};
ghost use Rattle.cms_search.specs.Searches.{find_first, fitting, found_in, found_on, has, is_found, is_searched, item_at, letters_of_mode, look_up, placed_on, search, searched, shelves_in};
ghost use Rattle.cms_search.specs.Machine.{Machine};
ghost use Rattle.cms_search.specs.Tables.{shelf_of, shelves_of, told_of};
ghost use Rattle.cms_search.specs.Shows.{Shows};
ghost use Rattle.cms_search.specs.declared.fault.SearchFault.TheVariants.{Memory};

use crate::fault::SearchFault;
use crate::order::SearchOrder;
use crate::seated::Seated;
use crate::table::AccessTable;
use cms_disk::FileInfo;
use cms_names::{Name, Pattern};
use cms_operands::ReadMode;
use cms_text::Series;
use std::alloc::{AllocError, Global};

/// A file that a search found.
#[derive(Clone, Copy)]
pub struct Found {
    /// the letter of its disk, A is 0
    pub letter: u8,
    /// its place on the disk, from 0
    pub place: u32,
}

/// The files that a search found, in its order.
pub type FoundList = Series<Found>;

// Whether two patterns fit the name of a file, and it is found.
fn is_found(seat: &Seated, info: &FileInfo, file: &Pattern, kind: &Pattern, mode: &ReadMode) -> bool
    ensures { result ≡ is_found mode.now (fitting file.now kind.now) seat.now.letter
        (told_of info.now) }
{
    file.fits(&info.name.file) && kind.fits(&info.name.kind) && seat.may_find(mode, info.number)
}

impl AccessTable {
    // Whether the disk of a letter is searched behind another, or with none at all.
    fn is_searched(&self, letter: u8, base: Option<u8>) -> bool
        ensures { result ≡ has (is_searched base) (item_at (shelves_of self.now) letter) }
    {
        match (self.seated(letter), base) {
            (None, _) => false,
            (Some(_), None) => true,
            (Some(seat), Some(base)) => seat.parent == Some(base),
        }
    }

    // These letters, and behind them those that are searched behind one, or all.
    fn with_searched(&self, order: SearchOrder, base: Option<u8>) -> SearchOrder
        requires { length order ≤ 1 }
        ensures { result ≡ order ++ searched base (shelves_of self.now) }
    {
        let mut order = order;
        for letter in 0..self.letters() {
            if self.is_searched(letter, base) {
                order.push(letter);
            }
        }
        order
    }

    // The letters that a mode searches.
    fn order(&self, mode: &ReadMode) -> Result<SearchOrder, SearchFault>
        ensures { result ≡ letters_of_mode (shelves_of self.now) mode.now }
    {
        match mode.base() {
            None => Ok(self.with_searched(SearchOrder::new(), None)),
            Some(letter) => match self.seated(letter) {
                None => Err(SearchFault::NotAccessed(letter)),
                Some(_) => Ok(self.with_searched(SearchOrder::of(letter), Some(letter))),
            },
        }
    }

    // The place of the file of a name on a letter's disk, where it may be found.
    fn find_on(&self, letter: u8, name: &Name, mode: &ReadMode) -> Option<u32>
        ensures { result ≡ placed_on (shelves_of self.now) mode.now name.now letter }
    {
        let seat = self.seated(letter)?;
        let place = seat.disk.find(name)?;
        let info = seat.disk.info(place);
        if seat.may_find(mode, info.number) {
            Some(place)
        } else {
            None
        }
    }

    // The first file of a name, disk by disk.
    fn find_first(&self, name: &Name, mode: &ReadMode) -> Result<Found, SearchFault>
        ensures { result ≡ find_first (shelves_of self.now) mode.now name.now }
    {
        let order = self.order(mode)?;
        for letter in order.as_slice() {
            if let Some(place) = self.find_on(*letter, name, mode) {
                return Ok(Found {
                    letter: *letter,
                    place,
                });
            }
        }
        Err(SearchFault::NotFound)
    }

    /// The first file of a name that is found: `NotAccessed` exactly where the mode's letter isn't accessed, else `NotFound` exactly
    /// where no disk that is searched has the file, or it isn't seen there.
    pub fn find_read(&self, name: &Name, mode: &ReadMode) -> Result<Found, SearchFault>
        ensures found { result ≡ find_first (shelves_of self.now) mode.now name.now }
        ensures machine { (s : Machine) → Shows self.now s
            → result ≡ look_up (shelves_in s) mode.now name.now }
    {
        self.find_first(name, mode)
    }

    // Adds the files of a letter's disk that are found.
    fn collect(
        &self,
        found: &mut FoundList,
        letter: u8,
        file: &Pattern,
        kind: &Pattern,
        mode: &ReadMode,
    ) -> Result<(), AllocError>
        ensures { OnOk result (found.new
            ≡ found.old ++ found_on (shelves_of self.now) mode.now
            (fitting file.now kind.now) letter) }
    {
        match self.seated(letter) {
            None => Ok(()),
            Some(seat) => collect_from(found, letter, seat, file, kind, mode),
        }
    }

    // All files whose names two patterns fit.
    fn find_all(
        &self,
        alloc: Global,
        file: &Pattern,
        kind: &Pattern,
        mode: &ReadMode,
    ) -> Result<FoundList, SearchFault>
        ensures found { IfOk result (λ found.
            search (shelves_of self.now) mode.now (fitting file.now kind.now) ≡ Ok found) }
        ensures refused { IfErr result (λ e. (e ≡ Memory)
            ⊎ (search (shelves_of self.now) mode.now (fitting file.now kind.now) ≡ Err e)) }
    {
        let order = self.order(mode)?;
        let mut found = FoundList::new(alloc);
        for letter in order.as_slice() {
            self.collect(&mut found, *letter, file, kind, mode)?;
        }
        Ok(found)
    }

    /// All files whose names two patterns fit, in the order of the search: disk by disk, and on each in the directory's order.
    /// `NotAccessed` exactly where the mode's letter isn't accessed; else there is no memory.
    pub fn matches(
        &self,
        alloc: Global,
        file: &Pattern,
        kind: &Pattern,
        mode: &ReadMode,
    ) -> Result<FoundList, SearchFault>
        ensures found { IfOk result (λ found.
            search (shelves_of self.now) mode.now (fitting file.now kind.now) ≡ Ok found) }
        ensures refused { IfErr result (λ e. (e ≡ Memory)
            ⊎ (search (shelves_of self.now) mode.now (fitting file.now kind.now) ≡ Err e)) }
        ensures machine { IfOk result (λ found. (s : Machine) → Shows self.now s
            → search (shelves_in s) mode.now (fitting file.now kind.now) ≡ Ok found) }
    {
        self.find_all(alloc, file, kind, mode)
    }
}

// Adds the files of a disk that are found.
fn collect_from(
    found: &mut FoundList,
    letter: u8,
    seat: &Seated,
    file: &Pattern,
    kind: &Pattern,
    mode: &ReadMode,
) -> Result<(), AllocError>
    ensures { OnOk result (found.new
        ≡ found.old ++ found_in mode.now (fitting file.now kind.now) letter (shelf_of seat.now)) }
{
    for place in 0..seat.disk.count() {
        let info = seat.disk.info(place);
        if is_found(seat, &info, file, kind, mode) {
            found.push(Found { letter, place })?;
        }
    }
    Ok(())
}
