// A disk is released.
ghost use Rattle.std.specs.Prelude.{◌≡◌, None, IsSome, IfErr, OnOk};
ghost use Rattle.cms_search.specs.Release.{without_letter};
ghost use Rattle.cms_search.specs.Searches.{item_at};
ghost use Rattle.cms_search.specs.declared.fault.SearchFault.TheVariants.{NotAccessed};

use crate::fault::SearchFault;
use crate::place_event::PlaceEvent;
use crate::state::State;

impl State {
    /// Releases a letter, A is 0, and forgets the reading places on its disk; `NotAccessed` exactly where the letter isn't
    /// accessed.
    pub fn release(&mut self, letter: u8) -> Result<(), SearchFault>
        ensures released { OnOk result (IsSome (item_at self.old.table.seats letter)
            × (self.new ≡ without_letter letter self.old)) }
        ensures refused { IfErr result (λ e. (e ≡ NotAccessed letter)
            × (item_at self.old.table.seats letter ≡ None)
            × (self.new ≡ self.old)) }
    {
        let seat = self.table.seat(letter);
        self.table.release(letter)?;
        if let Some(seat) = seat {
            self.places.after(PlaceEvent::Left(seat.vdev));
        }
        Ok(())
    }
}
