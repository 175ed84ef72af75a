// A volume is accessed.
ghost use Rattle.std.specs.Prelude.{◌≡◌, ◌<◌};
ghost use Rattle.cms_model.specs.Volumes.{reason};
ghost use Rattle.cms_search.specs.Access.{IsOfAccess, accessing_tree, forgetting, no_volume, refused_as};
ghost use Rattle.cms_search.specs.Calls.{Acts, IsUsable, beside, itself, spot};
ghost use Rattle.cms_search.specs.Searches.{has, item_at};
ghost use Rattle.cms_search.specs.Tables.{IsTable};

use crate::fault::SearchFault;
use crate::place_event::PlaceEvent;
use crate::places::Places;
use crate::state::{End, State};
use crate::table::{AccessTable, Seat};
use cms_disk::OpenFault;
use cms_world::World;
use std::alloc::Global;

/// What an access of a volume comes to.
#[derive(Clone, Copy)]
pub enum AccessEnd {
    /// the disk has the letter
    Done {
        /// it may only be read
        read_only: bool,
    },
    /// no unit has the device
    NoUnit,
    /// the letter whose extension the disk was to be isn't accessed
    NoParent(u8),
    /// the device failed
    Failed,
    /// the unit holds no volume, for the reason of this number: 2 to 9
    NoVolume(u32),
}

// The number of the reason for which a volume doesn't open.
#[tactic(auto, unfolding(cms_model::specs::Volumes::reason))]
fn reason(fault: OpenFault) -> u32
    ensures { result ≡ reason fault }
{
    match fault {
        OpenFault::Device => 1,
        OpenFault::Label(_) => 2,
        OpenFault::Entry(_, _) => 3,
        OpenFault::Pointer { .. } => 4,
        OpenFault::Crossed(_) => 5,
        OpenFault::MapMissing(_) => 6,
        OpenFault::Var(_, _) => 7,
        OpenFault::Twice(_) => 8,
        OpenFault::System(_) => 9,
        OpenFault::Memory => 10,
    }
}

// What an access of a unit comes to whose volume doesn't open.
fn no_volume(fault: OpenFault) -> AccessEnd
    ensures { result ≡ no_volume fault }
{
    match fault {
        OpenFault::Device => AccessEnd::Failed,
        fault => AccessEnd::NoVolume(reason(fault)),
    }
}

// What an access comes to that the table refuses. It writes to no letter and finds no file.
fn refused(fault: SearchFault) -> Result<AccessEnd, End>
    requires { IsOfAccess fault }
    ensures { result ≡ refused_as fault }
{
    match fault {
        SearchFault::NoUnit(_) => Ok(AccessEnd::NoUnit),
        SearchFault::NotAccessed(parent) => Ok(AccessEnd::NoParent(parent)),
        SearchFault::Volume(fault) => Ok(no_volume(fault)),
        SearchFault::Memory => Err(End::Memory),
        SearchFault::ReadOnly(_) | SearchFault::NotFound => unreachable!(),
    }
}

// Whether the disk of a letter may only be read.
fn is_read_only(table: &AccessTable, letter: u8) -> bool
    ensures read_only { result ≡ has (λ s. s.letter.read_only) (item_at table.now.seats letter) }
    ensures table { IsTable table.now }
{
    match table.seated(letter) {
        Some(seat) => seat.read_only,
        None => false,
    }
}

// Forgets the reading places on the disk of a device, and on the one whose letter it takes.
fn forget_taken(places: &mut Places, vdev: u16, left: Option<Seat>)
    ensures { places.new ≡ forgetting left vdev places.old }
{
    places.after(PlaceEvent::Accessed(vdev));
    if let Some(left) = left {
        places.after(PlaceEvent::Left(left.vdev));
    }
}

impl State {
    /// Accesses the volume of a device as a letter, A is 0; with `parent` it may only be read. Nothing is typed.
    ///
    /// Its unit leaves its old letter, and the letter its old unit; the reading places on both are forgotten. A unit in doubt is synced
    /// first: a good sync ends the doubt, also where the volume isn't accessed then. Else all stays where it isn't accessed.
    pub fn access<W: World>(
        &mut self,
        alloc: Global,
        world: &mut W,
        vdev: u16,
        letter: u8,
        parent: Option<u8>,
    ) -> Result<AccessEnd, End>
        requires usable { IsUsable (spot W.World world.old self.old) }
        requires letter { letter < 26 }
        ensures acts { Acts (spot W.World world.old self.old) (spot W.World world.new self.new)
            (accessing_tree self.old vdev letter parent) result (beside self.new itself) }
        ensures kept { self.new ≡ record self.old {
          table = self.new.table;
          places = self.new.places;
        } }
    {
        let left = self.table.seat(letter);
        match self.table.access(alloc, world, vdev, letter, parent) {
            Ok(()) => {
                forget_taken(&mut self.places, vdev, left);
                let read_only = is_read_only(&self.table, letter);
                Ok(AccessEnd::Done { read_only })
            }
            Err(fault) => refused(fault),
        }
    }
}
