// Where EXECIO goes on reading.
ghost use Rattle.std.specs.Prelude.{◌≡◌, OnOk, OnErr};
ghost use Rattle.std.specs.FinMap as finite;
ghost use Rattle.cms_search.specs.Machine.{place_key};
ghost use Rattle.cms_search.specs.Places.{after, without_device};

use crate::place_event::PlaceEvent;
use crate::place_key::PlaceKey;
use cms_names::Name;
use std::alloc::{AllocError, Global};
use std::collections::BTreeMap;
use std::marker::Model;

/// Reading places: for files of devices, the number of records in front of the place where reading goes on.
#[derive(Drop)]
pub struct Places {
    places: BTreeMap<PlaceKey, u32>,
}

impl Model for Places {
    ghost use Rattle.std.specs.FinMap as finite;
    ghost use Rattle.std.specs.Coded.{coded_ℕ, coded_list};
    ghost use Rattle.cms_search.specs.Machine as machine;

    ghost Value = { machine.Places };

    ghost coded = { finite.code (coded_list coded_ℕ) coded_ℕ };

    ghost view = { λ p. finite.from_entries p.places.entries };
}

impl Places {
    /// No place is kept.
    pub fn new(alloc: Global) -> Places
        ensures { result ≡ finite.empty }
    {
        Places {
            places: BTreeMap::new(alloc),
        }
    }

    /// The place in the file of a name; none exactly where none is kept.
    pub fn get(&self, vdev: u16, name: &Name) -> Option<u32>
        ensures { result ≡ finite.get self.now (place_key vdev name.now) }
    {
        self.places.get(&PlaceKey::of(vdev, name)).copied()
    }

    /// Keeps a place in a file, instead of the one that was kept. Without memory for it all stays as it was.
    pub fn set(&mut self, vdev: u16, name: Name, next: u32) -> Result<(), AllocError>
        ensures ok { OnOk result (self.new ≡ finite.insert self.old (place_key vdev name) next) }
        ensures err { OnErr result (self.new ≡ self.old) }
    {
        self.places.insert(PlaceKey::of(vdev, &name), next)?;
        Ok(())
    }

    /// Forgets the places that an event makes worthless, and no others.
    pub fn after(&mut self, event: PlaceEvent)
        ensures { self.new ≡ after event self.old }
    {
        match event {
            PlaceEvent::Changed(vdev, name) | PlaceEvent::Finished(vdev, name) => {
                self.forget(vdev, &name);
            }
            PlaceEvent::Left(vdev)
            | PlaceEvent::Accessed(vdev)
            | PlaceEvent::Formatted(vdev)
            | PlaceEvent::Doubted(vdev) => self.forget_disk(vdev),
            PlaceEvent::Ready => self.places.clear(),
        }
    }

    // Forgets the place in a file, if one is kept.
    fn forget(&mut self, vdev: u16, name: &Name)
        ensures { self.new ≡ finite.remove self.old (place_key vdev name.now) }
    {
        self.places.remove(&PlaceKey::of(vdev, name));
    }

    // Forgets the places in all files of a device, and no others.
    fn forget_disk(&mut self, vdev: u16)
        ensures { self.new ≡ without_device vdev self.old }
    {
        self.places.retain(|key, _| !key.is_of_device(vdev));
    }
}
