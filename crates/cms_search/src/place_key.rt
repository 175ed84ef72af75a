// The key of a file among reading places.
ghost use Rattle.std.specs.Prelude.{◌≡◌, ◌++◌, ◌+◌, ◌≤◌, Some, length, nat_eq};
ghost use Rattle.std.specs.Ordering.{nat_cmp};
ghost use Rattle.std.specs.Cmp.{partial_equiv_from_equiv, partial_order_from_agreeing_total, unsigned_ties};
ghost use Rattle.std.specs.Cmp.Lexicographic.{pointwise, slice_cmp, nat_list_cmp_total, nat_list_eq_equiv, lists_ties};
ghost use Rattle.cms_search.specs.Machine.{place_key};
ghost use Rattle.cms_search.specs.Places.{is_of_device};
ghost use Rattle.std.proofs.Common.{refl};

use arrayvec::ArrayVec;
use cms_names::Name;
use std::cmp::Ordering;
use std::marker::Model;

// A device, two parts of up to 8 characters, and a zero between these.
const KEY_CODES: usize = 18;

/// The codes of a device, a file's name, a zero, and the file's type.
#[derive(Drop)]
pub struct PlaceKey {
    codes: ArrayVec<u16, KEY_CODES>,
}

impl Model for PlaceKey {
    ghost use Rattle.std.specs.Prelude.{List, ℕ};

    ghost Value = { List ℕ };

    ghost view = { λ k. k.codes.items };
}

// Adds characters last.
fn append(codes: &mut ArrayVec<u16, KEY_CODES>, text: &[u8])
    requires { length codes.old.items + length text.now ≤ 18 }
    ensures { codes.new.items ≡ codes.old.items ++ text.now }
{
    for character in text {
        codes.push(u16::from(*character));
    }
}

impl PlaceKey {
    /// The key of a file of a device.
    pub fn of(vdev: u16, name: &Name) -> PlaceKey
        ensures { result ≡ place_key vdev name.now }
    {
        let mut codes = ArrayVec::new();
        codes.push(vdev);
        append(&mut codes, name.file.as_bytes());
        codes.push(0);
        append(&mut codes, name.kind.as_bytes());
        PlaceKey { codes }
    }

    // The codes.
    fn as_slice(&self) -> &[u16]
        ensures { result.now ≡ self.now }
    {
        self.codes.as_slice()
    }

    /// The device.
    pub fn is_of_device(&self, vdev: u16) -> bool
        ensures { result ≡ is_of_device vdev self.now }
    {
        self.as_slice().first() == Some(&vdev)
    }
}

impl PartialEq for PlaceKey {
    ghost eq = { pointwise nat_eq };

    ghost laws = { partial_equiv_from_equiv nat_list_eq_equiv };

    fn eq(&self, other: &PlaceKey) -> bool {
        self.as_slice() == other.as_slice()
    }
}

impl Eq for PlaceKey {
    ghost laws = { nat_list_eq_equiv };
}

impl PartialOrd for PlaceKey {
    ghost partial_cmp = { λ a b. Some (slice_cmp nat_cmp a b) };

    ghost laws = { partial_order_from_agreeing_total (slice_cmp nat_cmp) nat_list_cmp_total (λ a b. refl)
        (lists_ties nat_cmp unsigned_ties) };

    fn partial_cmp(&self, other: &PlaceKey) -> Option<Ordering> {
        Some(self.cmp(other))
    }
}

impl Ord for PlaceKey {
    ghost cmp = { slice_cmp nat_cmp };

    ghost total = { nat_list_cmp_total };

    ghost matches_partial_cmp = { λ a b. refl };

    ghost matches_eq = { lists_ties nat_cmp unsigned_ties };

    fn cmp(&self, other: &PlaceKey) -> Ordering {
        self.as_slice().cmp(other.as_slice())
    }
}
