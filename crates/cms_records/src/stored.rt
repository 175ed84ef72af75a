// The records of a file, one after another.
ghost use Rattle.std.specs.Prelude.{◌≡◌, ◌^◌, ◌<◌, List, ℕ, length};
ghost use Rattle.std.specs.Iterator.{YieldsFirstRef, item_count};
ghost use Rattle.cms_model.specs.Records.{IsValid, StandsFor};
ghost use Rattle.cms_records.specs.Stored.{left_in, records_in};

use crate::{FixedView, VarView};
use cms_model::FileData;
use cms_names::Format;
use std::marker::Model;

// The records that are left, by their format.
#[derive(Drop)]
enum View<'a> {
    Fixed(FixedView<'a>),
    Varying(VarView<'a>),
}

/// The records of a file that are left, seen as a list.
#[derive(Drop)]
pub struct Records<'a> {
    view: View<'a>,
}

impl<'a> Model for Records<'a> {
    ghost use Rattle.std.specs.Prelude.{List, ℕ};
    ghost use Rattle.cms_records.specs.Stored.{left_in};

    ghost Value = { List (List ℕ) };

    ghost view = { λ r. left_in r.view };
}

impl<'a> Records<'a> {
    /// The records of a file.
    pub fn of(file: &'a FileData) -> Records<'a>
        requires { IsValid file.now }
        ensures records { result ≡ records_in file.now }
        ensures stands { (records : List (List ℕ)) → StandsFor file.now records → result ≡ records }
        ensures count { length result ≡ file.now.count }
        ensures few { file.now.count < 2 ^ 32 }
    {
        Records {
            view: view_of(file),
        }
    }
}

// All records of a file, by its format.
fn view_of(file: &FileData) -> View<'_>
    requires { IsValid file.now }
    ensures records { left_in result ≡ records_in file.now }
    ensures few { file.now.count < 2 ^ 32 }
{
    let bytes = file.bytes.bytes();
    match file.format {
        Format::F => View::Fixed(FixedView::new(bytes, file.length, file.count)),
        Format::V => View::Varying(VarView::of_checked(bytes, file.count)),
    }
}

impl<'a> Iterator for Records<'a> {
    type Item = &'a [u8];

    ghost next_gives = { YieldsFirstRef (λ records. records) };

    ghost remaining = { item_count (λ records. records) };

    fn next(&mut self) -> Option<&'a [u8]> {
        match &mut self.view {
            View::Fixed(records) => records.next(),
            View::Varying(records) => records.next(),
        }
    }
}
