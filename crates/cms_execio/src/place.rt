// Which records DISKR reads, and where reading goes on.
ghost use Rattle.std.specs.Prelude.{◌≡◌, ◌≤◌, OnOk, OnErr, pos};
ghost use Rattle.cms_execio.specs.Diskr as spec;

use crate::line::ReadRange;
use cms_names::Name;
use cms_search::{PlaceEvent, Places};
use std::alloc::AllocError;

// The code where fewer records were left than a number asks for.
const END_OF_FILE: i32 = 2;

/// How many records stand in front of the first that is read: by the line, else by the place that is kept, else none.
pub fn in_front(places: &Places, range: &ReadRange, vdev: u16) -> u32
    ensures { result ≡ spec.in_front places.now range.now vdev }
{
    match range.first {
        Some(first) => first.saturating_sub(1),
        None => places.get(vdev, &range.input.name).unwrap_or(0),
    }
}

/// How many records are read of so many that are left.
pub fn taken_of(count: Option<u32>, left: u32) -> u32
    ensures taken { result ≡ spec.taken_of count left }
    ensures few { result ≤ left }
{
    match count {
        Some(count) => count.min(left),
        None => left,
    }
}

/// The code of a reading by what it was asked for and what it took.
pub fn code_of_taken(count: Option<u32>, taken: u32) -> i32
    ensures { result ≡ pos (spec.code_of_taken count taken) }
{
    match count {
        Some(count) if taken < count => END_OF_FILE,
        _ => 0,
    }
}

/// Reading goes on behind so many records; or no place is kept. Without memory all stays as it was.
pub fn go_on(
    places: &mut Places,
    forgets: bool,
    vdev: u16,
    name: &Name,
    next: u32,
) -> Result<(), AllocError>
    ensures ok { OnOk result (places.new ≡ spec.going_on forgets vdev name.now next places.old) }
    ensures err { OnErr result (places.new ≡ places.old) }
{
    if forgets {
        places.after(PlaceEvent::Finished(vdev, *name));
        return Ok(());
    }
    places.set(vdev, *name, next)
}
