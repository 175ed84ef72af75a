// Lists of unit words.
ghost use Rattle.std.specs.Prelude.{◌≡◌, [], map};
ghost use Rattle.cms_words.specs.Words.{has_device, devices_of, repeated_device, units_from};
ghost use Rattle.cms_words.specs.Readings.{IsAnswer};

use crate::unit::unit_word;
use crate::{UnitWord, WordFault};
use cms_text::Series;
use std::alloc::Global;

/// The most unit words.
const MOST_UNITS: u32 = 16;

/// A list of unit words.
pub type UnitWords = Series<UnitWord>;

// Whether one of these units has the device.
fn has_device(units: &[UnitWord], vdev: u16) -> bool
    ensures { result ≡ has_device (devices_of units.now) vdev }
{
    match units {
        [] => false,
        [first, rest @ ..] => first.vdev == vdev || has_device(rest, vdev),
    }
}

/// The first device of the list that a unit before it has.
pub(crate) fn repeated_in(units: &[UnitWord]) -> Option<u16>
    ensures { result ≡ repeated_device [] (devices_of units.now) }
{
    for (place, unit) in units.iter().enumerate() {
        if has_device(&units[..place], unit.vdev) {
            return Some(unit.vdev);
        }
    }
    None
}

/// The units that the words say: at most 16, or the first word that isn't a unit word or is the 17th.
pub fn read_units(alloc: Global, words: &[&str]) -> Result<UnitWords, WordFault>
    ensures { IsAnswer result (units_from 1 (map (λ s. s.now) words.now)) }
{
    let mut units = UnitWords::new(alloc);
    let mut number = 1;
    for word in words {
        if number > MOST_UNITS {
            return Err(WordFault::Unit(number));
        }
        match unit_word(alloc, word) {
            Ok(Some(unit)) => {
                if let Err(_) = units.push(unit) {
                    return Err(WordFault::Memory);
                }
            }
            Ok(None) => return Err(WordFault::Unit(number)),
            Err(_) => return Err(WordFault::Memory),
        }
        number += 1;
    }
    Ok(units)
}
