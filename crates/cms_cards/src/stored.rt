// The records of a file in its stored bytes.
ghost use Rattle.std.specs.Prelude.{◌≡◌, ◌<◌, ◌^◌, length, is_some};
ghost use Rattle.cms_model.specs.Records.{varying};
ghost use Rattle.cms_records.specs.Views.{longest_in};
ghost use Rattle.cms_cards.specs.Stored as spec;

use cms_model::VarFault;
use cms_names::Format;
use cms_records::first_size;

// The length of the longest of so many records of varying lengths, which fill the bytes.
fn longest_of(bytes: &[u8], count: u32) -> Result<u32, VarFault>
    requires { length bytes.now < 2 ^ 32 }
    ensures { result ≡ longest_in 1 count bytes.now }
{
    let mut place = 0;
    let mut longest: u32 = 0;
    for _done in 0..count {
        let size = first_size(&bytes[place as usize..], place)?;
        longest = longest.max(size);
        place += 2 + size;
    }
    if bytes.len() > place as usize {
        return Err(VarFault::Left(place));
    }
    Ok(longest)
}

/// Whether bytes are so many records of a format and length, at V that of the longest.
#[tactic(auto, unfolding(crate::specs::Stored::filling))]
pub(crate) fn are_filled(format: Format, size: u32, count: u32, bytes: &[u8]) -> bool
    requires { length bytes.now < 2 ^ 32 }
    ensures { result ≡ is_some (spec.filling format size count bytes.now) }
{
    match format {
        Format::F => u64::from(count) * u64::from(size) == bytes.len() as u64,
        Format::V => match longest_of(bytes, count) {
            Ok(longest) => longest == size,
            Err(_) => false,
        },
    }
}
