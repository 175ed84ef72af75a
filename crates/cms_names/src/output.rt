// The names of outputs.
ghost use Rattle.std.specs.Prelude.{◌≡◌};
ghost use Rattle.cms_names.specs.Modes.{out_id_of, out_part_of, equal_signs};

use crate::character::EQUAL_SIGN;
use crate::fault::NameFault;
use crate::name::{Name, Part};

/// The name that a command's output is to have; a part that is none is the input's (VM/SP CMS
/// Command and Macro Reference, COPYFILE and RENAME).
#[derive(Clone, Copy)]
pub struct OutId {
    pub file: Option<Part>,
    pub kind: Option<Part>,
}

impl OutId {
    /// The output identifier that two words spell, each a part or `=`. The error is that of the
    /// first word that is neither.
    pub fn read(file: &[u8], kind: &[u8]) -> Result<OutId, NameFault>
        ensures { result ≡ out_id_of file.now kind.now }
    {
        let file = read_part(file)?;
        let kind = read_part(kind)?;
        Ok(OutId { file, kind })
    }
}

#[tactic(auto, unfolding(crate::specs::Modes::out_part_of))]
fn read_part(word: &[u8]) -> Result<Option<Part>, NameFault>
    ensures { result ≡ out_part_of word.now }
{
    if word == [EQUAL_SIGN].as_slice() {
        return Ok(None);
    }
    Ok(Some(Part::read(word)?))
}

/// The name of the output: each part as the output identifier has it, and the input's where it has
/// `=`.
#[tactic(auto, unfolding(crate::specs::Modes::equal_signs))]
pub fn equal_signs(from: &Name, to: &OutId) -> Name
    ensures { result ≡ equal_signs from.now to.now }
{
    Name {
        file: to.file.unwrap_or(from.file),
        kind: to.kind.unwrap_or(from.kind),
    }
}
