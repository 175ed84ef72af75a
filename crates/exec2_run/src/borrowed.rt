// Values that are borrowed and not copied.
ghost use Rattle.std.specs.Prelude.{◌≡◌, ◌≢◌, ◌≤◌, ◌∷◌, ℕ, List, length, IfSome, MatchOption, Ok};
ghost use Rattle.cms_text.specs.Limits.{longest_text};
ghost use Rattle.exec2_parse.specs.Expansion.{Binding, expanded};
ghost use Rattle.exec2_run.specs.Given.{bound};
ghost use Rattle.exec2_run.specs.Variables.{NamesVariable, target};

use crate::given::{Seen, is_given};
use exec2_parse::{is_folded, is_plain};

const AMPERSAND: u8 = 0x50;

/// What a word becomes, where that needn't be made: a word without an ampersand is itself, and a variable's name gives way to the value that
/// is kept.
#[tactic(auto, using(crate::proofs::Borrows::plain_word, crate::proofs::Borrows::variable_word))]
pub fn borrowed<'a>(seen: &'a Seen<'_>, word: &'a [u8]) -> Option<&'a [u8]>
    ensures { IfSome result (λ text. expanded (bound seen.now) word.now ≡ Ok text.now) }
{
    if is_plain(word) {
        return Some(word);
    }
    let name = variable_in(word)?;
    Some(seen.variables.bytes(name))
}

/// The name of the variable that is written as an assignment's target, where it stands there as it is.
#[tactic(auto, using(crate::proofs::Borrows::plain_target))]
pub fn borrowed_target(word: &[u8]) -> Option<&[u8]>
    requires { length word.now ≤ longest_text }
    ensures name { IfSome result (λ name. (names : Binding) → target names word.now ≡ Ok name.now) }
    ensures short { IfSome result (λ name. length name.now ≤ longest_text) }
{
    variable_in(word)
}

/// The variable that a word names as it stands: an ampersand and the name, which has no ampersand and no small letter and isn't given.
fn variable_in(word: &[u8]) -> Option<&[u8]>
    ensures { IfSome result (λ name. NamesVariable word.now name.now) }
{
    let name = behind_ampersand(word)?;
    if !is_plain(name) || is_given(name) || !is_folded(name) {
        return None;
    }
    Some(name)
}

/// What stands behind the ampersand that a word begins with.
pub fn behind_ampersand(word: &[u8]) -> Option<&[u8]>
    ensures { MatchOption result ((rest : List ℕ) → word.now ≢ 0x50 ∷ rest)
        (λ rest. word.now ≡ 0x50 ∷ rest.now) }
{
    match word {
        [AMPERSAND, rest @ ..] => Some(rest),
        _ => None,
    }
}
