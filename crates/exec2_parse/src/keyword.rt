// Keywords.
ghost use Rattle.std.specs.Prelude.{◌≡◌, length};
ghost use Rattle.cms_text.specs.Texts as texts;

use cms_text::is_keyword;

/// Whether a word is this keyword, which is given in ASCII capitals that all have codes, in capital or small letters. It isn't read where its
/// length differs.
#[tactic(auto, using(crate::proofs::Keywords::other_length))]
pub fn is_spelled(word: &[u8], name: &str) -> bool
    requires { length (texts.ebcdic name.now) ≡ length name.now }
    ensures { result ≡ texts.is_keyword name.now word.now }
{
    if word.len() != name.len() {
        return false;
    }
    is_keyword(word, name)
}
