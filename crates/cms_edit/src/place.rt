// Where a text stands in a line, and what the line is with another in its place.
ghost use Rattle.std.specs.Prelude.{◌≡◌, ◌+◌, ◌≤◌, ◌<◌, length, IfOk, IfSome};
ghost use Rattle.std.specs.Option.{is_some};
ghost use Rattle.cms_edit.specs.Edits as spec;

use std::alloc::{AllocError, Global};

/// The place at which a text first stands in a line; none exactly where it doesn't.
pub fn place_in(text: &[u8], line: &[u8]) -> Option<usize>
    ensures place { result ≡ spec.place_in text.now line.now }
    ensures within { IfSome result (λ place. place + length text.now ≤ length line.now) }
{
    for place in 0..line.len() {
        if line[place..].starts_with(text) {
            return Some(place);
        }
    }
    None
}

/// Whether a text stands in a line.
pub fn contains(text: &[u8], line: &[u8]) -> bool
    ensures { result ≡ spec.contains text.now line.now }
{
    place_in(text, line).is_some()
}

/// The line with one text in place of another, which stands at this place.
pub fn with_text(
    alloc: Global,
    from: &[u8],
    to: &[u8],
    line: &[u8],
    place: usize,
) -> Result<Vec<u8>, AllocError>
    requires { place + length from.now ≤ length line.now }
    ensures { IfOk result (λ changed.
        changed.items ≡ spec.with_text from.now to.now line.now place) }
{
    let mut changed = line[..place].to_vec(alloc)?;
    changed.extend_from_slice(to)?;
    changed.extend_from_slice(&line[place + from.len()..])?;
    Ok(changed)
}
