// The words of a program, and the names of images.
use cms_cases::{Report, word};
use cms_world::{Argv, ImageName};
use std::alloc::Global;
use std::process::Abort;

/// `len`: how many words there are of `cms`, an empty one and `191,512,rw,disk`; `get/PLACE`: the one at a place; `name/TEXT`: an image's
/// name.
pub const ROWS: &str = r#"len => 3
get/0 => Some("cms")
get/1 => Some("")
get/2 => Some("191,512,rw,disk")
get/3 => None
get/18446744073709551615 => None
name/a name => "a name""#;

fn argv<R: Abort>(rt: &R, alloc: Global) -> Argv {
    let mut words = Argv::new(alloc);
    for word in ["cms", "", "191,512,rw,disk"] {
        words.push(word).expect(rt, "memory");
    }
    words
}

fn tell_word<R: Abort>(into: &mut Report, rt: &R, alloc: Global, place: &str) {
    let place = place.parse().expect(rt, "a place");
    into.value(&argv(rt, alloc).get(place))
}

/// Tells what a case comes to.
pub fn tell<R: Abort>(into: &mut Report, rt: &R, alloc: Global, case: &str) {
    match word(case, 0) {
        "len" => into.value(&argv(rt, alloc).len()),
        "get" => tell_word(into, rt, alloc, word(case, 1)),
        _ => into.value(
            &ImageName::of(alloc, word(case, 1))
                .expect(rt, "memory")
                .text(),
        ),
    }
}
