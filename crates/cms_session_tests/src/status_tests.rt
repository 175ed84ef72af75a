// How statuses are told.
use cms_session::{Status, WordFault};

#[test]
fn statuses_have_codes(rt: HostRuntime) {
    let codes = [
        Status::Done.code(),
        Status::Usage(WordFault::Syntax).code(),
        Status::Usage(WordFault::Unit(1)).code(),
        Status::Usage(WordFault::Seed).code(),
        Status::Memory.code(),
        Status::World.code(),
        Status::Turns.code(),
    ];
    assert_eq!(rt; codes.as_slice(), [0u8, 2, 2, 2, 3, 4, 5].as_slice());
}
