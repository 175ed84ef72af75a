//! TEST01 with HELLO TEXT, what is put into it, and what its erasure writes. Nothing stands in it but what a reader looks at.
use crate::edits::{Edit, edited, put_edits};
use std::alloc::{AllocError, Global};

/// TEST01 on 9 blocks: the directory in block 4, the map in block 6, and in block 7 HELLO TEXT A1 with the records HELLO and WORLD.
pub const HELLO: &[Edit] = &[
    (3, 0, &[0xC3, 0xD4, 0xE2, 0xF1]),
    (3, 4, &[0xE3, 0xC5, 0xE2, 0xE3, 0xF0, 0xF1]),
    (3, 12, &[0, 0, 2, 0]),
    (3, 16, &[0, 0, 0, 4]),
    (3, 28, &[0, 0, 0, 9]),
    (3, 36, &[0, 0, 0, 64]),
    (4, 30, &[0xC6]),
    (4, 32, &[0, 0, 0, 64]),
    (4, 40, &[0, 0, 0, 4]),
    (4, 44, &[0, 0, 0, 1]),
    (4, 48, &[0, 0, 0, 3]),
    (4, 94, &[0xC6]),
    (4, 96, &[0, 0, 2, 0]),
    (4, 104, &[0, 0, 0, 6]),
    (4, 108, &[0, 0, 0, 1]),
    (4, 112, &[0, 0, 0, 1]),
    (4, 128, &[0xC8, 0xC5, 0xD3, 0xD3, 0xD6, 0x40, 0x40, 0x40]),
    (4, 136, &[0xE3, 0xC5, 0xE7, 0xE3, 0x40, 0x40, 0x40, 0x40]),
    (4, 152, &[0xC1, 0xF1]),
    (4, 158, &[0xC6]),
    (4, 160, &[0, 0, 0, 5]),
    (4, 168, &[0, 0, 0, 7]),
    (4, 172, &[0, 0, 0, 1]),
    (4, 176, &[0, 0, 0, 2]),
    (4, 180, &[0, 4]),
    (4, 182, &[0x00, 0x01, 0x01, 0x00, 0x00, 0x00]),
    (6, 0, &[0xFE, 0x00]),
    (7, 0, &[0xC8, 0xC5, 0xD3, 0xD3, 0xD6]),
    (7, 5, &[0xE6, 0xD6, 0xD9, 0xD3, 0xC4]),
];

/// One more file: HELLO LIST A2 with the record B in block 8.
pub const SECOND: &[Edit] = &[
    (4, 48, &[0, 0, 0, 4]),
    (4, 192, &[0xC8, 0xC5, 0xD3, 0xD3, 0xD6, 0x40, 0x40, 0x40]),
    (4, 200, &[0xD3, 0xC9, 0xE2, 0xE3, 0x40, 0x40, 0x40, 0x40]),
    (4, 216, &[0xC1, 0xF2]),
    (4, 222, &[0xC6]),
    (4, 224, &[0, 0, 0, 1]),
    (4, 232, &[0, 0, 0, 8]),
    (4, 236, &[0, 0, 0, 1]),
    (4, 240, &[0, 0, 0, 1]),
    (4, 244, &[0, 4]),
    (4, 246, &[0x99, 0x12, 0x31, 0x23, 0x59, 0x59]),
    (6, 0, &[0xFF, 0x00]),
    (8, 0, &[0xC2]),
];

/// A third, behind the second, on ten blocks: HELL TEXT A1 with the record C in block 9.
pub const THIRD: &[Edit] = &[
    (3, 28, &[0, 0, 0, 10]),
    (4, 48, &[0, 0, 0, 5]),
    (4, 256, &[0xC8, 0xC5, 0xD3, 0xD3, 0x40, 0x40, 0x40, 0x40]),
    (4, 264, &[0xE3, 0xC5, 0xE7, 0xE3, 0x40, 0x40, 0x40, 0x40]),
    (4, 280, &[0xC1, 0xF1]),
    (4, 286, &[0xC6]),
    (4, 288, &[0, 0, 0, 1]),
    (4, 296, &[0, 0, 0, 9]),
    (4, 300, &[0, 0, 0, 1]),
    (4, 304, &[0, 0, 0, 1]),
    (4, 308, &[0, 4]),
    (4, 310, &[0x99, 0x12, 0x31, 0x23, 0x59, 0x59]),
    (6, 0, &[0xFF, 0x80]),
    (9, 0, &[0xC3]),
];

/// No block is free.
pub const MARKED: &[Edit] = &[(6, 0, &[0xFF, 0x80])];

/// The label doesn't begin with CMS1.
pub const NO_LABEL: &[Edit] = &[(3, 0, &[0x00])];

/// L FILE in the place of HELLO TEXT, on twenty blocks: three records of 512 bytes in blocks 7 to 9 below the pointer block 10.
pub const LONG: &[Edit] = &[
    (3, 28, &[0, 0, 0, 20]),
    (4, 128, &[0xD3, 0x40, 0x40, 0x40, 0x40, 0x40, 0x40, 0x40]),
    (4, 136, &[0xC6, 0xC9, 0xD3, 0xC5, 0x40, 0x40, 0x40, 0x40]),
    (4, 160, &[0, 0, 2, 0]),
    (4, 168, &[0, 0, 0, 10]),
    (4, 172, &[0, 0, 0, 3]),
    (4, 176, &[0, 0, 0, 3]),
    (4, 180, &[1, 4]),
    (6, 0, &[0xFF, 0xC0]),
    (7, 0, &[0xC1; 512]),
    (8, 0, &[0xC2; 512]),
    (9, 0, &[0xC3; 512]),
    (10, 0, &[0, 0, 0, 7, 0, 0, 0, 8, 0, 0, 0, 9]),
];

/// TYPE EXEC in the place of HELLO TEXT.
pub const TYPE_EXEC: &[Edit] = &[
    (4, 128, &[0xE3, 0xE8, 0xD7, 0xC5, 0x40, 0x40, 0x40, 0x40]),
    (4, 136, &[0xC5, 0xE7, 0xC5, 0xC3, 0x40, 0x40, 0x40, 0x40]),
];

/// ERASE EXEC in its place.
pub const ERASE_EXEC: &[Edit] = &[
    (4, 128, &[0xC5, 0xD9, 0xC1, 0xE2, 0xC5, 0x40, 0x40, 0x40]),
    (4, 136, &[0xC5, 0xE7, 0xC5, 0xC3, 0x40, 0x40, 0x40, 0x40]),
];

/// What is written where HELLO TEXT is erased at noon of 1 July 2026: first the map, to block 8.
pub const NEW_MAP: &[Edit] = &[(8, 0, &[0xF9, 0x00])];

/// Then the directory, to block 5.
pub const NEW_DIRECTORY: &[Edit] = &[
    (5, 0, &[0, 0, 0, 1, 0, 0, 0, 0]),
    (5, 8, &[0xC4, 0xC9, 0xD9, 0xC5, 0xC3, 0xE3, 0xD6, 0xD9]),
    (5, 24, &[0xC1, 0xF1]),
    (5, 30, &[0xC6, 0x08]),
    (5, 32, &[0, 0, 0, 64]),
    (5, 40, &[0, 0, 0, 5]),
    (5, 44, &[0, 0, 0, 1]),
    (5, 48, &[0, 0, 0, 2]),
    (5, 53, &[4]),
    (5, 54, &[0x26, 0x07, 0x01, 0x12, 0x00, 0x00]),
    (5, 64, &[0, 0, 0, 2, 0, 0, 0, 0]),
    (5, 72, &[0xC1, 0xD3, 0xD3, 0xD6, 0xC3, 0xD4, 0xC1, 0xD7]),
    (5, 88, &[0xC1, 0xF1]),
    (5, 94, &[0xC6, 0x08]),
    (5, 96, &[0, 0, 2, 0]),
    (5, 104, &[0, 0, 0, 8]),
    (5, 108, &[0, 0, 0, 1]),
    (5, 112, &[0, 0, 0, 1]),
    (5, 117, &[4]),
    (5, 118, &[0x26, 0x07, 0x01, 0x12, 0x00, 0x00]),
];

/// And the label.
pub const NEW_LABEL: &[Edit] = &[(3, 16, &[0, 0, 0, 5]), (3, 32, &[0, 0, 0, 6])];

/// TEST01 with HELLO TEXT, and with these edits.
pub fn hello(alloc: Global, edits: &[Edit]) -> Result<Vec<u8>, AllocError> {
    let mut image = edited(alloc, 9, &[HELLO])?;
    put_edits(image.as_mut_slice(), edits);
    Ok(image)
}

/// TEST01 with HELLO TEXT, HELLO LIST and HELL TEXT, on ten blocks.
pub fn three(alloc: Global) -> Result<Vec<u8>, AllocError> {
    edited(alloc, 10, &[HELLO, SECOND, THIRD])
}
