// The label of a volume that is made.
ghost use Rattle.std.specs.Prelude.{◌≡◌, ◌≤◌, ◌++◌, ℕ, List, Ok, true};
ghost use Rattle.cms_fields.specs.Labels.{is_origin, label_of};
ghost use Rattle.cms_fields.specs.NewLabels.{first_fields};
ghost use Rattle.cms_fields.specs.Stamps.{is_stamp};

use crate::label::{ENTRY_SIZE, IDENTIFIER, Label};
use crate::packed::packed_stamp;
use crate::time::Stamp;
use cms_text::bytes::{put, put_word};

/// The first 80 bytes of block 3 of a volume that is made, with its date; zeros follow them.
///
/// With whatever follows they spell this label, on a unit of its block size and of at least its blocks.
pub fn first_fields(label: &Label, stamp: &Stamp) -> [u8; 80]
    requires { is_stamp stamp.now ≡ true }
    ensures bytes { result ≡ first_fields label.now stamp.now }
    ensures spells { is_origin label.now.origin ≡ true → 6 ≤ label.now.blocks
        → (rest : List ℕ) (blocks : ℕ) → label.now.blocks ≤ blocks
        → label_of label.now.bsize blocks (result ++ rest) ≡ Ok label.now }
{
    let Label {
        volid,
        bsize,
        origin,
        blocks,
        in_use,
    } = *label;
    let mut bytes = [0; 80];
    put_word(&mut bytes, 0, IDENTIFIER);
    put(&mut bytes, 4, &volid);
    put_word(&mut bytes, 12, bsize);
    put_word(&mut bytes, 16, origin);
    put_word(&mut bytes, 20, blocks);
    put_word(&mut bytes, 24, blocks);
    put_word(&mut bytes, 28, blocks);
    put_word(&mut bytes, 32, in_use);
    put_word(&mut bytes, 36, ENTRY_SIZE);
    put_word(&mut bytes, 40, bsize / ENTRY_SIZE);
    put(&mut bytes, 44, &packed_stamp(stamp));
    bytes
}
