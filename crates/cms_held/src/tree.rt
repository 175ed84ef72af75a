// The blocks of a tree as they are held.
ghost use Rattle.std.specs.Prelude.{◌≡◌};

use std::marker::Model;

/// The blocks of a tree: its data blocks in order, and its pointer blocks.
#[derive(Drop)]
pub struct HeldTree {
    pub leaves: Vec<u32>,
    pub pointers: Vec<u32>,
}

impl Model for HeldTree {
    ghost use Rattle.cms_held.specs.HeldVolumes as volumes;

    ghost Value = { volumes.HeldTree };

    ghost view = { λ t. record { leaves = t.leaves.items; pointers = t.pointers.items } };
}

impl HeldTree {
    /// Its data blocks, in order.
    pub fn leaves(&self) -> &[u32]
        ensures { result.now ≡ self.now.leaves }
    {
        &self.leaves
    }

    /// Its pointer blocks.
    pub fn pointers(&self) -> &[u32]
        ensures { result.now ≡ self.now.pointers }
    {
        &self.pointers
    }
}
