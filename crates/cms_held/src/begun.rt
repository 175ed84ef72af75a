// A file that stands in part before it is written on.
use cms_tree::{Climb, Mark};

/// What stands already of a file that is written on: its first data blocks with the pointer blocks over these, and the bytes that its next
/// data block begins with.
#[derive(Drop)]
pub struct Begun {
    /// goes on with the pointer blocks that stand
    pub climb: Climb,
    /// the data blocks that stand
    pub kept: u32,
    /// the first bytes of the data block behind them, and zeros
    pub block: Vec<u8>,
    /// how many bytes these are, fewer than a block has
    pub filled: u32,
    /// the mark of that data block, so far
    pub mark: Mark,
}
