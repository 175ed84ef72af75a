//! The allocation map of a volume: which of its blocks are in use.
#![tactic(auto)]

mod laws;
mod map;

pub use laws::map_laws;
pub use map::{Map, is_marked};
