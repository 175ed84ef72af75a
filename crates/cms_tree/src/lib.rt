//! Trees of pointer blocks over the data blocks of a file: their shape, reading them and building them.
#![tactic(auto)]

mod climb;
mod node;
mod read;
mod shared_level;
mod sizes;
mod types;

pub use climb::{Climb, climb_laws};
pub use node::{build, build_laws};
pub use read::{leaves, walk};
pub use shared_level::{fresh_places, keep_leaves, leave_leaves, left_out, path, path_laws};
pub use sizes::shape;
pub use types::{Mark, ResumeFault, Shape, TreeAt, TreeFault, Walked};
