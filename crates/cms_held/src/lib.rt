//! Volumes as they are held in memory, and the laws of their updates: how a volume that opens is held, what an update of it takes and
//! writes, and what it is afterwards. And a file that is written while its records come: its data blocks one after another, each with
//! the pointer blocks that are complete with it.
#![tactic(auto)]

mod begun;
mod block_writer;
mod file_writer;
mod laws;
mod shape;
mod tree;

pub use begun::Begun;
pub use file_writer::FileWriter;
pub use laws::{
    adding_laws, carrying_laws, draft_laws, growing_laws, held_laws, making_laws, put_laws,
    renewal_laws, shared_renewal_laws, shared_systems_laws, shared_tree_laws, systems_laws,
};
pub use shape::DraftShape;
pub use tree::HeldTree;
