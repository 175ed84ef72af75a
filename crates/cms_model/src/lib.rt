//! What an image of a unit stands for: a minidisk, or none for a reason. And what a session of the machine of minidisks is: what is
//! to be done as a tree, what was done as beats, and the laws that join them.
#![tactic(auto)]

mod fault;
mod file;
mod laws;
mod machine_laws;

pub use fault::{OpenFault, VarFault};
pub use file::{FileData, Stored};
pub use laws::{
    change_laws, crash_state_laws, lookup_laws, record_laws, room_laws, sharing_laws, size_laws,
    standing_laws, tree_laws, update_laws, volume_laws,
};
pub use machine_laws::{
    law_of_beats, laws_of_items, laws_of_joining, laws_of_objects, laws_of_runs, laws_of_steps,
    laws_of_units,
};
