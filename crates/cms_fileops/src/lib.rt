//! The commands on files: STATE, TYPE, ERASE and RENAME.
#![tactic(auto)]

mod erase;
mod rename;
mod state;
mod type_command;

pub use erase::run_erase;
pub use rename::run_rename;
pub use state::run_state;
pub use type_command::run_type;
