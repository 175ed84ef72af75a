//! The world of real files: [`FileWorld`], whose units are image files, whose console is standard input and output, and whose
//! clock is the system's. It asks a [`System`] for all of that, of which [`Host`] is the real one.
#![tactic(auto)]

mod file_unit;
mod file_world;
mod host;
mod output;
mod read_ahead;
mod system;
mod trouble;

pub use file_world::FileWorld;
pub use host::{FOLDER, Host, folder_of, hold_streams, read_some, seconds, write_some};
pub use system::{Deed, Lock, Sharing, System, Warning};
pub use trouble::Trouble;
