//! The world of a session: units of blocks, a console and a clock.
//!
//! [`World`] is what a session asks of its surroundings; it counts its failures and may tell a journal of what happened.
//! [`MemWorld`] is one in memory, for tests: it tells its journal, fails where it is told to, and makes the images that a crash
//! may leave. [`QuietWorld`] tells nothing and never fails.
#![tactic(auto)]

mod argv;
mod attach;
mod block;
mod crash;
mod image_name;
mod images;
mod mem;
mod plan;
mod quiet;
mod recorder;
mod script;
mod world;

pub use argv::Argv;
pub use block::{ReadFault, read_block};
pub use cms_journal::{Access, Failed, Unit};
pub use image_name::ImageName;
pub use mem::MemWorld;
pub use quiet::{Image, ImageList, QuietWorld, quiet_laws};
pub use world::World;
