//! Host files: those that records are read of and written into, and what is said on standard error.
//!
//! [`Host`] is what a command asks of them; it counts its failures and may tell what its files hold. [`MemHost`] has its files in
//! memory, for tests: it tells all, and fails where it is told to.
#![tactic(auto)]

mod content;
mod host;
mod memory;
mod note;
mod plan;
mod source;

pub use cms_journal::Failed;
pub use content::{Content, Draft, HostFile};
pub use host::Host;
pub use memory::MemHost;
pub use note::{Note, Refusal};
