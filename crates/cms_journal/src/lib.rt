//! What a world tells of a session, and what a crash may leave of a unit.
//!
//! A world tells a journal: the units that were attached, each with the blocks that it had then, and the events, one for each
//! thing that happened, the newest first. `specs/Journal.antt` has the definitions over it:
//!
//! - the *contents* of a unit are its starting blocks with all that was written to it;
//! - its *base* are the contents at its last sync, or its starting blocks where there was none;
//! - a *crash image* is what a crash at that moment may leave: each block, by itself, is the base's, or as one write since the
//!   last sync made it.
//!
//! `specs/Told.antt` speaks of a journal that may not be told and of the pieces that one call adds to it, `specs/Causes.antt` of
//! the counts that a failed call raises. [`crash_laws`] says what follows for every journal.
#![tactic(auto)]

mod block_size;
mod bytes;
mod event;
mod laws;

pub use block_size::BlockSize;
pub use bytes::{Blocks, Bytes};
pub use event::{Access, Attached, Event, Failed, Unit};
pub use laws::crash_laws;

/// The most blocks of a minidisk; those behind them on a unit aren't looked at.
pub const MOST_BLOCKS: u32 = 1_048_576;
