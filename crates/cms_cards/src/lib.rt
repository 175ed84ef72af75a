//! PUNCH, READCARD and DISK: files on the decks of a virtual reader. A file is dumped onto a deck of cards and loaded from one, and
//! the reader holds decks, the first punched first.
#![tactic(auto)]

mod command;
mod deck;
mod disk;
mod dump;
mod fetch;
mod first_deck;
mod header;
mod laws;
mod line;
mod load;
mod punch;
mod readcard;
mod reader;
mod stored;

pub use command::{CardCommand, run};
pub use deck::{CARD, Card, Deck};
pub use dump::write_deck;
pub use laws::dump_laws;
pub use load::read_deck;
pub use reader::Reader;
