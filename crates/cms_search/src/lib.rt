//! What every command rests on: the session's state, what a call does as a part of the machine's run, and what commands type.
#![tactic(auto)]

mod access;
mod asked_line;
mod change_told;
mod device_step;
mod draft;
mod fault;
mod file_write;
mod format;
mod order;
mod output;
mod place_event;
mod place_key;
mod places;
mod readings;
mod refusals;
mod release;
mod search;
mod seated;
mod session_turn;
mod state;
mod table;
mod texts;

pub use access::AccessEnd;
pub use asked_line::{Asked, ask, clock};
pub use change_told::{refuse_limit, tell_change};
pub use device_step::{Changed, change_disk, end_update, refuse_device, refuse_unread};
pub use fault::SearchFault;
pub use file_write::{FileWrite, update_file};
pub use output::{refuse, say, say_lines, say_message, say_ready};
pub use place_event::PlaceEvent;
pub use places::Places;
pub use readings::KeptReading;
pub use refusals::{
    NO_DISK, refuse_command, refuse_line, refuse_no_device, refuse_not_accessed, refuse_read_only,
};
pub use search::{Found, FoundList};
pub use session_turn::turn;
pub use state::{Course, Device, End, State};
pub use table::{AccessTable, LETTERS, Seat, UnitList};
pub use texts::{
    add_left, add_right, device_text, device_word, first_column, hexadecimal_digit, letter_text,
    letter_word,
};
