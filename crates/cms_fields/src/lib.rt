//! Moments and stamps, and the labels of volumes and the entries of directories in their bytes.
//! Numbers are big-endian, and texts are in EBCDIC code page 037.
#![tactic(auto)]

mod entry;
mod grammar;
mod label;
mod levels;
mod limits;
mod new_label;
mod packed;
mod time;

pub use entry::{Entry, EntryFault, read_entry, write_entry};
pub use grammar::pointer_size;
pub use label::{Label, LabelFault, read_label, write_label};
pub use limits::{LONGEST_RECORD, MOST_BYTES, MOST_FILES, MOST_RECORDS};
pub use new_label::first_fields;
pub use packed::{read_stamp, write_stamp};
pub use time::{FIRST_MOMENT, Moment, Stamp};
