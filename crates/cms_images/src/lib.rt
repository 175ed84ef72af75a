//! Images for tests, made byte by byte from the layout of a volume, not by the program, and what a crash leaves of them. No part of the
//! product.
#![tactic(auto)]

mod cases;
mod crash;
mod disk;
mod edits;
mod entries;
pub mod hello;
pub mod known;
mod many;
mod new_volume;
mod small;
mod stamps;
mod wide;

pub use cases::{FILE, calls_of, file_named, image_named, put_texts, world_with};
pub use crash::{crashed, image_left};
pub use disk::{Disk, Event, world_of};
pub use edits::{Edit, edited, put_edits, zeros};
pub use entries::{DIRECTORY, Entry, MAP, put_entry, put_label};
pub use many::{digits, many_files};
pub use new_volume::{Made, formatted};
pub use small::{SmallFile, small_volume};
pub use stamps::{NOON, START};
pub use wide::wide_volume;
