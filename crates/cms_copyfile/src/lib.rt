//! COPYFILE: files are copied record by record.
#![tactic(auto)]

mod command;
mod copy;
mod draft;
mod first_pass;
mod input;
mod line;
mod measure;
mod named_files;
mod outcome;
mod output;
mod put;
mod record;
mod refusals;
mod second_pass;
mod shape;
mod shown;
mod told;
mod update;

pub use command::run_copyfile;
pub use draft::Written;
pub use measure::Measure;
pub use output::{FileForm, number_for};
pub use put::put_copy;
pub use shape::shape_of;
