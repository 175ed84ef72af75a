//! EXECIO: records of a file are stacked as lines, or lines are written into a file.
#![tactic(auto)]

mod asked_lines;
mod command;
mod diskr;
mod diskw;
mod line;
mod options;
mod place;
mod record;
mod start;

pub use command::run_execio;
pub use place::go_on;
