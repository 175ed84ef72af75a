//! The top call of `cms`: a session of CMS commands on the units of a world. Lines are taken, their commands are run, and the
//! procedures that they begin, round by round.
#![tactic(auto)]

mod command;
mod dispatch;
mod generator;
mod laws;
mod nucleus;
mod round;
mod session;
mod state;
mod statement;
mod status;
mod subcommand;
mod top;
mod units;

pub use cms_words::WordFault;
pub use generator::script;
pub use laws::laws_of_sessions;
pub use status::Status;
pub use top::{run, run_with};
