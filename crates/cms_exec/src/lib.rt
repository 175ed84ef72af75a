//! EXEC: the file of a procedure is found and read whole, and the procedure begins.
#![tactic(auto)]

mod call;
mod laws;
mod refusals;
mod search;
mod start;

pub use call::{run_called, run_exec};
pub use laws::start_laws;
pub use search::{FoundProcedure, find_called};
pub use start::Started;
