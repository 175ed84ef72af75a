//! One statement of an EXEC 2 procedure at a time.
#![tactic(auto)]

mod asked_line;
mod assignment;
mod borrowed;
mod call_return;
mod calls;
mod comparison;
mod destination;
mod exec;
mod fault;
mod given;
mod jumps;
mod laws;
mod loop_passes;
mod loops;
mod output;
mod stack;
mod values;
mod variables;
mod want;
mod words;

pub use exec::{Exec, FileName};
pub use fault::Fault;
pub use laws::{call_laws, label_laws, statement_laws};
pub use stack::Stack;
pub use want::{Side, Want};
