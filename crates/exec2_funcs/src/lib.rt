//! The functions of EXEC 2, on texts and signed numbers.
#![tactic(auto)]

mod arithmetic;
mod bytes;
mod calls;
mod fault;
mod function;
mod join;

pub use calls::call;
pub use fault::FuncFault;
pub use function::Function;
