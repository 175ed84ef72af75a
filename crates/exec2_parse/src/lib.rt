//! EXEC 2 procedures: their lines, their variables, and the expansion of a word.
#![tactic(auto)]

mod expansion;
mod fold;
mod keyword;
mod kind;
mod numbers;
mod procedure;
mod scope;
mod statement;
mod vars;
mod words;

pub use expansion::{ExpandFault, expand, expand_in, expansion_laws, is_plain};
pub use fold::{capitals, folded, is_folded};
pub use keyword::is_spelled;
pub use kind::{Control, Kind, kind_of};
pub use numbers::{numeral, written};
pub use procedure::{ProcFault, Procedure, read_procedure};
pub use scope::Scope;
pub use vars::Vars;
pub use words::{copied, is_label, words_of};
