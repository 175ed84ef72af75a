//! Records as host files hold them, in three forms: lines of text, bytes joined, and records behind their lengths.
//!
//! [`write_record`] writes one record of a file; a [`Reader`] takes a host file's bytes one by one and says each record, or what
//! is wrong with the file. [`form_laws`] says what comes back in both directions.
#![tactic(auto)]

mod form;
mod laws;
mod output;
mod page;
mod place;
mod reader;
mod run;
mod step;

pub use form::{Form, FormFault, Layout};
pub use laws::form_laws;
pub use output::{is_line, write_record};
pub use page::{character_of, code_of, page_laws};
pub use reader::Reader;
