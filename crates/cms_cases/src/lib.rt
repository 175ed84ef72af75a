//! Tests as rows of cases with their answers: one loop over them, what the words of a case say, and the report in which a test tells what
//! it sees. No part of the product.
#![tactic(auto)]

mod report;
mod rows;
mod words;

pub use report::{Ascii, Report};
pub use rows::{Subject, try_rows};
pub use words::{byte, bytes_of, number, word, written_out};
