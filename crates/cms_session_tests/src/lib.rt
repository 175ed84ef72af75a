//! The tests of sessions, which so are proved without them, once: what is typed, line by line, behind the lines of a script, as
//! transcripts; and sessions whose calls fail one by one, or that a crash stops. And those of extensions: the editor, lists, and an
//! extension of a few lines, as docs/EXTENSIONS.md shows it. No part of the product.
#![tactic(auto)]

#[cfg(test)]
mod access_tests;
#[cfg(test)]
mod cases;
#[cfg(test)]
mod century_tests;
#[cfg(test)]
mod copy_tests;
#[cfg(test)]
mod deck_tests;
#[cfg(test)]
mod decks;
#[cfg(test)]
mod disk_tests;
#[cfg(test)]
mod echo;
#[cfg(test)]
mod edit_tests;
#[cfg(test)]
mod edits;
#[cfg(test)]
mod erase_tests;
#[cfg(test)]
mod execio_tests;
#[cfg(test)]
mod extension_tests;
#[cfg(test)]
mod extensions;
#[cfg(test)]
mod fault_tests;
#[cfg(test)]
mod file_tests;
#[cfg(test)]
mod format_tests;
#[cfg(test)]
mod generated_scripts;
#[cfg(test)]
mod listing_tests;
#[cfg(test)]
mod lists;
#[cfg(test)]
mod number_three;
#[cfg(test)]
mod procedure_tests;
#[cfg(test)]
mod refusal_tests;
#[cfg(test)]
mod session;
#[cfg(test)]
mod session_tests;
#[cfg(test)]
mod stack_tests;
#[cfg(test)]
mod status_tests;
#[cfg(test)]
mod transcript;
#[cfg(test)]
mod trial;
#[cfg(test)]
mod volumes;
