//! The tests of the crates of `minidisk`. No part of the product.
#![tactic(auto)]

#[cfg(test)]
mod cases;
#[cfg(test)]
mod commands;
#[cfg(test)]
mod words;
