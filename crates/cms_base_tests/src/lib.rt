//! The tests of the crates that know no disk, which so are proved without them, once. No part of the product.
#![tactic(auto)]

#[cfg(test)]
mod cases;
#[cfg(test)]
mod climbs;
#[cfg(test)]
mod code_page;
#[cfg(test)]
mod exec2;
#[cfg(test)]
mod fields;
#[cfg(test)]
mod files;
#[cfg(test)]
mod host;
#[cfg(test)]
mod line;
#[cfg(test)]
mod maps;
#[cfg(test)]
mod names;
#[cfg(test)]
mod operands;
#[cfg(test)]
mod pieces;
#[cfg(test)]
mod plain_world;
#[cfg(test)]
mod records;
#[cfg(test)]
mod resumes;
#[cfg(test)]
mod texts;
#[cfg(test)]
mod trees;
#[cfg(test)]
mod words;
#[cfg(test)]
mod world;
