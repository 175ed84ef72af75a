//! The tests of cms_edf and cms_disk, which so are proved without them, once. No part of the product.
#![tactic(auto)]

#[cfg(test)]
mod cases;
#[cfg(test)]
mod changes;
#[cfg(test)]
mod disk;
#[cfg(test)]
mod edf;
#[cfg(test)]
mod empty_minidisks;
#[cfg(test)]
mod filed;
#[cfg(test)]
mod many_tests;
#[cfg(test)]
mod puts;
#[cfg(test)]
mod reads;
#[cfg(test)]
mod shared_blocks;
