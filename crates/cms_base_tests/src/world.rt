// The worlds in memory.
mod cases;
mod memory;
mod quiet;
pub mod steps;
mod words;
