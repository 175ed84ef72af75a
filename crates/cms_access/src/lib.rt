//! The commands on whole disks: ACCESS, RELEASE, QUERY, FORMAT and CENTURY.
#![tactic(auto)]

mod access;
mod century;
mod empty_volume;
mod format;
mod query;
mod questions;
mod release;
mod shown;

pub use access::run_access;
pub use century::run_century;
pub use format::run_format;
pub use query::run_query;
pub use release::run_release;
