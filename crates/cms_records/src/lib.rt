//! Records in the bytes of a file: all of one length, or each behind its own.
#![tactic(auto)]

mod fixed_records;
mod laws;
mod scan;
mod sizes;
mod state;
mod stored;
mod var_records;

pub use cms_model::VarFault;
pub use fixed_records::{FixedView, fit};
pub use laws::piece_laws;
pub use scan::VarScan;
pub use sizes::VarSizes;
pub use state::{Fed, RecordState};
pub use stored::Records;
pub use var_records::{VarView, first_size, put_var, var_check};
