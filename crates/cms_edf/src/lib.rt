//! Volumes on the units of a world.
#![tactic(auto)]

mod allotment;
mod block_writes;
mod blocks;
mod change;
mod change_plan;
mod contents;
mod directory_bytes;
mod doubt;
mod draft;
mod draft_commit;
mod empty_volume;
mod entries;
mod file_edits;
mod files;
mod growth;
mod held;
mod listing;
mod met;
mod new_directory;
mod new_entries;
mod opened_volume;
mod step;
mod system;
mod system_blocks;
mod tree_part;
mod trees;
mod update;
mod volume;

pub use allotment::PlanFault;
pub use change::Change;
pub use change_plan::plan;
pub use cms_held::{
    DraftShape, carrying_laws, draft_laws, held_laws, making_laws, put_laws, renewal_laws,
    systems_laws,
};
pub use cms_model::{FileData, OpenFault, Stored, VarFault};
pub use doubt::Doubt;
pub use draft::{Draft, plan_draft, plan_draft_at};
pub use draft_commit::commit;
pub use empty_volume::{MakePlan, make, plan_make, wipe};
pub use growth::{MoreFault, plan_more, plan_more_at};
pub use held::{FileInfo, Held, HeldFile, Space};
pub use opened_volume::open_volume;
pub use step::Plan;
pub use update::carry_out;
