// Particles by columns: read from a sheet and written back, and how a stage of a tick on them ends.
#![tactic(auto)]

mod ended;
mod sheets;

pub use ended::ranged;
pub use sheets::{read_columns, write_columns};
