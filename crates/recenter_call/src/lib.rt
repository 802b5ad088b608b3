// The work of the program recenter (document 02, R-1): a sheet and a number of ticks in, and out the sheet that these ticks leave.
#![tactic(auto)]

mod call;
mod run;
mod ticks;

pub use call::{KEPT_BYTES, recenter};
pub use ticks::ticks_of;
