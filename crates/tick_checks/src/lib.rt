// What a tick and a step are lent beside their sheet: the force slots' entries, and every check of the whole input in its order.
#![tactic(auto)]

mod check;
mod counts;
mod ends;
pub mod entry;
mod lengths;
mod ranges;

pub use check::{input_check, step_check, tick_check};
pub use ranges::settings_check;
