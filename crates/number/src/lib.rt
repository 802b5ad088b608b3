// Numbers after document 01: floor, bits, ranges and small helpers. Each function answers what a definition of `rules` says.
#![tactic(auto)]

mod bits;
mod plain;
mod range;
mod whole;

pub use bits::{bits_of, float_of};
pub use plain::{clamp, plain_zero};
pub use range::{distance_range, draw_range, is_finite, speed_range, within};
pub use whole::{floor, try_floor};
