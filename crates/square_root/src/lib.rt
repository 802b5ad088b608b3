// The square root, exact for every f64: its digits over whole numbers, and the patterns beside them.
#![tactic(auto)]

mod digits;
mod roots;

pub use roots::{root, root_bits};
