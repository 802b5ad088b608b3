// Outlines in longitudes, unwrapped the short way round (document 02, R-10).
#![tactic(auto)]

mod call;
mod check;
mod corners;
mod way;

pub use call::unwrap;
