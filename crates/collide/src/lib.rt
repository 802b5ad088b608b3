// Collide, after src/force/collide.rs of fjadra.
#![tactic(auto)]

pub mod collide;
mod radius;
