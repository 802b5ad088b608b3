// The quadtree in lent slots: inserting and building, after src/quadtree/{add,mod}.rs of fjadra.
#![tactic(auto)]

pub mod add;
pub mod build;
mod depth;
