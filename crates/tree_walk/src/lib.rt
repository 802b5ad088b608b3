// The two walks over a tree in lent slots, after src/quadtree/{visit,visit_after}.rs of fjadra.
#![tactic(auto)]

mod parent_first;
mod parent_last;
mod stack;

pub use parent_first::{Waiting, Walk};
pub use parent_last::{Path, Step};
