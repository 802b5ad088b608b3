// How a particle comes into the slots: its place, the chain at its point, and its leaf, after src/quadtree/{store,add}.rs of fjadra.
#![tactic(auto)]

pub mod chain;
pub mod leaf;
pub mod point;
