// Cells: their quarters, the indexer that goes down them, and the extent that covers points, after src/extent.rs and src/quadtree/{indexer,cover}.rs of fjadra.
#![tactic(auto)]

pub mod cover;
pub mod extent;
pub mod indexer;
