// The tree call: a sheet's tree, listed parent first with its chains.
#![tactic(auto)]

pub mod answer;
mod call;

pub use call::{tree, tree_within};
