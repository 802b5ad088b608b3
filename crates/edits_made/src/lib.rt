// Edits one after the other: each inserts the next point or removes an earlier insertion, in the slots that hold the tree of what is there.
#![tactic(auto)]

pub mod edit;
mod insert;
mod remove;
