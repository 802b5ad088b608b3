// Link, after src/force/link.rs of fjadra.
#![tactic(auto)]

pub mod link;
