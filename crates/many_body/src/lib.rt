// ManyBody, after src/force/many_body.rs of fjadra.
#![tactic(auto)]

pub mod many_body;

pub use many_body::standard;
