// What ManyBody's pulls are made of: how a pull is aimed, and the pulls of a near leaf's members.
#![tactic(auto)]

mod aim;
mod members;

pub use aim::{Aim, take_aim};
pub use members::pull_members;
