// One force slot of a tick, run on particles by columns.
#![tactic(auto)]

pub mod stage;
