// A stored sample of the Rust's answers: the parts of a case, and the lists that a call is lent, read before it and compared after it.
#![tactic(auto)]

mod input;
mod kinds;
mod lists;
mod parts;

pub use input::read_case;
pub use kinds::{Kind, Tally};
pub use lists::{Item, read, same};
pub use parts::argument;
