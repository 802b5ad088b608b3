// The words of a list of edits (document 02, R-9): how many insertions they make, what is wrong with them, and the points inserted.
#![tactic(auto)]

mod check;
mod count;
mod read;

pub use check::words_check;
pub use count::insertions;
pub use read::read_points;
