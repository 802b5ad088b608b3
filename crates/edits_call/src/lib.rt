// The call on edits: every check in its order, then edit by edit in the lent slots, and the tree of what is then there is listed.
#![tactic(auto)]

mod call;
mod check;

pub use call::edits;
