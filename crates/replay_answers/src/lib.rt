// Cases of a tree, of a force alone and of a tick: each `.._is_right` runs a case of the sample, and says whether the answer and every lent buffer after the call are what the
// sample says. A case of a step differs from a tick's in its call alone, which the program makes.
#![tactic(auto)]

mod forces;
mod sheets;
mod trees;

pub use forces::{collide_is_right, link_is_right, many_body_is_right};
pub use sheets::{sheet_is_right, tick_is_right};
pub use trees::tree_is_right;

// The room for draws and for work slots that a case of the sample may lend.
const DRAWS: usize = 64;

const SLOTS: usize = 81;
