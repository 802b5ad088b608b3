// Runs a stored sample of the Rust's answers through the calls that the entries hand on to: a case is right if the answer and every lent buffer after the call are what the sample
// says. Writes, kind by kind, how many of how many are right. beside/pack makes the sample and says how it is laid out.
#![tactic(auto)]

use crate::numbers::{floor_is_right, root_is_right};
use crate::steps::step_is_right;
use replay_answers::{
    collide_is_right, link_is_right, many_body_is_right, tick_is_right, tree_is_right,
};
use replay_sample::{Kind, Tally, read_case};

mod numbers;
mod steps;

// A case of the sample has fewer.
const CASE_BYTES: usize = 4096;

// A proved loop has to end, and nothing says that the input does.
const MOST_CASES: usize = 1 << 16;

fn is_right(kind: Kind, case: &[u8]) -> bool {
    match kind {
        Kind::Floor => floor_is_right(case),
        Kind::Root => root_is_right(case),
        Kind::Tree => tree_is_right(case),
        Kind::Link => link_is_right(case),
        Kind::ManyBody => many_body_is_right(case),
        Kind::Collide => collide_is_right(case),
        Kind::Tick => tick_is_right(case),
        Kind::Step => step_is_right(case),
    }
}

fn main() {
    let mut space = [0; CASE_BYTES];
    let mut tally = Tally::new();
    for _ in 0..MOST_CASES {
        let Some(case) = read_case(&mut space) else {
            break;
        };
        if let Some(kind) = Kind::of(case) {
            tally.count(kind, is_right(kind, case));
        }
    }
    tally.report_all();
}
