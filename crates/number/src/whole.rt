// The floor as a whole number: for a number in range, and for any with refusal 4.
ghost use Rattle.std.specs.Prelude.{◌≡◌, T};
ghost use Rattle.rules.specs.Number as Number;
ghost use Rattle.rules.specs.Outcome.{result_of};
ghost use Rattle.rules.specs.Floor as Floor;

use crate::range::within;
use rules::{Reason, Refusal};

// A cast cuts toward zero, so of a negative number that is not whole it is one too high.
pub fn floor(x: f64) -> i64
    requires { T (Number.within x) }
    ensures { result ≡ Floor.floor x }
{
    let cut = std::num::truncating_f64_to_i64(x);
    if x < std::num::nearest_i64_to_f64(cut) {
        return cut - 1;
    }
    cut
}

#[tactic(auto, unfolding(rules::specs::Floor::floor_result))]
// Refusal 4 of a number that is out of range.
pub fn try_floor(x: f64) -> Result<i64, Refusal>
    ensures { result ≡ result_of (Floor.floor_result x) }
{
    if !within(x) {
        return Err(Refusal::new(Reason::BadCoordinate, 0));
    }
    Ok(floor(x))
}
