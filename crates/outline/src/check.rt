// What is lent, checked in its order: 1, 2, then 5 for a corner and for the centre.
ghost use Rattle.std.specs.Prelude.{◌≡◌};
ghost use Rattle.rules.specs.Outcome.{result_of, require_all};
ghost use Rattle.rules.specs.Outline as Outline;

use crate::way::longitude_range;
use list_checks::{count_check, lengths_check};
use rules::{MOST_CORNERS, Reason, Refusal, require};

// The place is the index of the first corner out of range.
fn corners_check(corners: &[i64]) -> Result<(), Refusal>
    ensures { result ≡ result_of (require_all Outline.longitude_range 5 corners.now) }
{
    for (i, corner) in corners.iter().enumerate() {
        require(longitude_range(*corner), Reason::OutOfRange, i as u64)?;
    }
    Ok(())
}

// `room` is how many numbers the output holds.
#[tactic(auto, unfolding(rules::specs::Outline::outline_check))]
pub fn outline_check(corners: &[i64], centre: i64, room: usize) -> Result<(), Refusal>
    ensures { result ≡ result_of (Outline.outline_check corners.now centre room) }
{
    let n = corners.len();
    count_check(MOST_CORNERS, n)?;
    lengths_check(n <= room)?;
    corners_check(corners)?;
    require(longitude_range(centre), Reason::OutOfRange, 0)
}
