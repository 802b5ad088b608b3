// The call: every check in its order, and only then the numbers are written.
ghost use Rattle.std.specs.Prelude.{◌≤◌, length};
ghost use Rattle.outline.specs.Unwrap.{lent_outline, Sound, LaidClosed, Unwrapped, Ended};
ghost use Rattle.rules.specs.Outcome.{refusal_in};

use crate::check::outline_check;
use crate::corners::{closing_check, lay};
use rules::Refusal;

// What is lent is sound: 16, or the numbers are written.
fn lay_closed(corners: &[i64], centre: i64, unwrapped: &mut [i64]) -> Result<(), Refusal>
    requires { Sound corners.now centre × (length corners.now ≤ length unwrapped.old) }
    ensures { LaidClosed (lent_outline corners.now centre unwrapped.old) result unwrapped.new }
{
    closing_check(corners, centre)?;
    lay(corners, centre, unwrapped);
    Ok(())
}

pub fn unwrap(corners: &[i64], centre: i64, unwrapped: &mut [i64]) -> Result<(), Refusal>
    ensures ended { Ended (lent_outline corners.now centre unwrapped.old) result }
    ensures after { Unwrapped (lent_outline corners.now centre unwrapped.old) (refusal_in result) unwrapped.new }
{
    outline_check(corners, centre, unwrapped.len())?;
    lay_closed(corners, centre, unwrapped)
}
