// Along the corners of an outline: its last number, whether it closes, and the numbers themselves.
ghost use Rattle.std.specs.Prelude.{◌≡◌, ◌≤◌, length};
ghost use Rattle.rules.specs.Plain.{overwritten};
ghost use Rattle.rules.specs.Outcome.{result_of, require};
ghost use Rattle.rules.specs.Outline as Outline;
ghost use Rattle.outline.specs.Unwrap.{Sound};

use crate::way::short_way;
use rules::{Reason, Refusal, require};

// The centre where there is no corner.
fn last(corners: &[i64], centre: i64) -> i64
    requires { Sound corners.now centre }
    ensures { result ≡ Outline.last_from centre (Outline.outline centre corners.now) }
{
    let mut end = centre;
    for corner in corners {
        end = short_way(end, *corner);
    }
    end
}

// The closing step, from the last corner to the first, leads back to where the outline began.
fn closes(corners: &[i64], centre: i64) -> bool
    requires { Sound corners.now centre }
    ensures { result ≡ Outline.closes centre corners.now }
{
    let Some(&first) = corners.first() else {
        return true;
    };
    let began = short_way(centre, first);
    let back = short_way(last(corners, centre), first);
    back == began
}

// 16: an outline that doesn't close.
pub fn closing_check(corners: &[i64], centre: i64) -> Result<(), Refusal>
    requires { Sound corners.now centre }
    ensures { result ≡ result_of (require (Outline.closes centre corners.now) 16 0) }
{
    require(closes(corners, centre), Reason::Unclosed, 0)
}

// The first corner against the centre, each later one against the one before; what lies behind them stays.
pub fn lay(corners: &[i64], centre: i64, unwrapped: &mut [i64])
    requires { Sound corners.now centre × (length corners.now ≤ length unwrapped.old) }
    ensures { unwrapped.new ≡ overwritten unwrapped.old 0 (Outline.outline centre corners.now) }
{
    let mut at = centre;
    for (i, corner) in corners.iter().enumerate() {
        at = short_way(at, *corner);
        unwrapped[i] = at;
    }
}
