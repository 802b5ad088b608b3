// How a stage of a tick ends.
ghost use Rattle.std.specs.Prelude.{◌≡◌};
ghost use Rattle.tick_columns.specs.Stage.{ranged_to};

use list_checks::result_check;
use rules::{Progress, Refusal};

// 9 is tested where a stage has come to p.
pub fn ranged(places: &[f64], speeds: &[f64], p: Progress) -> Result<Progress, Refusal>
    ensures { result ≡ ranged_to places.now speeds.now p }
{
    result_check(places, speeds)?;
    Ok(p)
}
