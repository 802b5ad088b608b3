// The call: the input's length and count, and then the ticks.
ghost use Rattle.std.specs.Prelude.{◌≡◌, List, ℕ, min, length, take};
ghost use Rattle.rules.specs.Outcome.{fine, ◌then◌};
ghost use Rattle.rules.specs.Refusal.{count_check};
ghost use Rattle.rules.specs.Sheet.{whole_records, count_of};
ghost use Rattle.rules.specs.Recenter.{most_recentered};
ghost use Rattle.recenter_call.specs.Recentered.{kept_bytes, Recentered};

use crate::run::step_or_put_back;
use rules::{RECORD_SIZE, Reason, Refusal, require};

// How many records are taken.
const MOST_RECENTERED: usize = 512;

// Their bytes.
pub const KEPT_BYTES: usize = RECORD_SIZE * MOST_RECENTERED;

// A sheet of whole records, few enough: room for a copy of it is here.
fn recenter_records(sheet: &mut [u8], ticks: u64) -> Result<(), Refusal>
    requires { (whole_records sheet.old then count_check most_recentered (count_of sheet.old)) ≡ fine }
    ensures { Recentered sheet.old ticks result sheet.old sheet.new }
{
    let n = sheet.len();
    let mut spare = [0; KEPT_BYTES];
    step_or_put_back(sheet, &mut spare[..n], ticks)
}

// For an input of `total` bytes of which the first `KEPT_BYTES`, or all, are kept: 10 for its length comes before 1 for its count.
pub fn recenter(kept: &mut [u8], total: usize, ticks: u64) -> Result<(), Refusal>
    requires { length kept.old ≡ min total kept_bytes }
    ensures { (sheet : List ℕ) → length sheet ≡ total → take kept_bytes sheet ≡ kept.old
        → Recentered sheet ticks result kept.old kept.new }
{
    require(total % RECORD_SIZE == 0, Reason::BadRecord, 0)?;
    require(total / RECORD_SIZE <= MOST_RECENTERED, Reason::TooMany, 0)?;
    recenter_records(kept, ticks)
}
