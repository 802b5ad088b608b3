// The ticks, run on a sheet with Center in force slot 0.
ghost use Rattle.std.specs.Prelude.{◌≡◌, length};
ghost use Rattle.rules.specs.Outcome.{fine, ◌then◌, outcome_of, if_done};
ghost use Rattle.rules.specs.Refusal.{count_check};
ghost use Rattle.rules.specs.Sheet.{whole_records, count_of};
ghost use Rattle.rules.specs.Tick.{step_answer, sheet_after_step};
ghost use Rattle.rules.specs.Recenter.{most_recentered, center_words, recenter_input, recenter_settings, recenter_alpha_min};
ghost use Rattle.recenter_call.specs.Recentered.{check_of, Recentered};

use rules::{FORCE_WORDS, Refusal};
use step_call::step;
use tick_call::settings_of;

// 1, as f64 bits.
const ONE: u64 = 0x3ff0_0000_0000_0000;

// Center (4) at 0, 0 with strength 1 in force slot 0, and nothing in the others.
fn center_words() -> [u64; FORCE_WORDS]
    ensures { result ≡ center_words }
{
    let mut words = [0; FORCE_WORDS];
    words[0] = 4;
    words[6] = ONE;
    words
}

// A step's refusal as a check.
fn check_of(refusal: Refusal) -> Result<(), Refusal>
    ensures { result ≡ check_of refusal }
{
    if refusal.number == 0 {
        return Ok(());
    }
    Err(refusal)
}

// A step with these words and settings, and with empty lists for what Center doesn't take.
fn step_sheet(sheet: &mut [u8], ticks: u64) -> Result<(), Refusal>
    ensures value { result ≡ check_of (step_answer (recenter_input sheet.old) recenter_settings recenter_alpha_min ticks).refusal }
    ensures sheet_after { sheet.new ≡ sheet_after_step (recenter_input sheet.old) recenter_settings recenter_alpha_min ticks }
{
    let words = center_words();
    let mut alpha = ONE;
    let s = settings_of(0.0, 0.0228, 0.6);
    let answer = step(
        sheet,
        &mut alpha,
        &words,
        &[],
        &[],
        &[],
        s,
        -1.0,
        ticks,
        &mut [],
    );
    check_of(answer.refusal)
}

// What was there, over what a refused tick leaves.
fn put_back(ran: Result<(), Refusal>, sheet: &mut [u8], spare: &[u8])
    requires { length spare.now ≡ length sheet.old }
    ensures { sheet.new ≡ if_done (outcome_of ran) (λ _. sheet.old) spare.now }
{
    if ran.is_err() {
        sheet.copy_from_slice(spare);
    }
}

// A refused tick leaves what the ticks before it made of the sheet: so a copy is kept, and put back.
pub fn step_or_put_back(sheet: &mut [u8], spare: &mut [u8], ticks: u64) -> Result<(), Refusal>
    requires sheet_value { (whole_records sheet.old then count_check most_recentered (count_of sheet.old)) ≡ fine }
    requires spare_len { length spare.old ≡ length sheet.old }
    ensures { Recentered sheet.old ticks result sheet.old sheet.new }
{
    spare.copy_from_slice(sheet);
    let ran = step_sheet(sheet, ticks);
    put_back(ran, sheet, spare);
    ran
}
