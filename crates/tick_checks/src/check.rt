// Every check of a tick's and a step's whole input, in document 01's order: the length (10), then 1, 2, 3, then the first bad record, then the rest of 5.
ghost use Rattle.std.specs.Prelude.{◌≡◌, [], ◌∷◌, ◌++◌, map, ◌*◌, length};
ghost use Rattle.rules.specs.Plain.{sum};
ghost use Rattle.rules.specs.Outcome.{fine, result_of};
ghost use Rattle.rules.specs.Refusal.{most_ticks, count_check, settings_check};
ghost use Rattle.rules.specs.Sheet.{count_of};
ghost use Rattle.rules.specs.Tick.{sheet_check, numbers_needed, links_needed, entries_of};
ghost use Rattle.tick_checks.specs.Input.{lent_sheet, sizes_check, contents_check};

use crate::counts::counts_check;
use crate::ends::all_ends;
use crate::entry::entries;
use crate::lengths::lengths_agree;
use crate::ranges::{all_ranges, settings_check};
use list_checks::{count_check, draws_check, lengths_check, setting_check};
use rules::{FORCE_WORDS, MOST_PARTICLES, MOST_TICKS, RECORD_SIZE, Refusal, Settings};
use sheet::{records_check, whole_records};

// 10 and 1, before any list is looked at.
fn sizes_check(sheet: &[u8], words: &[u64; FORCE_WORDS], ticks: u64) -> Result<(), Refusal>
    ensures { result ≡ result_of (sizes_check sheet.now words.now ticks) }
{
    whole_records(sheet)?;
    count_check(MOST_PARTICLES, sheet.len() / RECORD_SIZE)?;
    count_check(MOST_TICKS, ticks as usize)?;
    counts_check(&entries(words))
}

// 3, the records, and the rest of 5 but the settings. The lists are as long as the slots need them.
fn contents_check(
    sheet: &[u8],
    words: &[u64; FORCE_WORDS],
    numbers: &[f64],
    links: &[u32],
    draws: &[f64],
) -> Result<(), Refusal>
    requires { (length numbers.now ≡ sum (map (numbers_needed (count_of sheet.now)) (entries_of words.now))) × (length links.now ≡ sum (map links_needed (entries_of words.now)) * 2) }
    ensures { result ≡ result_of (contents_check sheet.now words.now numbers.now links.now draws.now) }
{
    let n = sheet.len() / RECORD_SIZE;
    let entries = entries(words);
    all_ends(&entries, links, n)?;
    records_check(sheet)?;
    all_ranges(&entries, numbers, n)?;
    draws_check(draws)
}

// All but the settings.
pub fn input_check(
    sheet: &[u8],
    words: &[u64; FORCE_WORDS],
    numbers: &[f64],
    links: &[u32],
    draws: &[f64],
    ticks: u64,
) -> Result<(), Refusal>
    ensures { result ≡ result_of (sheet_check (lent_sheet sheet.now 0 words.now numbers.now links.now draws.now [])
        (count_check most_ticks ticks) []) }
{
    sizes_check(sheet, words, ticks)?;
    let n = sheet.len() / RECORD_SIZE;
    let agree = lengths_agree(&entries(words), n, numbers.len(), links.len());
    lengths_check(agree)?;
    contents_check(sheet, words, numbers, links, draws)
}

// The settings of a tick.
fn tick_settings(alpha: f64, s: Settings) -> Result<(), Refusal>
    ensures { result ≡ result_of (settings_check (alpha ∷ s.target ∷ s.alpha_decay ∷ s.velocity_decay ∷ [])) }
{
    setting_check(alpha)?;
    settings_check(s.target, s.alpha_decay, s.velocity_decay)
}

// Of one tick: its settings come last.
#[tactic(auto, using(crate::proofs::Whole::settings_after))]
pub fn tick_check(
    sheet: &[u8],
    words: &[u64; FORCE_WORDS],
    numbers: &[f64],
    links: &[u32],
    draws: &[f64],
    alpha: f64,
    s: Settings,
) -> Result<(), Refusal>
    ensures { result ≡ result_of (sheet_check (lent_sheet sheet.now 0 words.now numbers.now links.now draws.now [])
        fine (alpha ∷ s.target ∷ s.alpha_decay ∷ s.velocity_decay ∷ [])) }
{
    input_check(sheet, words, numbers, links, draws, 0)?;
    tick_settings(alpha, s)
}

// Of a step of at most `budget` ticks: `alpha_min`, where alpha is to stop, is the last of its settings.
#[tactic(auto, using(crate::proofs::Whole::settings_end))]
pub fn step_check(
    sheet: &[u8],
    words: &[u64; FORCE_WORDS],
    numbers: &[f64],
    links: &[u32],
    draws: &[f64],
    alpha: f64,
    s: Settings,
    alpha_min: f64,
    budget: u64,
) -> Result<(), Refusal>
    ensures { result ≡ result_of (sheet_check (lent_sheet sheet.now 0 words.now numbers.now links.now draws.now [])
        (count_check most_ticks budget) ((alpha ∷ s.target ∷ s.alpha_decay ∷ s.velocity_decay ∷ []) ++ (alpha_min ∷ []))) }
{
    input_check(sheet, words, numbers, links, draws, budget)?;
    tick_settings(alpha, s)?;
    setting_check(alpha_min)
}
