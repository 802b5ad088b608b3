// A step of many ticks, called on a sheet.
#![tactic(auto)]

ghost use Rattle.std.specs.Prelude.{◌≡◌, [], ◌∷◌, ◌++◌, ◌*◌, length};
ghost use Rattle.rules.specs.Number.{float_of};
ghost use Rattle.rules.specs.Outcome.{fine};
ghost use Rattle.rules.specs.Refusal.{most_ticks, count_check};
ghost use Rattle.rules.specs.Sheet.{count_of};
ghost use Rattle.rules.specs.Tick.{sheet_check, tick_settings};
ghost use Rattle.tick_checks.specs.Input.{lent_sheet};
ghost use Rattle.tick_columns.specs.Columns.{ColumnsLent};
ghost use Rattle.step_call.specs.Step.{AfterStep};

use number::float_of;
use rules::{FORCE_WORDS, MOST_PARTICLES, RECORD_SIZE, Settings, StepAnswer};
use step::{Plan, step_on};
use tick_checks::step_check;
use tick_close::settle::{refused_step, settle_step};
use tick_columns::read_columns;

// With lists for the particles by columns and for what is put back, and with chains of its own. Every check is past.
fn on_columns(
    sheet: &mut [u8],
    alpha: &mut u64,
    words: &[u64; FORCE_WORDS],
    numbers: &[f64],
    links: &[u32],
    draws: &[f64],
    plan: Plan,
    places: &mut [f64],
    speeds: &mut [f64],
    flags: &mut [u64],
    kept: &mut [f64],
    work: &mut [u64],
) -> StepAnswer
    requires fact { let l = lent_sheet sheet.old alpha.old words.now numbers.now links.now draws.now work.old in
        (sheet_check l (count_check most_ticks plan.budget) (tick_settings l plan.settings ++ (plan.alpha_min ∷ [])) ≡ fine) × (plan.alpha ≡ float_of alpha.old) }
    requires columns_lent { ColumnsLent (count_of sheet.old) places.old speeds.old flags.old × (length kept.old ≡ count_of sheet.old * 4) }
    ensures { let l = lent_sheet sheet.old alpha.old words.now numbers.now links.now draws.now work.old in
        AfterStep l plan.settings plan.alpha_min plan.budget result sheet.new alpha.new work.new }
{
    let n = sheet.len() / RECORD_SIZE;
    let mut next = [0u32; MOST_PARTICLES];
    let mut tail = [0u32; MOST_PARTICLES];
    read_columns(sheet, places, speeds, flags);
    let stepped = step_on(
        words,
        numbers,
        links,
        places,
        speeds,
        flags,
        plan,
        draws,
        kept,
        &mut next[..n],
        &mut tail[..n],
        work,
    );
    settle_step(sheet, alpha, places, speeds, stepped, plan.alpha_min, work)
}

// The same with lists of its own.
fn with_lists(
    sheet: &mut [u8],
    alpha: &mut u64,
    words: &[u64; FORCE_WORDS],
    numbers: &[f64],
    links: &[u32],
    draws: &[f64],
    plan: Plan,
    work: &mut [u64],
) -> StepAnswer
    requires { let l = lent_sheet sheet.old alpha.old words.now numbers.now links.now draws.now work.old in
        (sheet_check l (count_check most_ticks plan.budget) (tick_settings l plan.settings ++ (plan.alpha_min ∷ [])) ≡ fine) × (plan.alpha ≡ float_of alpha.old) }
    ensures { let l = lent_sheet sheet.old alpha.old words.now numbers.now links.now draws.now work.old in
        AfterStep l plan.settings plan.alpha_min plan.budget result sheet.new alpha.new work.new }
{
    let n = sheet.len() / RECORD_SIZE;
    let pairs = n * 2;
    let both = n * 4;
    let mut places = [0.0f64; 2 * MOST_PARTICLES];
    let mut speeds = [0.0f64; 2 * MOST_PARTICLES];
    let mut kept = [0.0f64; 4 * MOST_PARTICLES];
    let mut flags = [0u64; MOST_PARTICLES];
    on_columns(
        sheet,
        alpha,
        words,
        numbers,
        links,
        draws,
        plan,
        &mut places[..pairs],
        &mut speeds[..pairs],
        &mut flags[..n],
        &mut kept[..both],
        work,
    )
}

// Ticks while alpha is above `alpha_min`, at most `budget` of them. Any bytes, words and numbers may come in, as in a tick.
pub fn step(
    sheet: &mut [u8],
    alpha: &mut u64,
    words: &[u64; FORCE_WORDS],
    numbers: &[f64],
    links: &[u32],
    draws: &[f64],
    s: Settings,
    alpha_min: f64,
    budget: u64,
    work: &mut [u64],
) -> StepAnswer
    ensures { let l = lent_sheet sheet.old alpha.old words.now numbers.now links.now draws.now work.old in
        AfterStep l s alpha_min budget result sheet.new alpha.new work.new }
{
    let plan = Plan {
        settings: s,
        alpha: float_of(*alpha),
        alpha_min,
        budget,
    };
    match step_check(
        sheet, words, numbers, links, draws, plan.alpha, s, alpha_min, budget,
    ) {
        Err(refusal) => refused_step(refusal),
        Ok(()) => with_lists(sheet, alpha, words, numbers, links, draws, plan, work),
    }
}
