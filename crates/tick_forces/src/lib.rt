// The forces of a tick's slots, in ascending number.
#![tactic(auto)]

ghost use Rattle.std.specs.Prelude.{◌+◌, ◌<◌, ◌^◌, length};
ghost use Rattle.rules.specs.Outcome.{fold_stages};
ghost use Rattle.rules.specs.Calls.{slots_of};
ghost use Rattle.rules.specs.Tick.{entries_of, forces_from, force_stage};
ghost use Rattle.force.specs.Ran.{most_tick_visits};
ghost use Rattle.tick_checks.specs.Fits.{Fits};
ghost use Rattle.tick_columns.specs.Stage.{columns, ColumnsFit, Chains, state_of, Stages};

use rules::{FORCE_WORDS, Progress, Refusal, Tuning};
use tick_checks::entry::{entries, links_needed, numbers_needed};
use tick_stage::stage::stage;

// Each slot on the state that the one before it left; its lists begin where those of the one before it end.
pub fn run_forces(
    words: &[u64; FORCE_WORDS],
    numbers: &[f64],
    links: &[u32],
    places: &mut [f64],
    speeds: &mut [f64],
    flags: &[u64],
    t: Tuning,
    draws: &[f64],
    p: Progress,
    next: &mut [u32],
    tail: &mut [u32],
    work: &mut [u64],
) -> Result<Progress, Refusal>
    requires fits { Fits (length flags.now) (entries_of words.now) numbers.now links.now }
    requires columns_fit { ColumnsFit places.old speeds.old draws.now (length flags.now) p.used × Chains (length flags.now) next.old tail.old × (p.visits < 2 ^ 62) }
    ensures { Stages (columns places.new speeds.new flags.now) draws.now p (p.visits + most_tick_visits) result
        (fold_stages (force_stage t (slots_of work.old)) (state_of (columns places.old speeds.old flags.now) draws.now p)
        (forces_from (length flags.now) (entries_of words.now) numbers.now links.now)) }
{
    let entries = entries(words);
    let mut numbers = numbers;
    let mut links = links;
    let mut at = p;
    for &e in &entries {
        at = stage(
            e, numbers, links, places, speeds, flags, t, draws, at, next, tail, work,
        )?;
        numbers = numbers.split_at(numbers_needed(flags.len(), e)).1;
        links = links.split_at(links_needed(e) * 2).1;
    }
    Ok(at)
}
