// Many ticks by columns, until alpha is low, the budget is spent or a tick is refused.
#![tactic(auto)]

ghost use Rattle.std.specs.Prelude.{◌≡◌, ◌++◌, ◌+◌, ◌*◌, ◌≤◌, length, take, drop};
ghost use Rattle.rules.specs.Refusal.{most_ticks};
ghost use Rattle.rules.specs.Calls.{slots_of};
ghost use Rattle.rules.specs.Tick.{entries_of, forces_from, ticks_from};
ghost use Rattle.tick_checks.specs.Fits.{Fits};
ghost use Rattle.tick_columns.specs.Stage.{columns, ColumnsFit, Chains, state_of};
ghost use Rattle.step.specs.Step.{start, Steps};

use rules::{FORCE_WORDS, Progress, Settings};
use tick::{Turn, tick_on};
use tick_close::Stepped;

// What a step is set to: how its ticks are, where alpha begins and where it is to stop, and how many ticks there may be.
#[derive(Clone, Copy)]
pub struct Plan {
    pub settings: Settings,
    pub alpha: f64,
    pub alpha_min: f64,
    pub budget: u64,
}

// Places and velocities, one after the other, as they are to be put back where a tick is refused.
fn keep(places: &[f64], speeds: &[f64], kept: &mut [f64])
    requires { length kept.old ≡ length places.now + length speeds.now }
    ensures { kept.new ≡ places.now ++ speeds.now }
{
    let (kept_places, kept_speeds) = kept.split_at_mut(places.len());
    kept_places.copy_from_slice(places);
    kept_speeds.copy_from_slice(speeds);
}

fn put_back(kept: &[f64], places: &mut [f64], speeds: &mut [f64])
    requires { length kept.now ≡ length places.old + length speeds.old }
    ensures { (places.new ≡ take (length places.old) kept.now)
        × (speeds.new ≡ take (length speeds.old) (drop (length places.old) kept.now)) }
{
    let (kept_places, kept_speeds) = kept.split_at(places.len());
    places.copy_from_slice(kept_places);
    speeds.copy_from_slice(kept_speeds);
}

// No draw is used and no node handed out before it. A refused tick leaves what the ticks before it left. Held axes return to their places at each tick's entry.
pub fn step_on(
    words: &[u64; FORCE_WORDS],
    numbers: &[f64],
    links: &[u32],
    places: &mut [f64],
    speeds: &mut [f64],
    flags: &[u64],
    plan: Plan,
    draws: &[f64],
    kept: &mut [f64],
    next: &mut [u32],
    tail: &mut [u32],
    work: &mut [u64],
) -> Stepped
    requires fits { Fits (length flags.now) (entries_of words.now) numbers.now links.now × (plan.budget ≤ most_ticks) × (length kept.old ≡ length flags.now * 4) }
    requires columns_fit { ColumnsFit places.old speeds.old draws.now (length flags.now) 0 × Chains (length flags.now) next.old tail.old }
    ensures { Steps (columns places.new speeds.new flags.now) draws.now plan.budget result
        (ticks_from plan.settings plan.alpha_min (forces_from (length flags.now) (entries_of words.now) numbers.now links.now)
        (slots_of work.old) plan.budget 0 (state_of (columns places.old speeds.old flags.now) draws.now (start plan.alpha))) }
{
    let n = places.len();
    let mut p = Progress::begin(plan.alpha);
    for ticks in 0..plan.budget {
        // Low, or one of them is NaN.
        if !(plan.alpha_min < p.alpha) {
            return Stepped {
                ticks,
                end: Ok(()),
                progress: p,
            };
        }
        keep(places, speeds, kept);
        let home = &kept[..n];
        let turn = Turn {
            settings: plan.settings,
            progress: p,
        };
        match tick_on(
            words, numbers, links, home, places, speeds, flags, turn, draws, next, tail, work,
        ) {
            Ok(reached) => p = reached,
            Err(refusal) => {
                put_back(kept, places, speeds);
                return Stepped {
                    ticks,
                    end: Err(refusal),
                    progress: p,
                };
            }
        }
    }
    Stepped {
        ticks: plan.budget,
        end: Ok(()),
        progress: p,
    }
}
