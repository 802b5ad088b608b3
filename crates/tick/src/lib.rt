// One tick by columns: alpha's step, the forces, the closing move.
#![tactic(auto)]

ghost use Rattle.std.specs.Prelude.{◌≡◌, ◌+◌, ◌*◌, ◌<◌, ◌^◌, length};
ghost use Rattle.rules.specs.Calls.{slots_of};
ghost use Rattle.rules.specs.Tick.{entries_of, forces_from, tick_home};
ghost use Rattle.force.specs.Ran.{most_tick_visits};
ghost use Rattle.tick_checks.specs.Fits.{Fits};
ghost use Rattle.tick_columns.specs.Stage.{columns, ColumnsFit, Chains, state_of, Stages};
ghost use Rattle.tick.specs.Tick.{cooled};

use number::within;
use rules::{FORCE_WORDS, Progress, Reason, Refusal, Settings, require};
use tick_close::{close, next_alpha};
use tick_forces::run_forces;

// What a tick is set to, and what it takes over.
#[derive(Clone, Copy)]
pub struct Turn {
    pub settings: Settings,
    pub progress: Progress,
}

// `home` are the places to which held axes return. Where the tick is refused, places and velocities are left as its stages left them.
pub fn tick_on(
    words: &[u64; FORCE_WORDS],
    numbers: &[f64],
    links: &[u32],
    home: &[f64],
    places: &mut [f64],
    speeds: &mut [f64],
    flags: &[u64],
    turn: Turn,
    draws: &[f64],
    next: &mut [u32],
    tail: &mut [u32],
    work: &mut [u64],
) -> Result<Progress, Refusal>
    requires fits { Fits (length flags.now) (entries_of words.now) numbers.now links.now × (length home.now ≡ length flags.now * 2) }
    requires columns_fit { ColumnsFit places.old speeds.old draws.now (length flags.now) turn.progress.used
        × Chains (length flags.now) next.old tail.old × (turn.progress.visits < 2 ^ 62) }
    ensures { let s = turn.settings in
        let p = turn.progress in
        Stages (columns places.new speeds.new flags.now) draws.now (cooled s p) (p.visits + most_tick_visits) result
        (tick_home s home.now (forces_from (length flags.now) (entries_of words.now) numbers.now links.now) (slots_of work.old)
        (state_of (columns places.old speeds.old flags.now) draws.now p)) }
{
    let s = turn.settings;
    let p = turn.progress;
    let cooled = Progress {
        alpha: next_alpha(s, p.alpha),
        ..p
    };
    require(within(cooled.alpha), Reason::BadResult, 0)?;
    let reached = run_forces(
        words, numbers, links, places, speeds, flags, s.tuning, draws, cooled, next, tail, work,
    )?;
    close(home, places, speeds, flags, s.velocity_decay, reached)
}
