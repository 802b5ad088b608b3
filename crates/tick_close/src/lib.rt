// What a tick does before and after its force slots: alpha's step and the closing move; and how a call of a tick or a step is settled.
#![tactic(auto)]

pub mod settle;

ghost use Rattle.std.specs.Prelude.{◌≡◌, Ok, List, ℕ, ◌*◌, length, Float};
ghost use Rattle.rules.specs.Tick as Rule;
ghost use Rattle.rules.specs.declared.Progress.{Progress};
ghost use Rattle.rules.specs.Outcome.{Outcome};
ghost use Rattle.tick_columns.specs.Stage.{columns, Stages};
ghost use Rattle.tick_close.specs.Close.{closed};

use closing::close_all;
use rules::{Progress, Refusal, Settings};
use tick_columns::ranged;

// alpha += (target - alpha) * decay
#[tactic(auto, unfolding(rules::specs::Tick::next_alpha))]
pub fn next_alpha(s: Settings, alpha: f64) -> f64
    ensures { result ≡ Rule.next_alpha s alpha }
{
    alpha + (s.target - alpha) * s.alpha_decay
}

// The closing move after what the forces came to, and 9 after it. `home` are the places to which held axes return.
pub fn close(
    home: &[f64],
    places: &mut [f64],
    speeds: &mut [f64],
    flags: &[u64],
    decay: f64,
    reached: Progress,
) -> Result<Progress, Refusal>
    requires { (length home.now ≡ length flags.now * 2) × (length places.old ≡ length flags.now * 2) × (length speeds.old ≡ length flags.now * 2) }
    ensures { (ds : List Float) (p : Progress) (most : ℕ) (o : Outcome Rule.State)
        → Stages (columns places.old speeds.old flags.now) ds p most (Ok reached) o
        → Stages (columns places.new speeds.new flags.now) ds p most result (closed decay home.now o) }
{
    close_all(home, places, speeds, flags, decay);
    ranged(places, speeds, reached)
}

// How a step ended: the ticks done, whether a tick that was refused ended it, and what the ticks left.
#[derive(Clone, Copy)]
pub struct Stepped {
    pub ticks: u64,
    pub end: Result<(), Refusal>,
    pub progress: Progress,
}
