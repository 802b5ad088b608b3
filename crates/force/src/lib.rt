// What the forces share: the lent draws, a push on a velocity, and how a force ends.
#![tactic(auto)]

mod gap;
mod lent;
mod push;

ghost use Rattle.std.specs.Prelude.{◌≡◌};
ghost use Rattle.force.specs.Ran.{ended_by};

pub use gap::{Gap, lengthen};
pub use lent::Draws;
pub use push::{push_back, push_on};
use rules::{Progress, Refusal};

// What a force that began at p came to, by the draws and the visits that it has used; or the refusal.
pub fn ended(
    end: Result<(), Refusal>,
    p: Progress,
    draws: &Draws,
    visits: u64,
) -> Result<Progress, Refusal>
    ensures { result ≡ ended_by end p draws.now visits }
{
    end?;
    Ok(Progress {
        used: draws.used(),
        visits,
        ..p
    })
}
