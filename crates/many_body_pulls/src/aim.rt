// How a pull is aimed: the draws that are needed, and the length that follows.
ghost use Rattle.std.specs.Prelude.{◌≡◌};
ghost use Rattle.rules.specs.ManyBody as Rule;
ghost use Rattle.force.specs.Draws.{left, came_to, OnlyDry, Further};
ghost use Rattle.many_body_pulls.specs.Aims.{aimed, aim_to, gap_of};

use force::{Draws, Gap, lengthen};
use rules::{Refusal, Tuning};
use square_root::root;

// A gap in which a draw stands for each difference that was zero (it may be 0.0 itself), and its length.
#[derive(Clone, Copy)]
pub struct Aim {
    pub gap: Gap,
    pub l: f64,
}

// No closer than the least distance.
#[tactic(auto, unfolding(rules::specs::ManyBody::softened))]
fn soften(t: Tuning, l: f64) -> f64
    ensures { result ≡ Rule.softened t l }
{
    if l < t.least2 {
        return root(t.least2 * l);
    }
    l
}

// The draws that are needed, and the length that follows.
#[tactic(auto, unfolding(crate::specs::Aims::aimed))]
pub fn take_aim(t: Tuning, draws: &mut Draws, gap: Gap, l: f64) -> Result<Aim, Refusal>
    ensures is { came_to result (λ a. aim_to a (left draws.new)) ≡ aimed t (gap_of gap) l (left draws.old) }
    ensures further { Further draws.old draws.new }
    ensures dry { OnlyDry result }
{
    let drawn = draws.shaken(gap.x, gap.y)?;
    let longer = lengthen(l, gap.x, gap.y, drawn.x, drawn.y);
    Ok(Aim {
        gap: drawn,
        l: soften(t, longer),
    })
}
