// A near leaf's members, which pull one by one.
ghost use Rattle.std.specs.Prelude.{◌≡◌, [], ◌∷◌, ◌+◌, ◌*◌, ◌≤◌, ◌<◌, length};
ghost use Rattle.rules.specs.Refusal.{most_particles};
ghost use Rattle.rules.specs.ManyBody as Rule;
ghost use Rattle.many_body_chains.specs.Chain.{Chain};
ghost use Rattle.many_body_pulls.specs.Aims.{gap_of};

use crate::aim::Aim;
use force::push_on;
use many_body_chains::strength_of;

// A member j of a near leaf acts, unless it is the particle itself.
#[tactic(auto, unfolding(rules::specs::ManyBody::pull_member))]
fn pull_member(vs: &mut [f64], strengths: &[f64], alpha: f64, i: usize, aim: Aim, j: usize)
    requires { (i * 2 + 1 < length vs.old) × (j < length strengths.now) }
    ensures { vs.new ≡ Rule.pull_members strengths.now alpha i (j ∷ []) (gap_of aim.gap) aim.l vs.old }
{
    if j == i {
        return;
    }
    let w = strength_of(strengths, j) * alpha / aim.l;
    push_on(vs, i, aim.gap.x * w, aim.gap.y * w);
}

// All members of a near leaf but the particle itself, from the chain's first.
pub fn pull_members(
    vs: &mut [f64],
    strengths: &[f64],
    alpha: f64,
    i: usize,
    aim: Aim,
    next: &[u32],
    f: usize,
)
    requires { (i * 2 + 1 < length vs.old) × Chain next.now (length strengths.now) f × (length next.now ≡ length strengths.now) × (length strengths.now ≤ most_particles) }
    ensures { (h : Chain next.now (length strengths.now) f)
        → vs.new ≡ Rule.pull_members strengths.now alpha i h.members (gap_of aim.gap) aim.l vs.old }
{
    let mut link = (f + 1) as u32;
    while link != 0 {
        let j = (link - 1) as usize;
        pull_member(vs, strengths, alpha, i, aim, j);
        link = next[j];
    }
}
