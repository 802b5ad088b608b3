// ManyBody for one particle at one node: a far cell pulls it as a whole, the members of a near leaf one by one.
#![tactic(auto)]

ghost use Rattle.std.specs.Prelude.{◌≡◌, ℕ, ◌+◌, ◌*◌, ◌-◌, ◌≤◌, ◌<◌, length};
ghost use Rattle.rules.specs.Refusal.{most_particles};
ghost use Rattle.rules.specs.Flow.{flow};
ghost use Rattle.rules.specs.ManyBody as Rule;
ghost use Rattle.rules.specs.Walk.{internal, tip, after};
ghost use Rattle.rules.specs.Calls.{slot_words};
ghost use Rattle.tree_slots.specs.Trees.{word};
ghost use Rattle.force.specs.Draws.{left, came_to, OnlyDry, Further};
ghost use Rattle.many_body_chains.specs.Chain.{Chain};
ghost use Rattle.many_body_charge.specs.Charge.{charge_of};
ghost use Rattle.many_body_pulls.specs.Aims.{gap_of};
ghost use Rattle.many_body_node.specs.NodePull.{Bodies, node_at};

use force::{Draws, Gap, push_on};
use many_body_charge::{Charge, charge_at};
use many_body_pulls::{pull_members, take_aim};
use rules::{Extent, Refusal, Tuning, Visit};
use tree_slots::store;

// w * w / theta_2 < l
#[tactic(auto, unfolding(rules::specs::ManyBody::far))]
fn is_far(t: Tuning, c: Extent, l: f64) -> bool
    ensures { result ≡ Rule.far t c l }
{
    let w = c.x1 - c.x0;
    w * w / t.theta2 < l
}

// A far cell acts whole.
#[tactic(auto, unfolding(rules::specs::ManyBody::act_far, rules::specs::ManyBody::pull_whole, many_body_pulls::specs::Aims::aimed))]
fn act_far(
    t: Tuning,
    vs: &mut [f64],
    alpha: f64,
    i: usize,
    q: Charge,
    gap: Gap,
    l: f64,
    draws: &mut Draws,
) -> Result<(), Refusal>
    requires { i * 2 + 1 < length vs.old }
    ensures is { came_to result (λ _. flow vs.new (left draws.new))
        ≡ Rule.act_far t alpha i (charge_of q) (gap_of gap) l (flow vs.old (left draws.old)) }
    ensures further { Further draws.old draws.new }
    ensures dry { OnlyDry result }
{
    if l < t.greatest2 {
        let aim = take_aim(t, draws, gap, l)?;
        push_on(
            vs,
            i,
            aim.gap.x * q.strength * alpha / aim.l,
            aim.gap.y * q.strength * alpha / aim.l,
        );
    }
    Ok(())
}

// Whether the particle i is alone in the leaf whose first particle is f.
fn is_alone(next: &[u32], i: usize, f: usize) -> bool
    requires { f < length next.now }
    ensures { (n : ℕ) (h : Chain next.now n f) → result ≡ Rule.alone i h.members }
{
    f == i && next[f] == 0
}

// The members of a near leaf act. A particle alone in its own leaf draws none.
#[tactic(auto, unfolding(rules::specs::ManyBody::act_near, many_body_pulls::specs::Aims::aimed))]
fn act_near(
    t: Tuning,
    vs: &mut [f64],
    strengths: &[f64],
    alpha: f64,
    i: usize,
    next: &[u32],
    f: usize,
    gap: Gap,
    l: f64,
    draws: &mut Draws,
) -> Result<(), Refusal>
    requires { (i * 2 + 1 < length vs.old) × Chain next.now (length strengths.now) f × (length next.now ≡ length strengths.now)
        × (length strengths.now ≤ most_particles) }
    ensures is { (h : Chain next.now (length strengths.now) f) → came_to result (λ _. flow vs.new (left draws.new))
        ≡ Rule.act_near t strengths.now alpha i h.members (gap_of gap) l (flow vs.old (left draws.old)) }
    ensures further { Further draws.old draws.new }
    ensures dry { OnlyDry result }
{
    if is_alone(next, i, f) || t.greatest2 <= l {
        return Ok(());
    }
    let aim = take_aim(t, draws, gap, l)?;
    pull_members(vs, strengths, alpha, i, aim, next, f);
    Ok(())
}

// The particle i at the node in the slot s: a far cell acts whole and is skipped, in a near leaf the members act.
#[tactic(auto, unfolding(rules::specs::ManyBody::many_body_step))]
pub fn many_body_step(
    t: Tuning,
    at: &[f64],
    vs: &mut [f64],
    strengths: &[f64],
    alpha: f64,
    i: usize,
    next: &[u32],
    m: &[u64],
    s: usize,
    c: Extent,
    draws: &mut Draws,
) -> Result<Visit, Refusal>
    requires bodies { Bodies at.now vs.old strengths.now next.now × (i < length strengths.now) × (s * slot_words + slot_words ≤ length m.now) }
    requires chain { (word m.now s 0 ≡ 0 → ⊥) → Chain next.now (length strengths.now) (word m.now s 0 - 1) }
    ensures inner { word m.now s 0 ≡ 0 → came_to result (λ visit. after (flow vs.new (left draws.new)) visit)
        ≡ Rule.many_body_step t at.now strengths.now alpha i (internal (node_at m.now s c)) (flow vs.old (left draws.old)) }
    ensures leaf { (word m.now s 0 ≡ 0 → ⊥) → (h : Chain next.now (length strengths.now) (word m.now s 0 - 1))
        → came_to result (λ visit. after (flow vs.new (left draws.new)) visit)
        ≡ Rule.many_body_step t at.now strengths.now alpha i (tip (node_at m.now s c) h.members) (flow vs.old (left draws.old)) }
    ensures further { Further draws.old draws.new }
    ensures dry { OnlyDry result }
{
    let q = charge_at(m, s);
    let gap = Gap {
        x: q.x - at[i * 2],
        y: q.y - at[i * 2 + 1],
    };
    let l = gap.x * gap.x + gap.y * gap.y;
    if is_far(t, c, l) {
        act_far(t, vs, alpha, i, q, gap, l, draws)?;
        return Ok(Visit::Skip);
    }
    let tag = store::tag(m, s);
    if tag != 0 {
        let f = (tag - 1) as usize;
        act_near(t, vs, strengths, alpha, i, next, f, gap, l, draws)?;
    }
    Ok(Visit::Continue)
}
