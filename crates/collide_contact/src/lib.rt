// Collide for one particle at one node: whether it lies out of reach, and what a leaf's first particle and this one do to each other.
#![tactic(auto)]

ghost use Rattle.std.specs.Prelude.{◌≡◌, ◌+◌, ◌*◌, ◌≤◌, ◌<◌, length, get_or};
ghost use Rattle.std.specs.Float.{nan};
ghost use Rattle.rules.specs.Number.{◌⊕◌, ◌⊖◌};
ghost use Rattle.rules.specs.Flow.{flow, gap};
ghost use Rattle.rules.specs.Collide as Collide;
ghost use Rattle.rules.specs.Calls.{slot_words};
ghost use Rattle.tree_slots.specs.Trees.{word, value};
ghost use Rattle.force.specs.Draws.{left, came_to, OnlyDry, Further};
ghost use Rattle.collide_contact.specs.Contact.{Placed, meet_at};

use force::{Draws, lengthen, push_back, push_on};
use number::plain_zero;
use rules::{Extent, Refusal};
use square_root::root;
use tree_slots::store;

// -0.0 is read as 0.0.
pub fn radius_of(radii: &[f64], j: usize) -> f64
    requires { j < length radii.now }
    ensures { result ≡ Collide.radius_of radii.now j }
{
    plain_zero(radii[j])
}

// From lo to hi is beyond reach of the place p.
fn beyond(lo: f64, hi: f64, p: f64, reach: f64) -> bool
    ensures { result ≡ Collide.beyond lo hi p reach }
{
    lo > p + reach || hi < p - reach
}

// The cell is further away than the combined radii.
#[tactic(auto, unfolding(rules::specs::Collide::away))]
fn away(at: &[f64], i: usize, c: Extent, reach: f64) -> bool
    requires { i * 2 + 1 < length at.now }
    ensures { result ≡ Collide.away at.now i c reach }
{
    let k = i * 2;
    beyond(c.x0, c.x1, at[k], reach) || beyond(c.y0, c.y1, at[k + 1], reach)
}

// The own side uses x, the other x + vx.
fn between(at: &[f64], vs: &[f64], i: usize, j: usize) -> f64
    requires { (length vs.now ≡ length at.now) × (i < length at.now) × (j < length at.now) }
    ensures { result ≡ get_or at.now i nan ⊖ get_or at.now j nan ⊖ get_or vs.now j nan }
{
    at[i] - at[j] - vs[j]
}

// Both are pushed apart over the gap x, y, each by the other's share.
#[tactic(auto, unfolding(rules::specs::Collide::parted))]
fn part(vs: &mut [f64], i: usize, j: usize, ri: f64, rj: f64, x: f64, y: f64, l: f64, strength: f64)
    requires { (i * 2 + 1 < length vs.old) × (j * 2 + 1 < length vs.old) }
    ensures { vs.new ≡ Collide.parted strength i j ri rj (gap x y) l vs.old }
{
    let r = ri + rj;
    let d = root(l);
    let f = (r - d) / d * strength;
    let x = x * f;
    let y = y * f;
    let rj2 = rj * rj;
    let share = rj2 / (ri * ri + rj2);
    let own = 1.0 - share;
    push_on(vs, i, x * share, y * share);
    push_back(vs, j, x * own, y * own);
}

// Particle i against particle j, the first of a leaf of radius rj.
#[tactic(auto, unfolding(rules::specs::Collide::meet))]
fn meet(
    at: &[f64],
    vs: &mut [f64],
    radii: &[f64],
    strength: f64,
    i: usize,
    j: usize,
    rj: f64,
    draws: &mut Draws,
) -> Result<(), Refusal>
    requires { Placed at.now vs.old radii.now × (i < length radii.now) × (j < length radii.now) }
    ensures is { came_to result (λ _. flow vs.new (left draws.new))
        ≡ Collide.meet at.now radii.now strength i rj j (flow vs.old (left draws.old)) }
    ensures further { Further draws.old draws.new }
    ensures dry { OnlyDry result }
{
    let ri = radius_of(radii, i);
    let r = ri + rj;
    let x = between(at, vs, i * 2, j * 2);
    let y = between(at, vs, i * 2 + 1, j * 2 + 1);
    let l = x * x + y * y;
    if l < r * r {
        let g = draws.shaken(x, y)?;
        let l = lengthen(l, x, y, g.x, g.y);
        part(vs, i, j, ri, rj, g.x, g.y, l, strength);
    }
    Ok(())
}

// A leaf: only its first particle acts, and only if its index is greater.
pub fn meet_first(
    at: &[f64],
    vs: &mut [f64],
    radii: &[f64],
    strength: f64,
    i: usize,
    m: &[u64],
    s: usize,
    draws: &mut Draws,
) -> Result<(), Refusal>
    requires { Placed at.now vs.old radii.now × (i < length radii.now)
        × (s * slot_words + slot_words ≤ length m.now) × (0 < word m.now s 0) × (word m.now s 0 ≤ length radii.now) }
    ensures is { came_to result (λ _. flow vs.new (left draws.new))
        ≡ meet_at at.now radii.now strength i m.now s (flow vs.old (left draws.old)) }
    ensures further { Further draws.old draws.new }
    ensures dry { OnlyDry result }
{
    let j = (store::tag(m, s) - 1) as usize;
    if i < j {
        let rj = store::node_value(m, s, 0);
        return meet(at, vs, radii, strength, i, j, rj, draws);
    }
    Ok(())
}

// An internal node: whether what lies below it is left out.
pub fn skips(at: &[f64], radii: &[f64], i: usize, m: &[u64], s: usize, c: Extent) -> bool
    requires { (length at.now ≡ length radii.now * 2) × (i < length radii.now) × (s * slot_words + slot_words ≤ length m.now) }
    ensures { result ≡ Collide.away at.now i c (Collide.radius_of radii.now i ⊕ value m.now s 0) }
{
    let reach = radius_of(radii, i) + store::node_value(m, s, 0);
    away(at, i, c, reach)
}
