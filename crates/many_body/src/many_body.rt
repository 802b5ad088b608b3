// many_body.rs: each particle is pulled by all others, far cells acting whole.
ghost use Rattle.std.specs.Prelude.{◌≡◌, ◌+◌, ◌*◌, ◌≤◌, ◌<◌, ◌^◌, length, IfOk};
ghost use Rattle.rules.specs.ManyBody as Rule;
ghost use Rattle.rules.specs.Calls.{slots_of};
ghost use Rattle.rules.specs.Flow.{flow};
ghost use Rattle.rules.specs.Walk.{counted};
ghost use Rattle.tree_slots.specs.Trees.{Stands};
ghost use Rattle.tree_build.specs.Build as Build;
ghost use Rattle.force.specs.Draws.{left, came_to, OnlyDry, Further};
ghost use Rattle.force.specs.Ran.{flow_at, RanAs};
ghost use Rattle.many_body_charge.specs.Charge.{Charged};
ghost use Rattle.many_body_node.specs.NodePull.{Bodies};
ghost use Rattle.many_body.specs.ManyBody.{pulled_for, pulled_all};

use force::{Draws, ended};
use many_body_charge::charges;
use many_body_node::many_body_step;
use rules::{Progress, Refusal, Tuning, Visit};
use tree_build::build::build;
use tree_slots::{Quadtree, store};
use tree_walk::Walk;

// Theta 0.9, least distance 1, greatest infinite, each squared.
pub fn standard() -> Tuning
    ensures { result ≡ Rule.standard }
{
    Tuning {
        theta2: 0.9 * 0.9,
        least2: 1.0 * 1.0,
        greatest2: f64::INFINITY * f64::INFINITY,
    }
}

// The walk of the particle i, parent first: it is pulled by all that it meets.
fn pull(
    q: Quadtree,
    t: Tuning,
    at: &[f64],
    vs: &mut [f64],
    strengths: &[f64],
    alpha: f64,
    i: usize,
    next: &[u32],
    m: &[u64],
    walk: &mut Walk,
    draws: &mut Draws,
    visits: &mut u64,
) -> Result<(), Refusal>
    requires charged { Charged at.now strengths.now m.now next.now q }
    requires bodies { Bodies at.now vs.old strengths.now next.now × (i < length strengths.now) × (visits.old + q.nodes < 2 ^ 64) }
    ensures is { came_to result (λ _. counted (flow vs.new (left draws.new)) visits.new)
        ≡ pulled_for t at.now strengths.now alpha (counted (flow vs.old (left draws.old)) visits.old) i }
    ensures count { visits.new ≤ visits.old + q.nodes }
    ensures further { Further draws.old draws.new }
    ensures dry { OnlyDry result }
{
    walk.begin(q.root, q.extent);
    while let Some(node) = walk.pop() {
        *visits += 1;
        let below = many_body_step(
            t,
            at,
            vs,
            strengths,
            alpha,
            i,
            next,
            m,
            node.slot,
            node.extent,
            draws,
        )?;
        if store::tag(m, node.slot) == 0 {
            if let Visit::Continue = below {
                walk.push_children(m, node);
            }
        }
    }
    Ok(())
}

// Every particle in index order. One Walk serves them all.
fn pull_all(
    q: Quadtree,
    t: Tuning,
    at: &[f64],
    vs: &mut [f64],
    strengths: &[f64],
    alpha: f64,
    next: &[u32],
    m: &[u64],
    draws: &mut Draws,
    visits: &mut u64,
) -> Result<(), Refusal>
    requires charged { Charged at.now strengths.now m.now next.now q }
    requires bodies { Bodies at.now vs.old strengths.now next.now × (visits.old + length strengths.now * q.nodes < 2 ^ 64) }
    ensures is { came_to result (λ _. counted (flow vs.new (left draws.new)) visits.new)
        ≡ pulled_all t at.now strengths.now alpha (counted (flow vs.old (left draws.old)) visits.old) }
    ensures count { visits.new ≤ visits.old + length strengths.now * q.nodes }
    ensures further { Further draws.old draws.new }
    ensures dry { OnlyDry result }
{
    let mut walk = Walk::new();
    for i in 0..strengths.len() {
        pull(
            q, t, at, vs, strengths, alpha, i, next, m, &mut walk, draws, visits,
        )?;
    }
    Ok(())
}

// The force over a tree that stands in the slots: its charges are laid, then every particle is pulled.
pub fn many_body_on(
    q: Quadtree,
    t: Tuning,
    at: &[f64],
    vs: &mut [f64],
    strengths: &[f64],
    draws: &[f64],
    p: Progress,
    next: &[u32],
    m: &mut [u64],
) -> Result<Progress, Refusal>
    requires stands { Stands at.now (length strengths.now) m.old next.now q }
    requires bodies { Bodies at.now vs.old strengths.now next.now × (p.used ≤ length draws.now) × (p.visits < 2 ^ 63) }
    ensures runs { RanAs vs.new draws.now p result
        (pulled_all t at.now strengths.now p.alpha (flow_at vs.old draws.now p)) }
    ensures count { IfOk result (λ q. q.visits ≤ p.visits + 2 ^ 31) }
{
    charges(q, at, strengths, next, m);
    let mut draws = Draws::new(draws, p.used);
    let mut visits = p.visits;
    let end = pull_all(
        q,
        t,
        at,
        vs,
        strengths,
        p.alpha,
        next,
        m,
        &mut draws,
        &mut visits,
    );
    ended(end, p, &draws, visits)
}

// The force: 6 and 7 where the tree is built, then all particles.
pub fn many_body(
    t: Tuning,
    at: &[f64],
    vs: &mut [f64],
    strengths: &[f64],
    draws: &[f64],
    p: Progress,
    next: &mut [u32],
    tail: &mut [u32],
    m: &mut [u64],
) -> Result<Progress, Refusal>
    requires lent { Build.Lent at.now next.old tail.old }
    requires at_len { (length at.now ≡ length strengths.now * 2) × (length vs.old ≡ length strengths.now * 2) × (p.used ≤ length draws.now) × (p.visits < 2 ^ 63) }
    ensures runs { RanAs vs.new draws.now p result
        (Rule.run_many_body t at.now strengths.now p.alpha (slots_of m.old) (flow_at vs.old draws.now p)) }
    ensures count { IfOk result (λ q. q.visits ≤ p.visits + 2 ^ 31) }
{
    let q = build(at, next, tail, m)?;
    many_body_on(q, t, at, vs, strengths, draws, p, next, m)
}
