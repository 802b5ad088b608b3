// collide.rs: particles whose circles overlap are pushed apart.
ghost use Rattle.std.specs.Prelude.{◌≡◌, ◌+◌, ◌*◌, ◌≤◌, ◌<◌, ◌^◌, length, IfOk, IfErr};
ghost use Rattle.rules.specs.Refusal.{most_iterations};
ghost use Rattle.rules.specs.Tree.{nodes};
ghost use Rattle.rules.specs.Walk.{counted, stop_if};
ghost use Rattle.rules.specs.Number.{◌⊕◌};
ghost use Rattle.rules.specs.Flow.{flow};
ghost use Rattle.rules.specs.Collide as Collide;
ghost use Rattle.rules.specs.Calls.{slots_of, slot_words};
ghost use Rattle.tree_slots.specs.Trees.{value};
ghost use Rattle.tree_build.specs.Build.{Lent};
ghost use Rattle.force.specs.Draws.{left, came_to, OnlyDry, Further};
ghost use Rattle.force.specs.Ran.{flow_at, most_force_visits, IsLate, RanAs};
ghost use Rattle.collide.specs.Radius.{Rounded};
ghost use Rattle.collide_contact.specs.Contact.{Placed, Spread};
ghost use Rattle.collide.specs.Collide.{walk_for, walk_all, walk_times};

use crate::radius::prepare;
use collide_contact::{meet_first, skips};
use force::{Draws, ended};
use rules::{Progress, Refusal, Visit};
use tree_build::build::build;
use tree_slots::{Quadtree, store};
use tree_walk::{Waiting, Walk};

// Whether the walk of particle i goes on below an internal node: what is out of reach is left out.
fn below(at: &[f64], radii: &[f64], i: usize, m: &[u64], node: Waiting) -> Visit
    requires { (length at.now ≡ length radii.now * 2) × (i < length radii.now) × (node.slot * slot_words + slot_words ≤ length m.now) }
    ensures { result ≡ stop_if (Collide.away at.now i node.extent (Collide.radius_of radii.now i ⊕ value m.now node.slot 0)) }
{
    Visit::stop_if(skips(at, radii, i, m, node.slot, node.extent))
}

// The walk of particle i over the tree, parent first.
fn walk_for(
    q: Quadtree,
    m: &[u64],
    at: &[f64],
    vs: &mut [f64],
    radii: &[f64],
    strength: f64,
    i: usize,
    walk: &mut Walk,
    draws: &mut Draws,
    visits: &mut u64,
) -> Result<(), Refusal>
    requires { Placed at.now vs.old radii.now × Rounded at.now radii.now m.now q × (i < length radii.now)
        × (visits.old + nodes (Collide.radius_tree at.now radii.now) < 2 ^ 64) }
    ensures is { came_to result (λ _. counted (flow vs.new (left draws.new)) visits.new)
        ≡ walk_for at.now radii.now strength (counted (flow vs.old (left draws.old)) visits.old) i }
    ensures few { visits.new ≤ visits.old + nodes (Collide.radius_tree at.now radii.now) }
    ensures further { Further draws.old draws.new }
    ensures dry { OnlyDry result }
{
    walk.begin(q.root, q.extent);
    while let Some(node) = walk.pop() {
        *visits += 1;
        if store::tag(m, node.slot) != 0 {
            meet_first(at, vs, radii, strength, i, m, node.slot, draws)?;
        } else if let Visit::Continue = below(at, radii, i, m, node) {
            walk.push_children(m, node);
        }
    }
    Ok(())
}

// Every particle once, in index order. One Walk serves them all.
fn walk_all(
    q: Quadtree,
    m: &[u64],
    at: &[f64],
    vs: &mut [f64],
    radii: &[f64],
    strength: f64,
    draws: &mut Draws,
    visits: &mut u64,
) -> Result<(), Refusal>
    requires { Placed at.now vs.old radii.now × Rounded at.now radii.now m.now q
        × (visits.old + length radii.now * nodes (Collide.radius_tree at.now radii.now) < 2 ^ 64) }
    ensures is { came_to result (λ _. counted (flow vs.new (left draws.new)) visits.new)
        ≡ walk_all at.now radii.now strength (counted (flow vs.old (left draws.old)) visits.old) }
    ensures few { visits.new ≤ visits.old + length radii.now * nodes (Collide.radius_tree at.now radii.now) }
    ensures further { Further draws.old draws.new }
    ensures dry { OnlyDry result }
{
    let mut walk = Walk::new();
    for i in 0..radii.len() {
        walk_for(q, m, at, vs, radii, strength, i, &mut walk, draws, visits)?;
    }
    Ok(())
}

// That many times over. Places don't change, so the tree is the same each time.
fn iterate(
    q: Quadtree,
    m: &[u64],
    at: &[f64],
    vs: &mut [f64],
    radii: &[f64],
    strength: f64,
    iterations: usize,
    draws: &mut Draws,
    visits: &mut u64,
) -> Result<(), Refusal>
    requires { Placed at.now vs.old radii.now × Rounded at.now radii.now m.now q
        × (visits.old + iterations * (length radii.now * nodes (Collide.radius_tree at.now radii.now)) < 2 ^ 64) }
    ensures is { came_to result (λ _. counted (flow vs.new (left draws.new)) visits.new)
        ≡ walk_times at.now radii.now strength iterations (counted (flow vs.old (left draws.old)) visits.old) }
    ensures few { visits.new ≤ visits.old + iterations * (length radii.now * nodes (Collide.radius_tree at.now radii.now)) }
    ensures further { Further draws.old draws.new }
    ensures dry { OnlyDry result }
{
    for _ in 0..iterations {
        walk_all(q, m, at, vs, radii, strength, draws, visits)?;
    }
    Ok(())
}

// With no iteration no tree is built.
fn run(
    at: &[f64],
    vs: &mut [f64],
    radii: &[f64],
    strength: f64,
    iterations: usize,
    draws: &mut Draws,
    visits: &mut u64,
    next: &mut [u32],
    tail: &mut [u32],
    m: &mut [u64],
) -> Result<(), Refusal>
    requires { Lent at.now next.old tail.old × Placed at.now vs.old radii.now × (iterations ≤ most_iterations) × (visits.old < 2 ^ 63) }
    ensures is { came_to result (λ _. counted (flow vs.new (left draws.new)) visits.new)
        ≡ Collide.run_collide at.now radii.now strength iterations (slots_of m.old) (counted (flow vs.old (left draws.old)) visits.old) }
    ensures few { visits.new ≤ visits.old + most_force_visits }
    ensures further { Further draws.old draws.new }
    ensures late { IfErr result IsLate }
{
    if iterations == 0 {
        return Ok(());
    }
    let q = build(at, next, tail, m)?;
    prepare(q, radii, m);
    iterate(q, m, at, vs, radii, strength, iterations, draws, visits)
}

// The force. It doesn't look at alpha.
pub fn collide(
    at: &[f64],
    vs: &mut [f64],
    radii: &[f64],
    strength: f64,
    iterations: usize,
    draws: &[f64],
    p: Progress,
    next: &mut [u32],
    tail: &mut [u32],
    m: &mut [u64],
) -> Result<Progress, Refusal>
    requires { Lent at.now next.old tail.old × Spread at.now vs.old radii.now draws.now p.used × (iterations ≤ most_iterations) × (p.visits < 2 ^ 63) }
    ensures is { RanAs vs.new draws.now p result
        (Collide.run_collide at.now radii.now strength iterations (slots_of m.old) (flow_at vs.old draws.now p)) }
    ensures few { IfOk result (λ q. q.visits ≤ p.visits + most_force_visits) }
{
    let mut draws = Draws::new(draws, p.used);
    let mut visits = p.visits;
    let end = run(
        at,
        vs,
        radii,
        strength,
        iterations,
        &mut draws,
        &mut visits,
        next,
        tail,
        m,
    );
    ended(end, p, &draws, visits)
}
