// link.rs: each link pulls its two ends towards its distance.
ghost use Rattle.std.specs.Prelude.{◌≡◌, [], ◌+◌, ◌*◌, ◌/◌, ◌%◌, ◌≤◌, ◌<◌, length, get_or};
ghost use Rattle.std.specs.Float.{nan};
ghost use Rattle.rules.specs.Number.{◌⊕◌, ◌⊖◌, ◌⊗◌, ◌⊘◌, 1·};
ghost use Rattle.rules.specs.Refusal.{most_particles};
ghost use Rattle.rules.specs.Root as Root;
ghost use Rattle.rules.specs.Flow.{flow, gap, length², pushed};
ghost use Rattle.rules.specs.Link as Link;
ghost use Rattle.rules.specs.Force.{ends_of};
ghost use Rattle.force.specs.Draws.{left, came_to, OnlyDry, Further};
ghost use Rattle.force.specs.Ran.{flow_at, RanAs};
ghost use Rattle.link.specs.Links.{EndsLent, NumbersLent, LinksReady, tallies, pull_at, pull_each, link_outcome};
ghost use Rattle.list_checks.specs.Checks.{ends_at};

use force::{Draws, ended, push_back, push_on};
use link_tally::{bias, count_link, strength_at};
use rules::{MOST_PARTICLES, Progress, Refusal};
use square_root::root;

// How many ends each particle has, from counts that are all zero.
fn count_ends(links: &[u32], counts: &mut [u32])
    requires { EndsLent (length counts.old) links.now × (counts.old ≡ tallies (length counts.old) []) }
    ensures { counts.new ≡ tallies (length counts.old) (ends_of links.now) }
{
    for ends in links.chunks_exact(2) {
        count_link(counts, ends[0] as usize, ends[1] as usize);
    }
}

// From the number at one index to the number at another, both where they will be.
fn between(at: &[f64], vs: &[f64], source: usize, target: usize) -> f64
    requires { (length vs.now ≡ length at.now) × (source < length at.now) × (target < length at.now) }
    ensures { result ≡ get_or at.now target nan ⊕ get_or vs.now target nan ⊖ get_or at.now source nan ⊖ get_or vs.now source nan }
{
    at[target] + vs[target] - at[source] - vs[source]
}

// How hard a link pulls over the gap x, y.
fn pull_of(x: f64, y: f64, distance: f64, alpha: f64, strength: f64) -> f64
    ensures { result ≡ (Root.root (length² (gap x y)) ⊖ distance) ⊘ Root.root (length² (gap x y)) ⊗ alpha ⊗ strength }
{
    let l = root(x * x + y * y);
    (l - distance) / l * alpha * strength
}

// Each end is pulled by its share: b is the target's.
fn share(vs: &mut [f64], source: usize, target: usize, x: f64, y: f64, l: f64, b: f64)
    requires { (source * 2 + 1 < length vs.old) × (target * 2 + 1 < length vs.old) }
    ensures { vs.new ≡ pushed ◌⊕◌ (pushed ◌⊖◌ vs.old target (x ⊗ l ⊗ b) (y ⊗ l ⊗ b)) source (x ⊗ l ⊗ (1· ⊖ b)) (y ⊗ l ⊗ (1· ⊖ b)) }
{
    let c = 1.0 - b;
    push_back(vs, target, x * l * b, y * l * b);
    push_on(vs, source, x * l * c, y * l * c);
}

// Link number k pulls both its ends over the gap x, y.
fn tie(
    vs: &mut [f64],
    links: &[u32],
    counts: &[u32],
    strengths: &[f64],
    distances: &[f64],
    k: usize,
    alpha: f64,
    x: f64,
    y: f64,
)
    requires { LinksReady vs.old links.now counts.now × NumbersLent links.now strengths.now distances.now × (k < length links.now / 2) }
    ensures { vs.new
        ≡ Link.tied (ends_of links.now) strengths.now distances.now alpha k (ends_at links.now k) (gap x y) vs.old }
{
    let source = links[k * 2] as usize;
    let target = links[k * 2 + 1] as usize;
    let from = counts[source];
    let to = counts[target];
    let l = pull_of(
        x,
        y,
        distances[k],
        alpha,
        strength_at(strengths, k, from, to),
    );
    share(vs, source, target, x, y, l, bias(from, to));
}

// Link number k. Self-links are skipped.
#[tactic(auto, unfolding(rules::specs::Link::pull))]
fn pull(
    at: &[f64],
    vs: &mut [f64],
    links: &[u32],
    counts: &[u32],
    strengths: &[f64],
    distances: &[f64],
    k: usize,
    alpha: f64,
    draws: &mut Draws,
) -> Result<(), Refusal>
    requires { LinksReady vs.old links.now counts.now × NumbersLent links.now strengths.now distances.now
        × (length at.now ≡ length vs.old) × (k < length links.now / 2) }
    ensures is { came_to result (λ _. flow vs.new (left draws.new))
        ≡ pull_at at.now links.now strengths.now distances.now alpha k (flow vs.old (left draws.old)) }
    ensures further { Further draws.old draws.new }
    ensures dry { OnlyDry result }
{
    let source = links[k * 2] as usize;
    let target = links[k * 2 + 1] as usize;
    if source != target {
        let x = between(at, vs, source * 2, target * 2);
        let y = between(at, vs, source * 2 + 1, target * 2 + 1);
        let g = draws.shaken(x, y)?;
        tie(vs, links, counts, strengths, distances, k, alpha, g.x, g.y);
    }
    Ok(())
}

// Every link once, in order; later links see earlier changes.
fn pull_all(
    at: &[f64],
    vs: &mut [f64],
    links: &[u32],
    counts: &[u32],
    strengths: &[f64],
    distances: &[f64],
    alpha: f64,
    draws: &mut Draws,
) -> Result<(), Refusal>
    requires { LinksReady vs.old links.now counts.now × NumbersLent links.now strengths.now distances.now
        × (length at.now ≡ length vs.old) }
    ensures is { came_to result (λ _. flow vs.new (left draws.new))
        ≡ pull_each at.now links.now strengths.now distances.now alpha (flow vs.old (left draws.old)) }
    ensures further { Further draws.old draws.new }
    ensures dry { OnlyDry result }
{
    for k in 0..links.len() / 2 {
        pull(at, vs, links, counts, strengths, distances, k, alpha, draws)?;
    }
    Ok(())
}

// The counts are worked out once, into a lent list of zeros.
fn iterate(
    at: &[f64],
    vs: &mut [f64],
    links: &[u32],
    counts: &mut [u32],
    strengths: &[f64],
    distances: &[f64],
    iterations: usize,
    alpha: f64,
    draws: &mut Draws,
) -> Result<(), Refusal>
    requires { EndsLent (length counts.old) links.now × NumbersLent links.now strengths.now distances.now × (counts.old ≡ tallies (length counts.old) [])
        × (length at.now ≡ length counts.old * 2) × (length vs.old ≡ length counts.old * 2) }
    ensures is { came_to result (λ _. flow vs.new (left draws.new))
        ≡ Link.run_link at.now (ends_of links.now) strengths.now distances.now iterations alpha (flow vs.old (left draws.old)) }
    ensures further { Further draws.old draws.new }
    ensures dry { OnlyDry result }
{
    count_ends(links, counts);
    for _ in 0..iterations {
        pull_all(at, vs, links, counts, strengths, distances, alpha, draws)?;
    }
    Ok(())
}

// The force. No node is handed out: the visits stay as they were handed in.
pub fn link(
    at: &[f64],
    vs: &mut [f64],
    links: &[u32],
    strengths: &[f64],
    distances: &[f64],
    iterations: usize,
    draws: &[f64],
    p: Progress,
) -> Result<Progress, Refusal>
    requires { EndsLent (length vs.old / 2) links.now × NumbersLent links.now strengths.now distances.now × (length at.now ≡ length vs.old)
        × (length vs.old % 2 ≡ 0) × (length vs.old ≤ 2 * most_particles) × (p.used ≤ length draws.now) }
    ensures { RanAs vs.new draws.now p result
        (link_outcome at.now links.now strengths.now distances.now iterations p.alpha (flow_at vs.old draws.now p)) }
{
    let n = vs.len() / 2;
    let mut counts = [0u32; MOST_PARTICLES];
    let mut draws = Draws::new(draws, p.used);
    let end = iterate(
        at,
        vs,
        links,
        &mut counts[..n],
        strengths,
        distances,
        iterations,
        p.alpha,
        &mut draws,
    );
    ended(end, p, &draws, p.visits)
}
