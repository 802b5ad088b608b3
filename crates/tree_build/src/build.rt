// mod.rs: the tree of all particles, one after the other. The earliest whose prefix passes the greatest level or wants more slots than are lent is refused.
ghost use Rattle.std.specs.Prelude.{◌≡◌, List, ℕ, ◌+◌};
ghost use Rattle.rules.specs.Cover.{cover_first, extent_of};
ghost use Rattle.tree_placing.specs.Add.{Puts, Placed};
ghost use Rattle.tree_build.specs.Build.{Lent, no_tree, Builds, ComesNext, Extends};

use crate::add;
use rules::{Extent, Reason, Refusal};
use tree_cells::cover;
use tree_cells::cover::Covered;
use tree_leaves::point;
use tree_slots::Quadtree;

// The extent with p, and how many doublings lead to it.
fn extend(at: &[f64], q: Quadtree, p: usize) -> Covered
    requires { ComesNext at.now q p }
    ensures { Extends at.now q p result }
{
    let x = point::x_at(at, p);
    let y = point::y_at(at, p);
    if p == 0 {
        return Covered {
            extent: cover::first(x, y),
            doublings: 0,
        };
    }
    cover::cover(q.extent, x, y)
}

// p goes into the tree of some of the particles before it, in the extent of all of those and p.
pub fn add_next(
    at: &[f64],
    next: &mut [u32],
    tail: &mut [u32],
    m: &mut [u64],
    q: Quadtree,
    p: usize,
) -> Result<Quadtree, Reason>
    requires { (is : List ℕ) × ComesNext at.now q p × Puts at.now is m.old next.old tail.old q p }
    ensures { (is : List ℕ) → Puts at.now is m.old next.old tail.old q p
        → Placed at.now is m.new next.new tail.new (extent_of (cover_first at.now (p + 1))) p result }
{
    let covered = extend(at, q, p);
    add::insert(m, at, next, tail, q, covered, p)
}

// The tree of no particles.
pub fn no_tree() -> Quadtree
    ensures { result ≡ no_tree }
{
    Quadtree {
        extent: Extent {
            x0: 0.0,
            y0: 0.0,
            x1: 0.0,
            y1: 0.0,
        },
        root: 0,
        nodes: 0,
        deepest: 0,
    }
}

// The tree, or refusal 6 or 7 with the particle's number as its place.
pub fn build(
    at: &[f64],
    next: &mut [u32],
    tail: &mut [u32],
    m: &mut [u64],
) -> Result<Quadtree, Refusal>
    requires { Lent at.now next.old tail.old }
    ensures { Builds at.now m.new next.new result }
{
    let mut q = no_tree();
    for p in 0..at.len() / 2 {
        q = add_next(at, next, tail, m, q, p).map_err(|reason| Refusal::new(reason, p as u64))?;
    }
    Ok(q)
}
