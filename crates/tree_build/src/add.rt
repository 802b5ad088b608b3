// add.rs: a particle goes into the tree, which first grows until its extent holds it.
ghost use Rattle.std.specs.Prelude.{List, ℕ, ◌<◌};
ghost use Rattle.rules.specs.Refusal.{most_particles};
ghost use Rattle.tree_placing.specs.Add.{Seeks, Placed, Covers, Wraps, Wrapped, Enlarged, Planted, Inserts};

use crate::depth;
use rules::{Extent, Reason};
use tree_cells::cover;
use tree_cells::cover::Covered;
use tree_leaves::{chain, point};
use tree_placing::place;
use tree_slots::{Quadtree, store};

// An internal root is wrapped once for each doubling: the old root becomes the child of a new one, in the quadrant that its extent takes.
fn wrap(m: &mut [u64], at: &[f64], q: Quadtree, covered: Covered, p: usize) -> Quadtree
    requires { (is : List ℕ) × Wraps at.now is m.old q covered.extent p covered.doublings }
    ensures { (is : List ℕ) → Wraps at.now is m.old q covered.extent p covered.doublings → Wrapped at.now is m.new covered.extent result }
{
    let x = point::x_at(at, p);
    let y = point::y_at(at, p);
    let mut wrapped = q;
    for _ in 0..covered.doublings {
        let doubled = cover::double_once(wrapped.extent, x, y);
        let children = store::only(doubled.quadrant, wrapped.root as usize);
        store::put_internal(m, wrapped.nodes, children);
        wrapped = Quadtree {
            extent: doubled.extent,
            root: (wrapped.nodes + 1) as u32,
            nodes: wrapped.nodes + 1,
            deepest: wrapped.deepest + 1,
        };
    }
    wrapped
}

// The tree of those particles in the extent with p. A leaf root is not wrapped: only the extent grows.
fn enlarge(
    m: &mut [u64],
    at: &[f64],
    q: Quadtree,
    covered: Covered,
    p: usize,
) -> Result<Quadtree, Reason>
    requires { (is : List ℕ) × Seeks at.now is m.old q p × (0 < q.root) × Covers at.now q covered p }
    ensures { (is : List ℕ) → Seeks at.now is m.old q p → Enlarged at.now is m.new covered.extent p result }
{
    if store::tag(m, q.root as usize - 1) != 0 {
        return Ok(Quadtree {
            extent: covered.extent,
            ..q
        });
    }
    let w = covered.doublings;
    let deepest = depth::deepest(m, q, w);
    if deepest + w > Quadtree::GREATEST_LEVEL {
        return Err(Reason::TooDeep);
    }
    if store::slots(m) < q.nodes + w {
        return Err(Reason::NoSlotLeft);
    }
    Ok(wrap(m, at, Quadtree { deepest, ..q }, covered, p))
}

// A leaf of p as the root of a tree that has none.
fn plant(m: &mut [u64], extent: Extent, p: usize) -> Result<Quadtree, Reason>
    requires { p < most_particles }
    ensures { Planted m.old m.new extent p result }
{
    if store::slots(m) == 0 {
        return Err(Reason::NoSlotLeft);
    }
    store::put_leaf(m, 0, p);
    Ok(Quadtree {
        extent,
        root: 1,
        nodes: 1,
        deepest: 0,
    })
}

// p goes into the tree of some of the particles before it; `covered` is the extent with p.
pub fn insert(
    m: &mut [u64],
    at: &[f64],
    next: &mut [u32],
    tail: &mut [u32],
    q: Quadtree,
    covered: Covered,
    p: usize,
) -> Result<Quadtree, Reason>
    requires { (is : List ℕ) × Inserts at.now is m.old next.old tail.old q covered p }
    ensures { (is : List ℕ) → Inserts at.now is m.old next.old tail.old q covered p
        → Placed at.now is m.new next.new tail.new covered.extent p result }
{
    chain::begin(next, tail, p);
    if q.root == 0 {
        return plant(m, covered.extent, p);
    }
    let grown = enlarge(m, at, q, covered, p)?;
    place(m, at, next, tail, grown, p)
}
