// A particle goes into a tree whose extent holds it, after src/quadtree/add.rs of fjadra. Where it ends is found by reading alone.
#![tactic(auto)]

ghost use Rattle.std.specs.Prelude.{◌≡◌, false, List, ℕ, ◌+◌, ◌*◌, ◌≤◌, ◌<◌};
ghost use Rattle.rules.specs.Refusal.{most_particles};
ghost use Rattle.rules.specs.Tree.{same, greatest_level};
ghost use Rattle.tree_placing.specs.Add.{with_more, Seeks, Alone, Found, Puts, FoundLeaf, Grown, Placed};

use rules::{Extent, Reason};
use tree_cells::indexer::Indexer;
use tree_leaves::{chain, leaf, point};
use tree_slots::{Quadtree, store};

// Where a point's way down the tree ends.
#[derive(Clone, Copy)]
pub enum Stop {
    // A leaf, whose chain begins with this particle.
    Leaf {
        slot: usize,
        level: usize,
        first: usize,
        cell: Extent,
    },
    // An internal node with no child in the point's quadrant.
    Hole {
        slot: usize,
        quadrant: usize,
        level: usize,
    },
}

#[tactic(auto, using(tree_cells::proofs::Quadrant::quadrant_lt))]
// Where the way of p ends.
fn find(m: &[u64], at: &[f64], q: Quadtree, p: usize) -> Stop
    requires { (is : List ℕ) × Seeks at.now is m.now q p × (0 < q.root) }
    ensures { (is : List ℕ) → Seeks at.now is m.now q p → Found at.now is m.now q p result }
{
    let x = point::x_at(at, p);
    let y = point::y_at(at, p);
    let mut slot = q.root as usize - 1;
    let mut ix = Indexer::with_extent(q.extent);
    let mut level = 0;
    loop {
        let tag = store::tag(m, slot);
        if tag != 0 {
            return Stop::Leaf {
                slot,
                level,
                first: (tag - 1) as usize,
                cell: ix.cell(),
            };
        }
        let way = ix.get_and_descend(x, y);
        let quadrant = way.quadrant;
        let children = store::children(m, slot);
        let child = children[quadrant];
        if child == 0 {
            return Stop::Hole {
                slot,
                quadrant,
                level,
            };
        }
        slot = child as usize - 1;
        ix = way.indexer;
        level += 1;
    }
}

// The tree with as many nodes more, one of them of that level.
fn more(q: Quadtree, nodes: usize, level: usize) -> Quadtree
    requires { (q.nodes ≤ greatest_level * most_particles) × (nodes ≤ greatest_level + 2) }
    ensures { result ≡ with_more q nodes level }
{
    Quadtree {
        nodes: q.nodes + nodes,
        deepest: q.deepest.max(level),
        ..q
    }
}

// The way of p has ended at the leaf in slot s, of level l, whose first particle f is at another point.
fn at_leaf(
    m: &mut [u64],
    at: &[f64],
    q: Quadtree,
    s: usize,
    l: usize,
    f: usize,
    cell: Extent,
    p: usize,
) -> Result<Quadtree, Reason>
    requires { (is : List ℕ) × Seeks at.now is m.old q p × FoundLeaf at.now is m.old q p s l f cell × (same at.now f p ≡ false) }
    ensures { (is : List ℕ) → Seeks at.now is m.old q p → FoundLeaf at.now is m.old q p s l f cell
        → Grown at.now is m.new q.extent p result }
{
    let left = Quadtree::GREATEST_LEVEL - l;
    let g = leaf::shared_levels(at, cell, left, f, p);
    if g == left {
        return Err(Reason::TooDeep);
    }
    if store::slots(m) < q.nodes + g + 2 {
        return Err(Reason::NoSlotLeft);
    }
    leaf::split(m, at, s, cell, g, q.nodes, f, p);
    Ok(more(q, g + 2, l + g + 1))
}

// p, a chain of its own so far, goes into a tree whose extent holds it.
pub fn place(
    m: &mut [u64],
    at: &[f64],
    next: &mut [u32],
    tail: &mut [u32],
    q: Quadtree,
    p: usize,
) -> Result<Quadtree, Reason>
    requires { (is : List ℕ) × Puts at.now is m.old next.old tail.old q p × Alone next.old tail.old p × (0 < q.root) }
    ensures { (is : List ℕ) → Puts at.now is m.old next.old tail.old q p
        → Placed at.now is m.new next.new tail.new q.extent p result }
{
    match find(m, at, q, p) {
        Stop::Leaf {
            slot,
            level,
            first,
            cell,
        } => {
            if point::same(at, first, p) {
                chain::join(next, tail, first, p);
                return Ok(q);
            }
            at_leaf(m, at, q, slot, level, first, cell, p)
        }
        Stop::Hole {
            slot,
            quadrant,
            level,
        } => {
            if store::slots(m) == q.nodes {
                return Err(Reason::NoSlotLeft);
            }
            leaf::hang(m, slot, quadrant, q.nodes, p);
            Ok(more(q, 1, level + 1))
        }
    }
}
