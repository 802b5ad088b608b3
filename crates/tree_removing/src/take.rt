// The leaf of a particle, and the tree without that leaf.
ghost use Rattle.std.specs.Prelude.{◌≡◌, List, [], ℕ};
ghost use Rattle.rules.specs.Plain.{others};
ghost use Rattle.tree_leaves.specs.Chain.{at_point};
ghost use Rattle.tree_placing.specs.Add.{Holds};
ghost use Rattle.tree_removing.specs.Take.{Finds, Spotted};

use crate::fill::fill;
use crate::way::Edge;
use crate::{tidy, way};
use tree_slots::{Quadtree, store};

// Where a leaf stands: its slot, and the node above it, if there is one, with the leaf's quadrant there.
#[derive(Clone, Copy)]
pub struct Spot {
    pub leaf: usize,
    pub above: Option<Edge>,
}

// The leaf of i.
pub fn leaf_of(m: &[u64], at: &[f64], q: Quadtree, i: usize) -> Spot
    requires { (is : List ℕ) × Finds at.now is m.now q i }
    ensures { (is : List ℕ) → Finds at.now is m.now q i → Spotted at.now is m.now q i result }
{
    let root = q.root as usize - 1;
    if store::tag(m, root) != 0 {
        return Spot {
            leaf: root,
            above: None,
        };
    }
    let edge = way::inner(m, at, q, i);
    let children = store::children(m, edge.slot);
    Spot {
        leaf: children[edge.quadrant] as usize - 1,
        above: Some(edge),
    }
}

// No point is left at that of i: its leaf goes, and what has one leaf left below it becomes that leaf.
pub fn cut(m: &mut [u64], at: &[f64], q: Quadtree, i: usize, spot: Spot) -> Quadtree
    requires { (is : List ℕ) × Finds at.now is m.old q i × Spotted at.now is m.old q i spot × (others i (at_point at.now is i) ≡ []) }
    ensures { (is : List ℕ) → Finds at.now is m.old q i → Spotted at.now is m.old q i spot → others i (at_point at.now is i) ≡ []
        → Holds at.now (others i is) m.new result × (result.extent ≡ q.extent) }
{
    let Some(edge) = spot.above else {
        return Quadtree {
            root: 0,
            nodes: 0,
            deepest: 0,
            ..q
        };
    };
    let mut children = store::children(m, edge.slot);
    children[edge.quadrant] = 0;
    store::put_internal(m, edge.slot, children);
    let filled = fill(m, at, tidy::fewer(q), spot.leaf);
    tidy::tidy(m, at, filled, i)
}
