// A particle leaves its chain and the tree.
ghost use Rattle.std.specs.Prelude.{List, ℕ};
ghost use Rattle.rules.specs.Plain.{others};
ghost use Rattle.tree_removing.specs.Take.{Removes, Removed};

use crate::take;
use tree_leaving::leave;
use tree_slots::{Quadtree, store};

// The slots hold the tree without i, and the lists the chains. The leaf of i takes the first that is left at its point for its own, or goes.
pub fn remove(
    m: &mut [u64],
    at: &[f64],
    next: &mut [u32],
    tail: &mut [u32],
    q: Quadtree,
    i: usize,
) -> Quadtree
    requires { (is : List ℕ) × Removes at.now is m.old next.old tail.old q i }
    ensures { (is : List ℕ) → Removes at.now is m.old next.old tail.old q i
        → Removed at.now (others i is) m.new next.new tail.new q result }
{
    let spot = take::leaf_of(m, at, q, i);
    let tag = store::tag(m, spot.leaf);
    let first = (tag - 1) as usize;
    let link = leave(next, tail, first, i);
    if link != 0 {
        store::put_leaf(m, spot.leaf, link - 1);
        return q;
    }
    take::cut(m, at, q, i, spot)
}
