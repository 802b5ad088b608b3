// A slot that falls free is filled at once, so that the tree keeps to the first slots.
ghost use Rattle.std.specs.Prelude.{◌≡◌, ℕ, ◌+◌, ◌^◌, ◌<◌, set};
ghost use Rattle.rules.specs.Tree.{Tree};
ghost use Rattle.tree_slots.specs.Slots.{kids, put_internal, copied, InSlots};
ghost use Rattle.tree_removing.specs.Remove.{Hollow, Filled};

use crate::way;
use tree_slots::{Quadtree, store};

// What stands in slot `from` moves to slot `to`, and child k of slot s with it.
fn relink(m: &mut [u64], s: usize, k: usize, from: usize, to: usize)
    requires { InSlots s m.old × (k < 4) × InSlots from m.old × InSlots to m.old × (to + 1 < 2 ^ 32) }
    ensures { m.new ≡ put_internal (copied m.old from to) s (set (kids (copied m.old from to) s) k (to + 1)) }
{
    store::copy(m, from, to);
    let mut children = store::children(m, s);
    children[k] = (to + 1) as u32;
    store::put_internal(m, s, children);
}

// Slot h is free, and the tree has the others of one slot more than its nodes: the node in the last one moves to h.
pub fn fill(m: &mut [u64], at: &[f64], q: Quadtree, h: usize) -> Quadtree
    requires { (t : Tree ℕ) × Hollow at.now m.old q h t }
    ensures { (t : Tree ℕ) → Hollow at.now m.old q h t → Filled at.now m.new q result t }
{
    let x = q.nodes;
    if h == x {
        return q;
    }
    if q.root as usize == x + 1 {
        store::copy(m, x, h);
        return Quadtree {
            root: (h + 1) as u32,
            ..q
        };
    }
    let f = way::leaf_below(m, x);
    let up = way::parent(m, at, q, x, f);
    relink(m, up.slot, up.quadrant, x, h);
    q
}
