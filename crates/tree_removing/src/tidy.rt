// What has one leaf below it becomes that leaf, up to the root.
ghost use Rattle.std.specs.Prelude.{◌≡◌, ℕ, ◌<◌};
ghost use Rattle.rules.specs.Tree.{Tree};
ghost use Rattle.tree_removing.specs.Remove.{with_less, Tidies, Folds, Tidied};

use crate::fill::fill;
use crate::way;
use tree_slots::{Quadtree, store};

// An internal node's slot, and that of its only child, a leaf.
#[derive(Clone, Copy)]
pub struct Fold {
    pub slot: usize,
    pub child: usize,
}

// The tree with one node less.
pub fn fewer(q: Quadtree) -> Quadtree
    requires { 0 < q.nodes }
    ensures { result ≡ with_less q }
{
    Quadtree {
        nodes: q.nodes - 1,
        ..q
    }
}

// The last internal node on the way of i, if it has but one child and that is a leaf.
fn lone(m: &[u64], at: &[f64], q: Quadtree, i: usize) -> Option<Fold>
    requires { (t : Tree ℕ) × Tidies at.now m.now q i t }
    ensures { (t : Tree ℕ) → Tidies at.now m.now q i t → Folds at.now q.extent t i result }
{
    if q.root == 0 || store::tag(m, q.root as usize - 1) != 0 {
        return None;
    }
    let edge = way::inner(m, at, q, i);
    let slot = edge.slot;
    let children = store::children(m, slot);
    let first = way::some_child(children)?;
    if way::child_count(children) != 1 {
        return None;
    }
    let child = first as usize - 1;
    if store::tag(m, child) == 0 {
        return None;
    }
    Some(Fold { slot, child })
}

// The tree gathered along the way of i.
pub fn tidy(m: &mut [u64], at: &[f64], q: Quadtree, i: usize) -> Quadtree
    requires { (t : Tree ℕ) × Tidies at.now m.old q i t }
    ensures { (t : Tree ℕ) → Tidies at.now m.old q i t → Tidied at.now m.new q result i t }
{
    let mut less = q;
    while let Some(fold) = lone(m, at, less, i) {
        let tag = store::tag(m, fold.child);
        store::put_leaf(m, fold.slot, (tag - 1) as usize);
        less = fill(m, at, fewer(less), fold.child);
    }
    less
}
