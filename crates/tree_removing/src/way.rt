// The ways down a tree that removing takes, by reading alone.
ghost use Rattle.std.specs.Prelude.{◌≡◌, ℕ, ◌<◌, not, ◌==◌, count_by, MatchOption};
ghost use Rattle.rules.specs.Tree.{Tree};
ghost use Rattle.tree_removing.specs.Ways.{some_kid, StandsFrom, Under, Above, Tops, Innermost};
ghost use Rattle.tree_removing.specs.Remove.{LeafOf};

use tree_cells::indexer::Indexer;
use tree_leaves::point;
use tree_slots::{Quadtree, store};

// An internal node and one of its quadrants.
#[derive(Clone, Copy)]
pub struct Edge {
    pub slot: usize,
    pub quadrant: usize,
}

// The first child that there is, as its number.
pub fn some_child(children: [u32; 4]) -> Option<u32>
    ensures { MatchOption result (some_kid children ≡ 0) (λ child. (child ≡ some_kid children) × (0 < child)) }
{
    children.iter().copied().find(|child| *child != 0)
}

// How many children there are.
pub fn child_count(children: [u32; 4]) -> usize
    ensures { result ≡ count_by (λ child. not (child == 0)) children }
{
    children.iter().filter(|child| **child != 0).count()
}

// The first particle of a leaf below slot s.
pub fn leaf_below(m: &[u64], s: usize) -> usize
    requires { (t : Tree ℕ) × StandsFrom m.now s t }
    ensures { (t : Tree ℕ) → StandsFrom m.now s t → LeafOf result t }
{
    let mut x = s;
    loop {
        let tag = store::tag(m, x);
        if tag != 0 {
            return (tag - 1) as usize;
        }
        // An internal node has a child.
        let child = some_child(store::children(m, x)).unwrap();
        x = child as usize - 1;
    }
}

#[tactic(auto, using(tree_cells::proofs::Quadrant::quadrant_lt))]
// The node above slot x, on the way of f.
pub fn parent(m: &[u64], at: &[f64], q: Quadtree, x: usize, f: usize) -> Edge
    requires { (t : Tree ℕ) × Under at.now m.now q x f t }
    ensures { (t : Tree ℕ) → Under at.now m.now q x f t → Above at.now q.extent t x f result }
{
    let u = point::x_at(at, f);
    let v = point::y_at(at, f);
    let mut slot = q.root as usize - 1;
    let mut ix = Indexer::with_extent(q.extent);
    loop {
        let way = ix.get_and_descend(u, v);
        let quadrant = way.quadrant;
        let children = store::children(m, slot);
        let child = children[quadrant] as usize;
        if child == x + 1 {
            return Edge { slot, quadrant };
        }
        slot = child - 1;
        ix = way.indexer;
    }
}

#[tactic(auto, using(tree_cells::proofs::Quadrant::quadrant_lt))]
// The last internal node on the way of i.
pub fn inner(m: &[u64], at: &[f64], q: Quadtree, i: usize) -> Edge
    requires { (t : Tree ℕ) × Tops at.now m.now q i t }
    ensures { (t : Tree ℕ) → Tops at.now m.now q i t → Innermost at.now q.extent t i result }
{
    let x = point::x_at(at, i);
    let y = point::y_at(at, i);
    let mut slot = q.root as usize - 1;
    let mut ix = Indexer::with_extent(q.extent);
    loop {
        let way = ix.get_and_descend(x, y);
        let quadrant = way.quadrant;
        let children = store::children(m, slot);
        let child = children[quadrant] as usize;
        if child == 0 || store::tag(m, child - 1) != 0 {
            return Edge { slot, quadrant };
        }
        slot = child - 1;
        ix = way.indexer;
    }
}
