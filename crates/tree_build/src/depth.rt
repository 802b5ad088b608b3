// How deep the tree goes. The deepest level is kept as a bound, since a removal may leave fewer levels; where the bound would refuse, the tree is looked at.
ghost use Rattle.std.specs.Prelude.{◌≡◌, ℕ, ◌<◌};
ghost use Rattle.rules.specs.Tree.{Tree, depth};
ghost use Rattle.tree_build.specs.Depth.{Goes, Deepest, LevelsBounded};

use tree_slots::{Quadtree, store};

// How many levels the tree has that p leads to, whose root stands at `level`.
fn levels(m: &[u64], p: u32, level: usize) -> usize
    requires { (t : Tree ℕ) × Goes m.now p level t }
    ensures { (t : Tree ℕ) → Goes m.now p level t → result ≡ depth t }
{
    if p == 0 {
        return 0;
    }
    let s = (p - 1) as usize;
    if store::tag(m, s) != 0 {
        return 1;
    }
    let mut below: usize = 0;
    for child in store::children(m, s) {
        below = below.max(levels(m, child, level + 1));
    }
    below + 1
}

// The deepest level, or a bound of it that leaves room for w levels more.
pub fn deepest(m: &[u64], q: Quadtree, w: usize) -> usize
    requires { (t : Tree ℕ) × LevelsBounded m.now q t × (w < 64) }
    ensures { (t : Tree ℕ) → LevelsBounded m.now q t → Deepest w t result }
{
    if q.deepest + w <= Quadtree::GREATEST_LEVEL {
        return q.deepest;
    }
    levels(m, q.root, 0) - 1
}
