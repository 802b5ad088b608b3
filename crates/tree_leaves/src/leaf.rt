// How a leaf comes into the slots: hung under a node, or put beside the leaf that stands there, below as many nodes as the two share.
ghost use Rattle.std.specs.Prelude.{◌≡◌, ◌+◌, ◌*◌, ◌^◌, ◌≤◌, ◌<◌, length};
ghost use Rattle.rules.specs.Refusal.{most_particles};
ghost use Rattle.rules.specs.Calls.{slot_words};
ghost use Rattle.tree_slots.specs.Slots.{InSlots};
ghost use Rattle.tree_leaves.specs.Leaf.{hung, shared_levels, forked, parted, Forks, Splits};

use crate::point;
use rules::Extent;
use tree_cells::indexer::Indexer;
use tree_slots::store;

// For how many levels from the cell on, `most` at the most, the two particles share a quadrant.
pub fn shared_levels(at: &[f64], cell: Extent, most: usize, f: usize, p: usize) -> usize
    requires { (f * 2 + 2 ≤ length at.now) × (p * 2 + 2 ≤ length at.now) }
    ensures { result ≡ shared_levels at.now p most cell f }
{
    let x = point::x_at(at, p);
    let y = point::y_at(at, p);
    let u = point::x_at(at, f);
    let v = point::y_at(at, f);
    let mut ix = Indexer::with_extent(cell);
    for level in 0..most {
        let way = ix.get_and_descend(x, y);
        if way.quadrant != ix.get(u, v) {
            return level;
        }
        ix = way.indexer;
    }
    most
}

// A leaf of p in slot x, as child k of slot s.
#[tactic(auto, unfolding(crate::specs::Leaf::hung))]
pub fn hang(m: &mut [u64], s: usize, k: usize, x: usize, p: usize)
    requires { InSlots s m.old × (k < 4) × ((x + 1) * slot_words ≤ length m.old) × (x + 1 < 2 ^ 32) × (p < most_particles) }
    ensures { m.new ≡ hung p m.old s k x }
{
    let mut children = store::children(m, s);
    children[k] = (x + 1) as u32;
    store::put_internal(m, s, children);
    store::put_leaf(m, x, p);
}

// Slot s becomes an internal node over two new leaves, from slot x on: of f as child j, of p as child k.
fn fork(m: &mut [u64], s: usize, j: usize, k: usize, x: usize, f: usize, p: usize)
    requires { Forks m.old s j k x f p }
    ensures { m.new ≡ forked f p m.old s j k x }
{
    let mut children = store::only(j, x + 1);
    children[k] = (x + 2) as u32;
    store::put_internal(m, s, children);
    store::put_leaf(m, x, f);
    store::put_leaf(m, x + 1, p);
}

// The leaf of f in slot s becomes an internal node over g more, new ones, with the leaves of f and p at the end.
pub fn split(
    m: &mut [u64],
    at: &[f64],
    s: usize,
    cell: Extent,
    g: usize,
    x: usize,
    f: usize,
    p: usize,
)
    requires { Splits m.old (length at.now) s x g f p }
    ensures { m.new ≡ parted at.now p f g cell s x m.old }
{
    let u = point::x_at(at, p);
    let v = point::y_at(at, p);
    let mut ix = Indexer::with_extent(cell);
    let mut slot = s;
    for free in x..x + g {
        let way = ix.get_and_descend(u, v);
        store::put_internal(m, slot, store::only(way.quadrant, free + 1));
        ix = way.indexer;
        slot = free;
    }
    let j = ix.get(point::x_at(at, f), point::y_at(at, f));
    let k = ix.get(u, v);
    fork(m, slot, j, k, x + g, f, p);
}
