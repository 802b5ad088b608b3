// Collide's radius of each node, laid in value 0 of its slot, children first.
ghost use Rattle.std.specs.Prelude.{◌≡◌, ◌+◌, ◌*◌, ◌≤◌, length};
ghost use Rattle.rules.specs.Collide as Collide;
ghost use Rattle.rules.specs.Calls.{slot_words};
ghost use Rattle.tree_walk.specs.WalkAfter.{KidsIn, kid_values};
ghost use Rattle.collide.specs.Radius.{radius_in, HoldsSomeTree, Prepares};

use collide_contact::radius_of;
use tree_slots::{Quadtree, store};
use tree_walk::Path;

// The first where the second isn't greater, even where the first is a NaN, which the library's maximum would pass over.
fn greater(a: f64, b: f64) -> f64
    ensures { result ≡ Collide.greater a b }
{
    if a < b { b } else { a }
}

// The greatest of a node's children.
#[tactic(auto, using(tree_walk::proofs::WalkAfter::values_of_kids))]
fn greatest_below(m: &[u64], s: usize) -> f64
    requires { (s * slot_words + slot_words ≤ length m.now) × KidsIn m.now s }
    ensures { result ≡ Collide.node_radius (kid_values radius_in m.now s) }
{
    let mut greatest = 0.0;
    for child in store::children(m, s) {
        if child != 0 {
            greatest = greater(greatest, store::node_value(m, (child - 1) as usize, 0));
        }
    }
    greatest
}

// Each node gets its radius: a leaf its first particle's, any other its greatest child's.
pub fn prepare(q: Quadtree, radii: &[f64], m: &mut [u64])
    requires { HoldsSomeTree (length radii.now) m.old q }
    ensures { Prepares radii.now m.old m.new q }
{
    let mut path = Path::begin(q.root);
    while let Some(slot) = path.next(m) {
        let tag = store::tag(m, slot);
        let radius = if tag == 0 {
            greatest_below(m, slot)
        } else {
            radius_of(radii, (tag - 1) as usize)
        };
        store::put_value(m, slot, 0, radius);
    }
}
