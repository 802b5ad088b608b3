// many_body.rs: the charge of each node, laid in its value words, children first.
#![tactic(auto)]

ghost use Rattle.std.specs.Prelude.{◌≡◌, ◌+◌, ◌*◌, ◌≤◌, ◌<◌, length};
ghost use Rattle.rules.specs.Number.{◌⊗◌};
ghost use Rattle.rules.specs.Calls.{slot_words};
ghost use Rattle.rules.specs.ManyBody.{with_child, node_charge, leaf_charge};
ghost use Rattle.tree_slots.specs.Trees.{Stands};
ghost use Rattle.tree_walk.specs.WalkAfter.{KidsIn, kid_values};
ghost use Rattle.many_body_chains.specs.Chain.{Chain};
ghost use Rattle.many_body_charge.specs.Charge.{charge_of, sums_of, read_charge, put_charge, Charged};

use many_body_chains::chain_strength;
use tree_slots::{Quadtree, store};
use tree_walk::Path;

// A place and the strength that acts from there.
#[derive(Clone, Copy)]
pub struct Charge {
    pub x: f64,
    pub y: f64,
    pub strength: f64,
}

// The sums over a node's children.
#[derive(Clone, Copy)]
pub struct Sums {
    pub x: f64,
    pub y: f64,
    pub strength: f64,
    pub weight: f64,
}

// A leaf has its first particle's place.
fn leaf_charge(at: &[f64], strengths: &[f64], next: &[u32], f: usize) -> Charge
    requires { Chain next.now (length strengths.now) f × (length next.now ≡ length strengths.now) × (length at.now ≡ length strengths.now * 2) }
    ensures { (h : Chain next.now (length strengths.now) f) → charge_of result ≡ leaf_charge at.now strengths.now h.members }
{
    Charge {
        x: at[f * 2],
        y: at[f * 2 + 1],
        strength: chain_strength(strengths, next, f),
    }
}

pub fn charge_at(m: &[u64], s: usize) -> Charge
    requires { s * slot_words + slot_words ≤ length m.now }
    ensures { charge_of result ≡ read_charge m.now s }
{
    Charge {
        x: store::node_value(m, s, 0),
        y: store::node_value(m, s, 1),
        strength: store::node_value(m, s, 2),
    }
}

fn put_charge(m: &mut [u64], s: usize, q: Charge)
    requires { s * slot_words + slot_words ≤ length m.old }
    ensures { m.new ≡ put_charge m.old s (charge_of q) }
{
    store::put_value(m, s, 0, q.x);
    store::put_value(m, s, 1, q.y);
    store::put_value(m, s, 2, q.strength);
}

// A weight of 0 counts too: times a NaN it is a NaN.
fn weighed(c: f64, x: f64) -> f64
    ensures { result ≡ c ⊗ x }
{
    c * x
}

// A child is added, of weight |strength|.
#[tactic(auto, using(number::proofs::Tests::abs_is), unfolding(rules::specs::ManyBody::with_child))]
fn with_child(s: Sums, q: Charge) -> Sums
    ensures { sums_of result ≡ with_child (sums_of s) (charge_of q) }
{
    let c = q.strength.abs();
    Sums {
        x: s.x + weighed(c, q.x),
        y: s.y + weighed(c, q.y),
        strength: s.strength + q.strength,
        weight: s.weight + c,
    }
}

// The centre of the children, by weight.
#[tactic(auto, using(tree_walk::proofs::WalkAfter::values_of_kids), unfolding(rules::specs::ManyBody::node_charge))]
fn node_charge(m: &[u64], s: usize) -> Charge
    requires { (s * slot_words + slot_words ≤ length m.now) × KidsIn m.now s }
    ensures { charge_of result ≡ node_charge (kid_values read_charge m.now s) }
{
    let mut sums = Sums {
        x: 0.0,
        y: 0.0,
        strength: 0.0,
        weight: 0.0,
    };
    for child in store::children(m, s) {
        if child != 0 {
            sums = with_child(sums, charge_at(m, (child - 1) as usize));
        }
    }
    Charge {
        x: sums.x / sums.weight,
        y: sums.y / sums.weight,
        strength: sums.strength,
    }
}

// A charge is laid at every node, children before their parent.
pub fn charges(q: Quadtree, at: &[f64], strengths: &[f64], next: &[u32], m: &mut [u64])
    requires stands { Stands at.now (length strengths.now) m.old next.now q }
    requires next_len { (length next.now ≡ length strengths.now) × (length at.now ≡ length strengths.now * 2) }
    ensures { Charged at.now strengths.now m.new next.now q }
{
    let mut path = Path::begin(q.root);
    while let Some(slot) = path.next(m) {
        let tag = store::tag(m, slot);
        if tag == 0 {
            put_charge(m, slot, node_charge(m, slot));
        } else {
            let first = (tag - 1) as usize;
            put_charge(m, slot, leaf_charge(at, strengths, next, first));
        }
    }
}
