// The lent slots, of `SLOT_WORDS` words each. Word 0 is 0 for an internal node and f + 1 for a leaf whose first particle is f; words 1 and 2 hold the four children side by side, 0 for none and
// s + 1 for slot s; words 3 to 5 the values that a force keeps in a node, as bits.
ghost use Rattle.std.specs.Prelude.{◌≡◌, ◌+◌, ◌*◌, ◌/◌, ◌%◌, ◌^◌, ◌<◌, length, set, replicate};
ghost use Rattle.rules.specs.Refusal.{most_particles};
ghost use Rattle.rules.specs.Calls.{slot_words, slots_of};
ghost use Rattle.tree_slots.specs.Slots.{word, put, childless, kids, value, put_internal, put_leaf, put_value, copied, InSlots};

use rules::SLOT_WORDS;

// How many slots are lent.
pub fn slots(m: &[u64]) -> usize
    ensures { result ≡ slots_of m.now }
{
    m.len() / SLOT_WORDS
}

#[tactic(auto, unfolding(crate::specs::Slots::word))]
fn word_at(m: &[u64], s: usize, j: usize) -> u64
    requires { InSlots s m.now × (j < slot_words) }
    ensures { result ≡ word m.now s j }
{
    m[s * SLOT_WORDS + j]
}

#[tactic(auto, unfolding(crate::specs::Slots::put))]
fn put_word(m: &mut [u64], s: usize, j: usize, w: u64)
    requires { InSlots s m.old × (j < slot_words) }
    ensures { m.new ≡ put m.old s j w }
{
    m[s * SLOT_WORDS + j] = w;
}

// Two children in one word.
fn pair(a: u32, b: u32) -> u64
    ensures { result ≡ a + b * 2 ^ 32 }
{
    u64::from(a) + (u64::from(b) << 32)
}

fn low_half(w: u64) -> u32
    ensures { result ≡ w % 2 ^ 32 }
{
    (w & 0xffff_ffff) as u32
}

fn high_half(w: u64) -> u32
    ensures { result ≡ w / 2 ^ 32 }
{
    (w >> 32) as u32
}

pub fn tag(m: &[u64], s: usize) -> u64
    requires { InSlots s m.now }
    ensures { result ≡ word m.now s 0 }
{
    word_at(m, s, 0)
}

pub fn children(m: &[u64], s: usize) -> [u32; 4]
    requires { InSlots s m.now }
    ensures { result ≡ kids m.now s }
{
    let left = word_at(m, s, 1);
    let right = word_at(m, s, 2);
    [
        low_half(left),
        high_half(left),
        low_half(right),
        high_half(right),
    ]
}

// One child and no other.
pub fn only(k: usize, child: usize) -> [u32; 4]
    requires { (k < 4) × (child < 2 ^ 32) }
    ensures { result ≡ set childless k child }
{
    let mut children = [0u32; 4];
    children[k] = child as u32;
    children
}

// An internal node with these children.
#[tactic(auto, unfolding(crate::specs::Slots::put_internal))]
pub fn put_internal(m: &mut [u64], s: usize, children: [u32; 4])
    requires { InSlots s m.old }
    ensures { m.new ≡ put_internal m.old s children }
{
    let left = pair(children[0], children[1]);
    let right = pair(children[2], children[3]);
    put_word(m, s, 0, 0);
    put_word(m, s, 1, left);
    put_word(m, s, 2, right);
}

// A leaf whose first particle is `first`.
#[tactic(auto, unfolding(crate::specs::Slots::put_leaf))]
pub fn put_leaf(m: &mut [u64], s: usize, first: usize)
    requires { InSlots s m.old × (first < most_particles) }
    ensures { m.new ≡ put_leaf m.old s first }
{
    put_word(m, s, 0, (first + 1) as u64);
}

// What a tree sees of slot x, in slot h too.
#[tactic(auto, unfolding(crate::specs::Slots::copied))]
pub fn copy(m: &mut [u64], x: usize, h: usize)
    requires { InSlots x m.old × InSlots h m.old }
    ensures { m.new ≡ copied m.old x h }
{
    let tag = word_at(m, x, 0);
    let left = word_at(m, x, 1);
    let right = word_at(m, x, 2);
    put_word(m, h, 0, tag);
    put_word(m, h, 1, left);
    put_word(m, h, 2, right);
}

// Value j of a node: 0, 1 or 2.
pub fn node_value(m: &[u64], s: usize, j: usize) -> f64
    requires { InSlots s m.now × (j < 3) }
    ensures { result ≡ value m.now s j }
{
    number::float_of(word_at(m, s, 3 + j))
}

#[tactic(auto, unfolding(crate::specs::Slots::put_value))]
pub fn put_value(m: &mut [u64], s: usize, j: usize, x: f64)
    requires { InSlots s m.old × (j < 3) }
    ensures { m.new ≡ put_value m.old s j x }
{
    put_word(m, s, 3 + j, number::bits_of(x));
}

// Every word zero.
pub fn clear(m: &mut [u64])
    ensures { m.new ≡ replicate (length m.old) 0 }
{
    m.fill(0);
}
