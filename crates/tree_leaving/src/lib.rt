// A particle leaves the chain at its point: next[i] is 0 for the end and j + 1 for particle j; tail[f] is the last particle of the chain whose first is f.
#![tactic(auto)]

ghost use Rattle.std.specs.Prelude.{◌≡◌, List, ℕ, ◌+◌, length};
ghost use Rattle.tree_leaving.specs.Leaving.{Member, Precedes, Left};

// The member before i, in the chain of f, which isn't i.
fn before(next: &[u32], f: usize, i: usize) -> usize
    requires { (js : List ℕ) × Member next.now js f i × (f ≡ i → ⊥) }
    ensures { Precedes next.now f i result }
{
    let mut j = f;
    while next[j] as usize != i + 1 {
        j = next[j] as usize - 1;
    }
    j
}

// i leaves the chain of f: the new first one's number and one more, or 0 where i was alone, as a link has it, since `Left` follows the chain from that number.
pub fn leave(next: &mut [u32], tail: &mut [u32], f: usize, i: usize) -> usize
    requires { (js : List ℕ) × Member next.old js f i × (length tail.old ≡ length next.old) }
    ensures { (js : List ℕ) → Member next.old js f i → Left next.old tail.old next.new tail.new js f i result }
{
    let after = next[i] as usize;
    if f == i {
        if after != 0 {
            tail[after - 1] = tail[i];
        }
        return after;
    }
    let j = before(next, f, i);
    next[j] = next[i];
    if after == 0 {
        tail[f] = j as u32;
    }
    f + 1
}
