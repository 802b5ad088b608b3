// The chains of particles at one point: next[i] is 0 for the end and j + 1 for particle j; tail[f] is the last particle of the chain whose first is f, so that joining it takes one step.
ghost use Rattle.std.specs.Prelude.{◌≡◌, ◌+◌, ◌<◌, length, get_or, set};
ghost use Rattle.rules.specs.Refusal.{most_particles};
ghost use Rattle.tree_leaves.specs.Chain.{Joinable};

// A chain of p alone.
pub fn begin(next: &mut [u32], tail: &mut [u32], p: usize)
    requires { (p < length next.old) × (p < length tail.old) × (p < most_particles) }
    ensures { (next.new ≡ set next.old p 0) × (tail.new ≡ set tail.old p p) }
{
    next[p] = 0;
    tail[p] = p as u32;
}

// p, which was alone, joins the chain of f at its end.
pub fn join(next: &mut [u32], tail: &mut [u32], f: usize, p: usize)
    requires { Joinable next.old tail.old f p }
    ensures { (next.new ≡ set next.old (get_or tail.old f 0) (p + 1)) × (tail.new ≡ set tail.old f p) }
{
    let last = tail[f] as usize;
    next[last] = (p + 1) as u32;
    tail[f] = p as u32;
}
