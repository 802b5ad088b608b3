// A leaf's chain of particles, followed by its links: the strengths of its members, and their sum.
#![tactic(auto)]

ghost use Rattle.std.specs.Prelude.{◌≡◌, ◌<◌, length};
ghost use Rattle.rules.specs.ManyBody.{strength_of, leaf_charge};
ghost use Rattle.many_body_chains.specs.Chain.{Chain};

use number::plain_zero;

// Of particle j; -0.0 is read as 0.0.
pub fn strength_of(strengths: &[f64], j: usize) -> f64
    requires { j < length strengths.now }
    ensures { result ≡ strength_of strengths.now j }
{
    plain_zero(strengths[j])
}

// The first particle's strength plus the sum of the rest of its chain, from 0.0.
pub fn chain_strength(strengths: &[f64], next: &[u32], f: usize) -> f64
    requires { Chain next.now (length strengths.now) f × (length next.now ≡ length strengths.now) }
    ensures { (h : Chain next.now (length strengths.now) f) → result ≡ (leaf_charge strengths.now strengths.now h.members).strength }
{
    let own = strength_of(strengths, f);
    let mut rest = 0.0;
    let mut link = next[f];
    while link != 0 {
        let j = (link - 1) as usize;
        rest += strength_of(strengths, j);
        link = next[j];
    }
    own + rest
}
