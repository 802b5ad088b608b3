// The square root of IEEE 754, of a number and from bits to bits.
ghost use Rattle.std.specs.Prelude.{◌≡◌, ◌<◌};
ghost use Rattle.rules.specs.Root as Root;

use crate::digits::nearest;
use number::{bits_of, float_of};

// the pattern of the infinity
const INFINITY: u64 = 0x7ff0_0000_0000_0000;

// There is one nearest pattern only, so it is the one of the rules.
fn root_pattern(b: u64) -> u64
    requires { (0 < b) × (b < Root.infinity) }
    ensures { result ≡ Root.root_pattern b }
{
    nearest(b)
}

pub fn root(x: f64) -> f64
    ensures { result ≡ Root.root x }
{
    if x < 0.0 {
        return f64::NAN;
    }
    // A zero, the infinity and a NaN are their own roots.
    if x == 0.0 {
        return x;
    }
    let b = bits_of(x);
    if b >= INFINITY {
        return x;
    }
    float_of(root_pattern(b))
}

pub fn root_bits(b: u64) -> u64
    ensures { result ≡ Root.root_bits b }
{
    bits_of(root(float_of(b)))
}
