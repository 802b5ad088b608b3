// A number's bits, and the number of any bits. A NaN is written 7FF8000000000000, and read whatever
// its payload is.
ghost use Rattle.std.specs.Prelude.{◌≡◌};
ghost use Rattle.rules.specs.Number.{bits_of, float_of};

// Patterns: the sign, the infinity and the NaN.
const SIGN: u64 = 1 << 63;

const INFINITY: u64 = 0x7ff0_0000_0000_0000;

const NAN: u64 = 0x7ff8_0000_0000_0000;

#[tactic(auto, using(crate::proofs::Tests::nan_bits_are))]
pub fn bits_of(x: f64) -> u64
    ensures { result ≡ bits_of x }
{
    if x.is_nan() {
        return NAN;
    }
    x.to_bits()
}

// Without its sign a pattern beyond the infinity's is a NaN. A machine may keep its payload, so it
// is made anew.
#[tactic(auto, using(crate::proofs::Tests::nan_of, crate::proofs::Tests::no_nan_of))]
pub fn float_of(b: u64) -> f64
    ensures { result ≡ float_of b }
{
    if b % SIGN > INFINITY {
        return f64::NAN;
    }
    f64::from_bits(b)
}
