// The root of a finite value above zero, all binary digits one at a time. What `nearest` promises
// says nothing of that way.
ghost use Rattle.std.specs.Prelude.{◌^◌, ◌<◌, ◌≤◌};
ghost use Rattle.rules.specs.Root.{infinity, Nearest};
ghost use Rattle.square_root.specs.Steps.{Unpacked, Radicand, BetweenSteps, Stepped, Rooted};

// the digits of a root
const DIGITS: u32 = 53;

// 2^52, the leading one of them
const LEAD: u64 = 1 << 52;

// m * 2^k
#[derive(Clone, Copy)]
struct Parts {
    m: u64,
    k: u64,
}

// The root q of the digits taken, what is left of them, and the digits to come.
#[derive(Clone, Copy)]
struct Digits {
    q: u64,
    rem: u64,
    rest: u64,
}

// the square of the root of b's value, in square units
#[tactic(auto, using(crate::proofs::Powers::small, crate::proofs::Powers::normal))]
fn unpack(b: u64) -> Parts
    requires { (0 < b) × (b < infinity) }
    ensures { Unpacked b result.m result.k }
{
    if b < LEAD {
        let shift = b.leading_zeros() - 11;
        return Parts {
            m: b << shift,
            k: u64::from(1074 - shift),
        };
    }
    Parts {
        m: b % LEAD + LEAD,
        k: b / LEAD + 1073,
    }
}

// An even power of two is left: its root is a power of two.
#[tactic(auto, using(crate::proofs::Powers::radicand_even, crate::proofs::Powers::radicand_odd))]
fn radicand(m: u64, k: u64) -> u64
    requires { (m < 2 ^ 53) × (52 ≤ k) }
    ensures { Radicand m k result }
{
    if k % 2 == 0 {
        return m;
    }
    m * 2
}

// one digit of the root from two of the radicand
fn step(s: Digits) -> Digits
    requires { BetweenSteps s.q s.rem s.rest × (s.q < 2 ^ 52) }
    ensures { Stepped s.q s.rem s.rest result.q result.rem result.rest }
{
    let rem = s.rem * 4 + s.rest / LEAD;
    let rest = s.rest % LEAD * 4;
    let trial = s.q * 4 + 1;
    if rem >= trial {
        return Digits {
            q: s.q * 2 + 1,
            rem: rem - trial,
            rest,
        };
    }
    Digits {
        q: s.q * 2,
        rem,
        rest,
    }
}

// the root of a * 2^52, and the remainder
#[tactic(auto, using(crate::proofs::Powers::inv_start))]
fn integer_root(a: u64) -> Digits
    requires { (2 ^ 52 ≤ a) × (a < 2 ^ 54) }
    ensures { Rooted a result.q result.rem }
{
    let mut s = Digits {
        q: 0,
        rem: 0,
        rest: a,
    };
    for _ in 0..DIGITS {
        s = step(s);
    }
    s
}

// The pattern nearest to the root of b's value. The root is a whole number of 53 digits and a
// fraction, times 2^h, and a remainder above q says that the fraction is above a half. It never is
// a half, so no tie is to be broken.
pub fn nearest(b: u64) -> u64
    requires { (0 < b) × (b < infinity) }
    ensures { Nearest b result }
{
    let p = unpack(b);
    let a = radicand(p.m, p.k);
    let s = integer_root(a);
    let h = (p.k - 52) / 2;
    if s.q < s.rem {
        return h * LEAD + (s.q + 1);
    }
    h * LEAD + s.q
}
