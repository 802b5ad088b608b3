// Small helpers beside f64's own methods.
ghost use Rattle.std.specs.Prelude.{◌≡◌};
ghost use Rattle.rules.specs.Number as Number;

// Unlike f64's method this asks nothing of lo and hi.
#[tactic(auto, unfolding(rules::specs::Number::clamp))]
pub fn clamp(x: f64, lo: f64, hi: f64) -> f64
    ensures { result ≡ Number.clamp x lo hi }
{
    if x < lo {
        return lo;
    }
    if x > hi {
        return hi;
    }
    x
}

// -0.0 equals 0.0, which is returned for both: no method of f64 does this.
#[tactic(auto, unfolding(rules::specs::Number::plain_zero))]
pub fn plain_zero(x: f64) -> f64
    ensures { result ≡ Number.plain_zero x }
{
    if x == 0.0 {
        return 0.0;
    }
    x
}
