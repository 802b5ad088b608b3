// The ranges of document 01, both ends in them. No comparison with a NaN is true, so a NaN is in none.
ghost use Rattle.std.specs.Prelude.{◌≡◌};
ghost use Rattle.rules.specs.Number as Number;

// 2^40
const LIMIT: f64 = 1099511627776.0;

#[tactic(auto, unfolding(rules::specs::Number::between))]
pub fn within(x: f64) -> bool
    ensures { result ≡ Number.within x }
{
    x >= -LIMIT && x <= LIMIT
}

#[tactic(auto, unfolding(rules::specs::Number::between))]
pub fn distance_range(x: f64) -> bool
    ensures { result ≡ Number.distance_range x }
{
    x >= 0.0 && x <= LIMIT
}

#[tactic(auto, unfolding(rules::specs::Number::between))]
pub fn draw_range(x: f64) -> bool
    ensures { result ≡ Number.draw_range x }
{
    x >= -1.0 && x <= 1.0
}

#[tactic(auto, using(crate::proofs::Tests::finite_is))]
pub fn is_finite(x: f64) -> bool
    ensures { result ≡ Number.finite x }
{
    x.is_finite()
}

// Of a velocity, on both axes.
pub fn speed_range(vx: f64, vy: f64) -> bool
    ensures { result ≡ Number.speed_range vx vy }
{
    is_finite(vx) && is_finite(vy)
}
