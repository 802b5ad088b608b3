// A gap between two places, and its length after a draw stood in for a difference.
ghost use Rattle.std.specs.Prelude.{◌≡◌};
ghost use Rattle.rules.specs.Flow as Flow;

// A difference of two places.
#[derive(Clone, Copy)]
pub struct Gap {
    pub x: f64,
    pub y: f64,
}

// The square of each draw is added: of the differences x and y as they were, and a and b as they are now.
#[tactic(auto, unfolding(rules::specs::Flow::lengthened))]
pub fn lengthen(l: f64, x: f64, y: f64, a: f64, b: f64) -> f64
    ensures { result ≡ Flow.lengthened l (Flow.gap x y) (Flow.gap a b) }
{
    let l = if x == 0.0 { l + a * a } else { l };
    if y == 0.0 { l + b * b } else { l }
}
