// extent.rs: a cell's middles and its quarters.
ghost use Rattle.std.specs.Prelude.{◌≡◌, ◌<◌};
ghost use Rattle.rules.specs.Cell as Cell;

use rules::Extent;

#[tactic(auto, unfolding(rules::specs::Cell::middle))]
pub fn middle(a: f64, b: f64) -> f64
    ensures { result ≡ Cell.middle a b }
{
    (a + b) / 2.0
}

// The cell of the quarter with this number.
#[tactic(auto, unfolding(rules::specs::Cell::quarter))]
pub fn quarter(q: usize, c: Extent) -> Extent
    requires { q < 4 }
    ensures { result ≡ Cell.quarter q c }
{
    let xm = middle(c.x0, c.x1);
    let ym = middle(c.y0, c.y1);
    match q {
        0 => Extent {
            x1: xm,
            y1: ym,
            ..c
        },
        1 => Extent {
            x0: xm,
            y1: ym,
            ..c
        },
        2 => Extent {
            x1: xm,
            y0: ym,
            ..c
        },
        _ => Extent {
            x0: xm,
            y0: ym,
            ..c
        },
    }
}
