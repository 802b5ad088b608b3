// cover.rs: the extent grows to hold a point. Every end is a whole number held as f64, so a point is outside exactly where its floor is, and no floor is taken but the first.
ghost use Rattle.std.specs.Prelude.{◌≡◌, ◌<◌, false, not, ◌||◌, T, ◌+ℤ◌};
ghost use Rattle.std.specs.Float.Ieee.{lt, le};
ghost use Rattle.rules.specs.Number.{within};
ghost use Rattle.rules.specs.Floor.{floor};
ghost use Rattle.rules.specs.Cover as Rule;
ghost use Rattle.rules.proofs.CoverTerms.{side};
ghost use Rattle.tree_cells.specs.Cover.{square_of, Reachable, Near, DoubledTo, CoveredTo};

use rules::Extent;

// An extent and the quadrant that the one before takes in it.
#[derive(Clone, Copy)]
pub struct Doubled {
    pub extent: Extent,
    pub quadrant: usize,
}

// An extent and how many doublings led to it.
#[derive(Clone, Copy)]
pub struct Covered {
    pub extent: Extent,
    pub doublings: usize,
}

fn floored(x: f64) -> f64
    requires { T (within x) }
    ensures { result ≡ Rule.whole (floor x) }
{
    std::num::nearest_i64_to_f64(number::floor(x))
}

// The extent of the first point: floor to floor + 1 on both axes.
pub fn first(x: f64, y: f64) -> Extent
    requires { T (within x) × T (within y) }
    ensures { result ≡ Rule.extent_of (Rule.cover_point Rule.nothing (floor x) (floor y)) }
{
    let (x0, y0) = (floored(x), floored(y));
    Extent {
        x0,
        y0,
        x1: x0 + 1.0,
        y1: y0 + 1.0,
    }
}

// Off one axis: before lo, or from hi on.
fn off(lo: f64, x: f64, hi: f64) -> bool
    ensures { result ≡ (lt x lo || le hi x) }
{
    x < lo || x >= hi
}

pub fn outside(e: Extent, x: f64, y: f64) -> bool
    requires { Near e x y }
    ensures { result ≡ not (Rule.inside (square_of e) (floor x) (floor y)) }
{
    off(e.x0, x, e.x1) || off(e.y0, y, e.y1)
}

// The quadrant that the extent takes in the doubled one.
fn old_quadrant(e: Extent, x: f64, y: f64) -> usize
    requires { Near e x y }
    ensures { result ≡ Rule.old_quadrant (square_of e) (floor x) (floor y) }
{
    2 * usize::from(y < e.y0) + usize::from(x < e.x0)
}

// The ends that the quadrant number moves, z being the new side.
fn grown(q: usize, z: f64, e: Extent) -> Extent
    requires { Reachable e × (q < 4) × (z ≡ Rule.whole (side (square_of e) +ℤ side (square_of e))) }
    ensures { result ≡ Rule.extent_of (Rule.holds (Rule.grown q (side (square_of e) +ℤ side (square_of e)) (square_of e))) }
{
    match q {
        0 => Extent {
            x1: e.x0 + z,
            y1: e.y0 + z,
            ..e
        },
        1 => Extent {
            x0: e.x1 - z,
            y1: e.y0 + z,
            ..e
        },
        2 => Extent {
            x1: e.x0 + z,
            y0: e.y1 - z,
            ..e
        },
        _ => Extent {
            x0: e.x1 - z,
            y0: e.y1 - z,
            ..e
        },
    }
}

// One doubling towards a point that is outside.
pub fn double_once(e: Extent, x: f64, y: f64) -> Doubled
    requires { Near e x y × (Rule.inside (square_of e) (floor x) (floor y) ≡ false) }
    ensures { DoubledTo e (floor x) (floor y) result }
{
    let quadrant = old_quadrant(e, x, y);
    let side = e.x1 - e.x0;
    Doubled {
        extent: grown(quadrant, side + side, e),
        quadrant,
    }
}

// Doublings until the point is inside.
pub fn cover(e: Extent, x: f64, y: f64) -> Covered
    requires { Near e x y }
    ensures { CoveredTo e (floor x) (floor y) result }
{
    let mut covered = Covered {
        extent: e,
        doublings: 0,
    };
    while outside(covered.extent, x, y) {
        covered.extent = double_once(covered.extent, x, y).extent;
        covered.doublings += 1;
    }
    covered
}
