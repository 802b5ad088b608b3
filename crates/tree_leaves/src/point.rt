// The places of particles: pairs x, y side by side in one list.
ghost use Rattle.std.specs.Prelude.{◌≡◌, ◌+◌, ◌*◌, ◌≤◌, length};
ghost use Rattle.rules.specs.Number.{x_at, y_at};
ghost use Rattle.rules.specs.Tree as Rule;

pub fn x_at(at: &[f64], i: usize) -> f64
    requires { i * 2 + 2 ≤ length at.now }
    ensures { result ≡ x_at at.now i }
{
    at[i * 2]
}

pub fn y_at(at: &[f64], i: usize) -> f64
    requires { i * 2 + 2 ≤ length at.now }
    ensures { result ≡ y_at at.now i }
{
    at[i * 2 + 1]
}

// Numerically equal: -0.0 is 0.0.
#[tactic(auto, unfolding(rules::specs::Tree::same))]
pub fn same(at: &[f64], i: usize, j: usize) -> bool
    requires { (i * 2 + 2 ≤ length at.now) × (j * 2 + 2 ≤ length at.now) }
    ensures { result ≡ Rule.same at.now i j }
{
    x_at(at, i) == x_at(at, j) && y_at(at, i) == y_at(at, j)
}
