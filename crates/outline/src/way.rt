// A longitude's range, and the short way from a number to a longitude, in units of 1e-7 degree.
ghost use Rattle.std.specs.Prelude.{◌≡◌, true, ◌≤◌, nat_abs};
ghost use Rattle.rules.specs.Outline as Outline;
ghost use Rattle.outline.specs.Unwrap.{farthest};

const HALF_TURN: i64 = 1800000000;

const TURN: i64 = 2 * HALF_TURN;

#[tactic(auto, using(std::proofs::lemmas::Int::ints), unfolding(rules::specs::Outline::longitude_range))]
pub fn longitude_range(a: i64) -> bool
    ensures { result ≡ Outline.longitude_range a }
{
    (-HALF_TURN..=HALF_TURN).contains(&a)
}

// The one equivalent of the corner by a short step.
pub fn short_way(from: i64, corner: i64) -> i64
    requires { (nat_abs from ≤ farthest) × (Outline.longitude_range corner ≡ true) }
    ensures { result ≡ Outline.short_way from corner }
{
    let past = (corner - from + HALF_TURN).rem_euclid(TURN);
    from + (past - HALF_TURN)
}
