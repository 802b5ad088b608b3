// The checks of the lists that a force is lent and of what it leaves.
#![tactic(auto)]

ghost use Rattle.std.specs.Prelude.{◌≡◌, Bool, ℕ, [], ◌∷◌, ◌/◌, length, Float};
ghost use Rattle.std.specs.List.{list_all};
ghost use Rattle.rules.specs.Number.{within, finite};
ghost use Rattle.rules.specs.Outcome.{Check, result_of, require_all, ◌then◌};
ghost use Rattle.rules.specs.Refusal.{strengths_check, distances_check, draws_check, settings_check, result_check, count_check, lengths_check, pairs_check, coordinates_check, velocities_check};
ghost use Rattle.rules.specs.Link.{ends};
ghost use Rattle.rules.specs.Force.{ends_of, ends_range};

use number::{distance_range, draw_range, is_finite, within};
use rules::{Reason, Refusal, require};
use sheet::{place_check, velocity_check};

// The place is the index of the first number that fails the test; where none does, `first` is past them all.
fn range_check<F: Fn(f64) -> bool>(in_range: F, l: &[f64]) -> Result<(), Refusal>
    requires { F.IsAlwaysCallable in_range }
    ensures { (ok : Float → Bool) → ((x : Float) (b : Bool) → F.post in_range x b → b ≡ ok x) → result ≡ result_of (require_all ok 5 l.now) }
{
    let first = l.iter().position(|x| !in_range(*x)).unwrap_or(l.len());
    require(first == l.len(), Reason::OutOfRange, first as u64)
}

pub fn strengths_check(l: &[f64]) -> Result<(), Refusal>
    ensures { result ≡ result_of (strengths_check l.now) }
{
    range_check(|x| within(x), l)
}

// Radii too.
pub fn distances_check(l: &[f64]) -> Result<(), Refusal>
    ensures { result ≡ result_of (distances_check l.now) }
{
    range_check(|x| distance_range(x), l)
}

// Every draw, used or not.
pub fn draws_check(l: &[f64]) -> Result<(), Refusal>
    ensures { result ≡ result_of (draws_check l.now) }
{
    range_check(|x| draw_range(x), l)
}

pub fn setting_check(x: f64) -> Result<(), Refusal>
    ensures { result ≡ result_of (settings_check (x ∷ [])) }
{
    require(within(x), Reason::OutOfRange, 0)
}

// Whether both ends of a link are among n particles.
fn ends_range(n: usize, source: u32, target: u32) -> bool
    ensures { result ≡ ends_range n (ends source target) }
{
    (source as usize) < n && (target as usize) < n
}

// The place is the index of the first link with an end that is not a particle.
pub fn ends_check(links: &[u32], n: usize) -> Result<(), Refusal>
    ensures { result ≡ result_of (require_all (ends_range n) 3 (ends_of links.now)) }
{
    for k in 0..links.len() / 2 {
        let within = ends_range(n, links[k * 2], links[k * 2 + 1]);
        require(within, Reason::NoSuchParticle, k as u64)?;
    }
    Ok(())
}

// The place is the first particle with a pair that is refused.
fn pairs_check<F: Fn(u64, f64, f64) -> Result<(), Refusal>>(
    check: F,
    l: &[f64],
) -> Result<(), Refusal>
    requires { F.IsAlwaysCallable check }
    ensures { (c : ℕ → Float → Float → Check) → ((i : ℕ) (x y : Float) (r : _) → F.post check i x y r → r ≡ result_of (c i x y)) → result ≡ result_of (pairs_check c (length l.now / 2) l.now) }
{
    for i in 0..l.len() / 2 {
        check(i as u64, l[i * 2], l[i * 2 + 1])?;
    }
    Ok(())
}

// All of 4, then all of 5.
pub fn points_check(places: &[f64], speeds: &[f64]) -> Result<(), Refusal>
    ensures { result ≡ result_of (coordinates_check (length places.now / 2) places.now then velocities_check (length speeds.now / 2) speeds.now) }
{
    pairs_check(|i, x, y| place_check(i, x, y), places)?;
    pairs_check(|i, vx, vy| velocity_check(i, vx, vy), speeds)
}

fn all_within(l: &[f64]) -> bool
    ensures { result ≡ list_all within l.now }
{
    l.iter().all(|x| within(*x))
}

fn all_finite(l: &[f64]) -> bool
    ensures { result ≡ list_all finite l.now }
{
    l.iter().all(|x| is_finite(*x))
}

// 9: of what a stage leaves.
#[tactic(auto, using(crate::proofs::Scans::all_listed), unfolding(rules::specs::Refusal::result_check))]
pub fn result_check(places: &[f64], speeds: &[f64]) -> Result<(), Refusal>
    ensures { result ≡ result_of (result_check places.now speeds.now) }
{
    let sound = all_within(places) && all_finite(speeds);
    require(sound, Reason::BadResult, 0)
}

// 1: more than `most`.
pub fn count_check(most: usize, n: usize) -> Result<(), Refusal>
    ensures { result ≡ result_of (count_check most n) }
{
    require(n <= most, Reason::TooMany, 0)
}

// 2: lengths that disagree.
pub fn lengths_check(agree: bool) -> Result<(), Refusal>
    ensures { result ≡ result_of (lengths_check agree) }
{
    require(agree, Reason::LengthsDisagree, 0)
}
