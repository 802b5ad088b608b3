// Collide called alone, on plain lists.
#![tactic(auto)]

ghost use Rattle.std.specs.Prelude.{◌≡◌, ◌&&◌, [], ◌*◌, ◌/◌, ◌≤◌, length};
ghost use Rattle.rules.specs.Number.{0·};
ghost use Rattle.rules.specs.Outcome.{fine, result_of};
ghost use Rattle.rules.specs.Force as Force;
ghost use Rattle.rules.specs.Force.{push_lengths};
ghost use Rattle.rules.specs.Calls.{no_ends, no_alpha, input_lengths, collide_result, lent_check, numbers_check};
ghost use Rattle.rules.specs.Refusal.{most_particles, most_iterations};
ghost use Rattle.force_call.specs.Calls.{lent, Moved, AfterForce};

use collide::collide::collide;
use force_call::{input_lengths, refused, run_alone};
use list_checks::{
    count_check, distances_check, draws_check, lengths_check, points_check, setting_check,
};
use rules::{Counts, MOST_ITERATIONS, MOST_PARTICLES, Progress, Refusal};

// Whole pairs of places, velocities within the buffer, and a radius for each particle.
fn lengths_agree(places: &[f64], buffer: &[u8], start: usize, radii: &[f64]) -> bool
    ensures { result ≡ input_lengths (lent places.now buffer.now start [] []) && no_ends
        && push_lengths (length places.now / 2) (Force.collide radii.now 0· 0) }
{
    input_lengths(places, buffer, start) && radii.len() == places.len() / 2
}

// 1 and 2: Collide has no links.
fn lent_check(
    places: &[f64],
    buffer: &[u8],
    start: usize,
    radii: &[f64],
    iterations: usize,
) -> Result<(), Refusal>
    ensures { result ≡ result_of (lent_check (lent places.now buffer.now start [] []) (Force.collide radii.now 0· iterations) no_ends) }
{
    count_check(MOST_PARTICLES, places.len() / 2)?;
    count_check(MOST_ITERATIONS, iterations)?;
    lengths_check(lengths_agree(places, buffer, start, radii))
}

// 4 and 5: Collide takes no alpha.
fn numbers_check(
    places: &[f64],
    speeds: &[f64],
    radii: &[f64],
    strength: f64,
    draws: &[f64],
) -> Result<(), Refusal>
    requires { length speeds.now ≡ length places.now }
    ensures { result ≡ result_of (numbers_check places.now speeds.now (Force.collide radii.now strength 0) draws.now no_alpha) }
{
    points_check(places, speeds)?;
    distances_check(radii)?;
    setting_check(strength)?;
    draws_check(draws)
}

// 4 and 5, and then Collide moves the velocities. 1 and 2 are past.
fn moved(
    places: &[f64],
    speeds: &mut [f64],
    radii: &[f64],
    strength: f64,
    iterations: usize,
    draws: &[f64],
    next: &mut [u32],
    tail: &mut [u32],
    work: &mut [u64],
) -> Result<Result<Progress, Refusal>, Refusal>
    requires lent { (length places.now ≡ length radii.now * 2) × (length radii.now ≤ most_particles) × (iterations ≤ most_iterations) }
    requires lists { (length speeds.old ≡ length places.now) × (length next.old ≡ length radii.now) × (length tail.old ≡ length radii.now) }
    ensures { Moved (Force.collide radii.now strength iterations) places.now draws.now no_alpha speeds.old work.old result speeds.new work.new }
{
    numbers_check(places, speeds, radii, strength, draws)?;
    // No alpha is looked at.
    let p = Progress::begin(0.0);
    Ok(collide(
        places, speeds, radii, strength, iterations, draws, p, next, tail, work,
    ))
}

// With lists of its own for the tree. 1 and 2 are past.
fn with_lists(
    places: &[f64],
    buffer: &mut [u8],
    start: usize,
    radii: &[f64],
    strength: f64,
    iterations: usize,
    draws: &[f64],
    work: &mut [u64],
) -> Counts
    requires { lent_check (lent places.now buffer.old start [] []) (Force.collide radii.now strength iterations) no_ends ≡ fine }
    ensures { let l = lent places.now buffer.old start draws.now work.old in
        AfterForce l (collide_result l radii.now strength iterations) result buffer.new work.new }
{
    let n = radii.len();
    let mut next = [0u32; MOST_PARTICLES];
    let mut tail = [0u32; MOST_PARTICLES];
    let next = &mut next[..n];
    let tail = &mut tail[..n];
    run_alone(places, buffer, start, work, |speeds, work| {
        moved(
            places, speeds, radii, strength, iterations, draws, next, tail, work,
        )
    })
}

// Any lists and numbers may come in. The velocities are the pairs from `start` on.
pub fn collide_call(
    places: &[f64],
    buffer: &mut [u8],
    start: usize,
    radii: &[f64],
    strength: f64,
    iterations: usize,
    draws: &[f64],
    work: &mut [u64],
) -> Counts
    ensures { let l = lent places.now buffer.old start draws.now work.old in
        AfterForce l (collide_result l radii.now strength iterations) result buffer.new work.new }
{
    match lent_check(places, buffer, start, radii, iterations) {
        Err(refusal) => refused(refusal),
        Ok(()) => with_lists(
            places, buffer, start, radii, strength, iterations, draws, work,
        ),
    }
}
