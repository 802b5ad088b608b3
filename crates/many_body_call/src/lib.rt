// ManyBody called alone, on plain lists.
#![tactic(auto)]

ghost use Rattle.std.specs.Prelude.{◌≡◌, ◌&&◌, [], ◌*◌, ◌/◌, ◌≤◌, length};
ghost use Rattle.rules.specs.Outcome.{fine, result_of};
ghost use Rattle.rules.specs.Force.{many_body, push_lengths};
ghost use Rattle.rules.specs.Calls.{no_ends, input_lengths, many_body_result, lent_check, numbers_check};
ghost use Rattle.rules.specs.Refusal.{most_particles};
ghost use Rattle.force_call.specs.Calls.{lent, Moved, AfterForce};

use force_call::{input_lengths, refused, run_alone};
use list_checks::{
    count_check, draws_check, lengths_check, points_check, setting_check, strengths_check,
};
use many_body::many_body::many_body;
use many_body::standard;
use rules::{Counts, MOST_PARTICLES, Progress, Refusal};

// Whole pairs of places, velocities within the buffer, and a strength for each particle.
fn lengths_agree(places: &[f64], buffer: &[u8], start: usize, strengths: &[f64]) -> bool
    ensures { result ≡ input_lengths (lent places.now buffer.now start [] []) && no_ends
        && push_lengths (length places.now / 2) (many_body strengths.now) }
{
    input_lengths(places, buffer, start) && strengths.len() == places.len() / 2
}

// 1 and 2.
fn lent_check(places: &[f64], buffer: &[u8], start: usize, strengths: &[f64]) -> Result<(), Refusal>
    ensures { result ≡ result_of (lent_check (lent places.now buffer.now start [] []) (many_body strengths.now) no_ends) }
{
    count_check(MOST_PARTICLES, places.len() / 2)?;
    lengths_check(lengths_agree(places, buffer, start, strengths))
}

// 4 and 5.
fn numbers_check(
    places: &[f64],
    speeds: &[f64],
    strengths: &[f64],
    draws: &[f64],
    alpha: f64,
) -> Result<(), Refusal>
    requires { length speeds.now ≡ length places.now }
    ensures { result ≡ result_of (numbers_check places.now speeds.now (many_body strengths.now) draws.now alpha) }
{
    points_check(places, speeds)?;
    strengths_check(strengths)?;
    draws_check(draws)?;
    setting_check(alpha)
}

// 4 and 5, and then ManyBody moves the velocities. 1 and 2 are past.
fn moved(
    places: &[f64],
    speeds: &mut [f64],
    strengths: &[f64],
    alpha: f64,
    draws: &[f64],
    next: &mut [u32],
    tail: &mut [u32],
    work: &mut [u64],
) -> Result<Result<Progress, Refusal>, Refusal>
    requires lent { (length places.now ≡ length strengths.now * 2) × (length strengths.now ≤ most_particles) }
    requires lists { (length speeds.old ≡ length places.now) × (length next.old ≡ length strengths.now) × (length tail.old ≡ length strengths.now) }
    ensures { Moved (many_body strengths.now) places.now draws.now alpha speeds.old work.old result speeds.new work.new }
{
    numbers_check(places, speeds, strengths, draws, alpha)?;
    Ok(many_body(
        standard(),
        places,
        speeds,
        strengths,
        draws,
        Progress::begin(alpha),
        next,
        tail,
        work,
    ))
}

// With lists of its own for the tree. 1 and 2 are past.
fn with_lists(
    places: &[f64],
    buffer: &mut [u8],
    start: usize,
    strengths: &[f64],
    alpha: f64,
    draws: &[f64],
    work: &mut [u64],
) -> Counts
    requires { lent_check (lent places.now buffer.old start [] []) (many_body strengths.now) no_ends ≡ fine }
    ensures { let l = lent places.now buffer.old start draws.now work.old in
        AfterForce l (many_body_result l strengths.now alpha) result buffer.new work.new }
{
    let n = strengths.len();
    let mut next = [0u32; MOST_PARTICLES];
    let mut tail = [0u32; MOST_PARTICLES];
    let next = &mut next[..n];
    let tail = &mut tail[..n];
    run_alone(places, buffer, start, work, |speeds, work| {
        moved(places, speeds, strengths, alpha, draws, next, tail, work)
    })
}

// Any lists and numbers may come in. The velocities are the pairs from `start` on.
pub fn many_body_call(
    places: &[f64],
    buffer: &mut [u8],
    start: usize,
    strengths: &[f64],
    alpha: f64,
    draws: &[f64],
    work: &mut [u64],
) -> Counts
    ensures { let l = lent places.now buffer.old start draws.now work.old in
        AfterForce l (many_body_result l strengths.now alpha) result buffer.new work.new }
{
    match lent_check(places, buffer, start, strengths) {
        Err(refusal) => refused(refusal),
        Ok(()) => with_lists(places, buffer, start, strengths, alpha, draws, work),
    }
}
