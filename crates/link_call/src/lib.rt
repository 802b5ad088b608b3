// Link called alone, on plain lists.
#![tactic(auto)]

ghost use Rattle.std.specs.Prelude.{◌≡◌, ◌&&◌, List, ℕ, [], ◌*◌, ◌/◌, ◌%◌, ◌≤◌, eqb, length};
ghost use Rattle.rules.specs.Outcome.{fine, result_of};
ghost use Rattle.rules.specs.Force as Force;
ghost use Rattle.rules.specs.Force.{ends_of, push_lengths};
ghost use Rattle.rules.specs.Calls.{input_lengths, link_result, lent_check, numbers_check};
ghost use Rattle.rules.specs.Refusal.{most_particles};
ghost use Rattle.link.specs.Links.{EndsLent, NumbersLent};
ghost use Rattle.force_call.specs.Calls.{lent, Moved, AfterForce};

use force_call::{input_lengths, refused, run_alone};
use link::link::link;
use list_checks::{
    count_check, distances_check, draws_check, ends_check, lengths_check, points_check,
    setting_check, strengths_check,
};
use rules::{Counts, MOST_ITERATIONS, MOST_LINKS, MOST_PARTICLES, Progress, Refusal};

// A strength for each of n links, or none.
fn strengths_agree(n: usize, strengths: &[f64]) -> bool
    ensures { result ≡ Force.strengths_agree n (length strengths.now) }
{
    strengths.is_empty() || strengths.len() == n
}

// Whole pairs of places and of ends, velocities within the buffer, a distance for each link, and a strength for each or none.
#[tactic(auto, using(crate::proofs::LinkCalled::ends_counted))]
fn lengths_agree(
    places: &[f64],
    buffer: &[u8],
    start: usize,
    links: &[u32],
    strengths: &[f64],
    distances: &[f64],
) -> bool
    ensures { result ≡ input_lengths (lent places.now buffer.now start [] []) && eqb (length links.now % 2) 0
        && push_lengths (length places.now / 2) (Force.link (ends_of links.now) strengths.now distances.now 0) }
{
    let n = links.len() / 2;
    input_lengths(places, buffer, start)
        && links.len() % 2 == 0
        && distances.len() == n
        && strengths_agree(n, strengths)
}

// 1, 2 and 3.
#[tactic(auto, using(crate::proofs::LinkCalled::ends_counted))]
fn lent_check(
    places: &[f64],
    buffer: &[u8],
    start: usize,
    links: &[u32],
    strengths: &[f64],
    distances: &[f64],
    iterations: usize,
) -> Result<(), Refusal>
    ensures { result ≡ result_of (lent_check (lent places.now buffer.now start [] [])
        (Force.link (ends_of links.now) strengths.now distances.now iterations) (eqb (length links.now % 2) 0)) }
{
    let n = places.len() / 2;
    count_check(MOST_PARTICLES, n)?;
    count_check(MOST_LINKS, links.len() / 2)?;
    count_check(MOST_ITERATIONS, iterations)?;
    lengths_check(lengths_agree(places, buffer, start, links, strengths, distances))?;
    ends_check(links, n)
}

// 4 and 5.
fn numbers_check(
    places: &[f64],
    speeds: &[f64],
    strengths: &[f64],
    distances: &[f64],
    draws: &[f64],
    alpha: f64,
) -> Result<(), Refusal>
    requires { length speeds.now ≡ length places.now }
    ensures { result ≡ result_of (numbers_check places.now speeds.now
        (Force.link [] strengths.now distances.now 0) draws.now alpha) }
{
    points_check(places, speeds)?;
    strengths_check(strengths)?;
    distances_check(distances)?;
    draws_check(draws)?;
    setting_check(alpha)
}

// 4 and 5, and then Link moves the velocities; it looks at no work slot. 1, 2 and 3 are past.
fn moved(
    places: &[f64],
    speeds: &mut [f64],
    links: &[u32],
    strengths: &[f64],
    distances: &[f64],
    iterations: usize,
    alpha: f64,
    draws: &[f64],
) -> Result<Result<Progress, Refusal>, Refusal>
    requires lent { EndsLent (length places.now / 2) links.now × NumbersLent links.now strengths.now distances.now }
    requires lists { (length places.now % 2 ≡ 0) × (length places.now ≤ 2 * most_particles) × (length speeds.old ≡ length places.now) }
    ensures { (work : List ℕ) → Moved (Force.link (ends_of links.now) strengths.now distances.now iterations) places.now draws.now alpha speeds.old work result speeds.new work }
{
    numbers_check(places, speeds, strengths, distances, draws, alpha)?;
    Ok(link(
        places,
        speeds,
        links,
        strengths,
        distances,
        iterations,
        draws,
        Progress::begin(alpha),
    ))
}

// What the calls share runs it. 1, 2 and 3 are past.
fn passed(
    places: &[f64],
    buffer: &mut [u8],
    start: usize,
    links: &[u32],
    strengths: &[f64],
    distances: &[f64],
    iterations: usize,
    alpha: f64,
    draws: &[f64],
    work: &mut [u64],
) -> Counts
    requires { lent_check (lent places.now buffer.old start [] []) (Force.link (ends_of links.now) strengths.now distances.now iterations) (eqb (length links.now % 2) 0) ≡ fine }
    ensures { let l = lent places.now buffer.old start draws.now work.old in
        AfterForce l (link_result l links.now strengths.now distances.now iterations alpha) result buffer.new work.new }
{
    run_alone(places, buffer, start, work, |speeds, _work| {
        moved(
            places, speeds, links, strengths, distances, iterations, alpha, draws,
        )
    })
}

// Any lists and numbers may come in. The velocities are the pairs from `start` on.
pub fn link_call(
    places: &[f64],
    buffer: &mut [u8],
    start: usize,
    links: &[u32],
    strengths: &[f64],
    distances: &[f64],
    iterations: usize,
    alpha: f64,
    draws: &[f64],
    work: &mut [u64],
) -> Counts
    ensures { let l = lent places.now buffer.old start draws.now work.old in
        AfterForce l (link_result l links.now strengths.now distances.now iterations alpha) result buffer.new work.new }
{
    match lent_check(
        places, buffer, start, links, strengths, distances, iterations,
    ) {
        Err(refusal) => refused(refusal),
        Ok(()) => passed(
            places, buffer, start, links, strengths, distances, iterations, alpha, draws, work,
        ),
    }
}
