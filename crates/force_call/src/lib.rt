// What the calls of all forces share: the lengths of what is lent, and how a force is run by itself and answered.
#![tactic(auto)]

ghost use Rattle.std.specs.Prelude.{◌≡◌, Ok, List, ℕ, Bool, Float, [], ◌+◌, ◌*◌, ◌/◌, ◌%◌, ◌≤◌, length};
ghost use Rattle.std.specs.Borrow.{Bor, MutBor};
ghost use Rattle.rules.specs.Outcome.{fine};
ghost use Rattle.rules.specs.Refusal.{most_particles};
ghost use Rattle.rules.specs.Sheet.{pair_size};
ghost use Rattle.rules.specs.Force.{Push};
ghost use Rattle.rules.specs.Calls.{input_lengths, lent_check, force_result};
ghost use Rattle.force_call.specs.Calls.{lent, no_counts, counts_of, stands_as, Settled, Moved, AfterForce};

use list_checks::result_check;
use rules::{Counts, MOST_PARTICLES, PAIR_SIZE, Progress, Refusal};

// Whole pairs of places, and a pair of velocities for each within the buffer. The sum start + n * PAIR_SIZE is never made, as it might wrap.
pub fn input_lengths(places: &[f64], buffer: &[u8], start: usize) -> bool
    ensures { result ≡ input_lengths (lent places.now buffer.now start [] []) }
{
    let n = places.len() / 2;
    let size = n * PAIR_SIZE;
    places.len() == n * 2 && size <= buffer.len() && start <= buffer.len() - size
}

// A refusal's answer: all counts zero.
pub fn refused(refusal: Refusal) -> Counts
    ensures { result ≡ no_counts refusal }
{
    Counts {
        refusal,
        visits: 0,
        draws: 0,
    }
}

// What was counted up to p, nothing being refused.
pub fn counted(p: Progress) -> Counts
    ensures { result ≡ counts_of (Ok p) }
{
    Counts {
        refusal: Refusal::none(),
        visits: p.visits,
        draws: p.used as u64,
    }
}

// 9 is tested of what a force came to.
fn stands(
    places: &[f64],
    speeds: &[f64],
    ran: Result<Progress, Refusal>,
) -> Result<Progress, Refusal>
    ensures { result ≡ stands_as places.now speeds.now ran }
{
    let p = ran?;
    result_check(places, speeds)?;
    Ok(p)
}

// Tests 9, and writes the velocities over the buffer where nothing is refused. The work slots are zero in any case.
fn settle(
    places: &[f64],
    buffer: &mut [u8],
    start: usize,
    speeds: &[f64],
    ran: Result<Progress, Refusal>,
    work: &mut [u64],
) -> Counts
    requires { (length speeds.now % 2 ≡ 0) × (start + length speeds.now / 2 * pair_size ≤ length buffer.old) }
    ensures { Settled (stands_as places.now speeds.now ran) speeds.now start buffer.old work.old result buffer.new work.new }
{
    tree_slots::store::clear(work);
    match stands(places, speeds, ran) {
        Err(refusal) => refused(refusal),
        Ok(p) => {
            sheet::write_pairs(buffer, PAIR_SIZE, start, speeds);
            counted(p)
        }
    }
}

// A force run by itself, once 1, 2 and 3 are past: the velocities are the pairs from `start` on, and `run` looks at the numbers and moves the velocities.
pub fn run_alone<F: FnOnce(&mut [f64], &mut [u64]) -> Result<Result<Progress, Refusal>, Refusal>>(
    places: &[f64],
    buffer: &mut [u8],
    start: usize,
    work: &mut [u64],
    run: F,
) -> Counts
    requires lent { (length places.now ≤ 2 * most_particles) × (length places.now % 2 ≡ 0) × (start + length places.now / 2 * pair_size ≤ length buffer.old) }
    requires runs { (vs : MutBor (List Float)) (m : MutBor (List ℕ)) → length vs.now ≡ length places.now → F.pre run vs m }
    ensures { (f : Push) (w : Bool) (alpha : Float) (draws : List Float) → let l = lent places.now buffer.old start draws work.old in
        lent_check l f w ≡ fine
        → ((vs : MutBor (List Float)) (m : MutBor (List ℕ)) (r : _) (vs' : MutBor (List Float)) (m' : MutBor (List ℕ)) → F.post run vs m r vs' m'
        → Moved f places.now draws alpha vs.now m.now r vs'.now m'.now)
        → AfterForce l (force_result l f w alpha) result buffer.new work.new }
{
    let mut list = [0.0f64; 2 * MOST_PARTICLES];
    let speeds = &mut list[..places.len()];
    sheet::read_pairs(buffer, PAIR_SIZE, start, speeds);
    match run(speeds, work) {
        Err(refusal) => refused(refusal),
        Ok(ran) => settle(places, buffer, start, speeds, ran, work),
    }
}
