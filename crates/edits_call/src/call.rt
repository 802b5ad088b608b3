// The call, with memory of its own for points, flags, links and tails.
ghost use Rattle.std.specs.Prelude.{◌≡◌, ◌≤◌, length};
ghost use Rattle.rules.specs.Outcome.{fine};
ghost use Rattle.rules.specs.Refusal.{most_edits};
ghost use Rattle.rules.specs.Edits.{edits_of, insertions, edit_input_check};
ghost use Rattle.edits_call.specs.Call.{lent, AfterEdits, EditsReady};

use crate::check::input_check;
use edits_made::edit::edit_all;
use edits_words::{insertions, read_points};
use rules::{MOST_EDITS, TreeAnswer};
use tree_call::answer::{answer, refuse};

// Every edit is made in the slots, and what is then there is listed.
fn edits_with(
    edits: &[u64],
    places: &mut [f64],
    there: &mut [u32],
    next: &mut [u32],
    tail: &mut [u32],
    rows: &mut [u32],
    chains: &mut [u32],
    work: &mut [u64],
) -> TreeAnswer
    requires { EditsReady (lent edits.now rows.old chains.old work.old) (length places.old) (length there.old) (length next.old) (length tail.old) }
    ensures { AfterEdits (lent edits.now rows.old chains.old work.old) result rows.new chains.new work.new }
{
    read_points(edits, places);
    let built = edit_all(edits, places, there, next, tail, work);
    answer(built, next, rows, chains, work)
}

// Edits that passed every check.
fn edits_passed(edits: &[u64], rows: &mut [u32], chains: &mut [u32], work: &mut [u64]) -> TreeAnswer
    requires passed { edit_input_check (lent edits.now rows.old chains.old work.old) ≡ fine }
    requires few { insertions (edits_of edits.now) ≤ most_edits }
    ensures { AfterEdits (lent edits.now rows.old chains.old work.old) result rows.new chains.new work.new }
{
    let made = insertions(edits);
    let pairs = made * 2;
    let mut places = [0.0f64; 2 * MOST_EDITS];
    let mut there = [0u32; MOST_EDITS];
    let mut next = [0u32; MOST_EDITS];
    let mut tail = [0u32; MOST_EDITS];
    edits_with(
        edits,
        &mut places[..pairs],
        &mut there[..made],
        &mut next[..made],
        &mut tail[..made],
        rows,
        chains,
        work,
    )
}

pub fn edits(edits: &[u64], rows: &mut [u32], chains: &mut [u32], work: &mut [u64]) -> TreeAnswer
    ensures { AfterEdits (lent edits.now rows.old chains.old work.old) result rows.new chains.new work.new }
{
    match input_check(edits, rows, chains, work) {
        Err(refusal) => refuse(work, refusal),
        Ok(()) => edits_passed(edits, rows, chains, work),
    }
}
