// The tree call: every check in its order, then the tree is built in the lent slots and listed.
ghost use Rattle.std.specs.Prelude.{◌≡◌, ◌≤◌, length};
ghost use Rattle.rules.specs.Outcome.{result_of};
ghost use Rattle.rules.specs.Refusal.{most_particles};
ghost use Rattle.rules.specs.Calls.{input_check, tree_lengths, tree_result};
ghost use Rattle.tree_call.specs.Tree.{lent, AfterTree, Passed, built, TreeReady};

use crate::answer::{answer, refuse};
use list_checks::{count_check, lengths_check};
use rules::{MOST_PARTICLES, RECORD_SIZE, ROW_NUMBERS, Refusal, SLOT_WORDS, TreeAnswer};
use sheet::{read_pairs, records_check, whole_records};
use tree_build::build::build;

// What is lent, checked in its order: 10, 1 for more than `most` particles, 2 unless there is a row for each slot and a number for each particle, then record by record.
fn input_check(
    most: usize,
    records: &[u8],
    rows: &[u32],
    chains: &[u32],
    work: &[u64],
) -> Result<(), Refusal>
    ensures { result ≡ result_of (input_check most (tree_lengths (lent records.now rows.now chains.now work.now)) records.now) }
{
    whole_records(records)?;
    let n = records.len() / RECORD_SIZE;
    count_check(most, n)?;
    let rows_wanted = work.len() / SLOT_WORDS * ROW_NUMBERS;
    lengths_check(rows.len() == rows_wanted && chains.len() == n)?;
    records_check(records)
}

// The tree is built in the slots and listed.
fn tree_with(
    records: &[u8],
    places: &mut [f64],
    next: &mut [u32],
    tail: &mut [u32],
    rows: &mut [u32],
    chains: &mut [u32],
    work: &mut [u64],
) -> TreeAnswer
    requires { TreeReady (lent records.now rows.old chains.old work.old) (length places.old) (length next.old) (length tail.old) }
    ensures { let l = lent records.now rows.old chains.old work.old in
        AfterTree l (built l) result rows.new chains.new work.new }
{
    read_pairs(records, RECORD_SIZE, 0, places);
    let built = build(places, next, tail, work);
    answer(built, next, rows, chains, work)
}

// The same with memory of its own for places, links and tails.
fn tree_passed(records: &[u8], rows: &mut [u32], chains: &mut [u32], work: &mut [u64]) -> TreeAnswer
    requires { Passed (lent records.now rows.old chains.old work.old) }
    ensures { let l = lent records.now rows.old chains.old work.old in
        AfterTree l (built l) result rows.new chains.new work.new }
{
    let n = records.len() / RECORD_SIZE;
    let pairs = n * 2;
    let mut places = [0.0f64; 2 * MOST_PARTICLES];
    let mut next = [0u32; MOST_PARTICLES];
    let mut tail = [0u32; MOST_PARTICLES];
    tree_with(
        records,
        &mut places[..pairs],
        &mut next[..n],
        &mut tail[..n],
        rows,
        chains,
        work,
    )
}

// Of at most `most` particles.
pub fn tree_within(
    most: usize,
    records: &[u8],
    rows: &mut [u32],
    chains: &mut [u32],
    work: &mut [u64],
) -> TreeAnswer
    requires { most ≤ most_particles }
    ensures { let l = lent records.now rows.old chains.old work.old in
        AfterTree l (tree_result most l) result rows.new chains.new work.new }
{
    match input_check(most, records, rows, chains, work) {
        Err(refusal) => refuse(work, refusal),
        Ok(()) => tree_passed(records, rows, chains, work),
    }
}

pub fn tree(records: &[u8], rows: &mut [u32], chains: &mut [u32], work: &mut [u64]) -> TreeAnswer
    ensures { let l = lent records.now rows.old chains.old work.old in
        AfterTree l (tree_result most_particles l) result rows.new chains.new work.new }
{
    tree_within(MOST_PARTICLES, records, rows, chains, work)
}
