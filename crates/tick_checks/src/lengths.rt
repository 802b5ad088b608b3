// 2: lists that are not as long as the force slots' entries need them.
ghost use Rattle.std.specs.Prelude.{◌≡◌, ◌&&◌, map, ◌*◌, ◌≤◌, ◌<◌, ◌^◌, eqb};
ghost use Rattle.rules.specs.Plain.{all, sum};
ghost use Rattle.rules.specs.Outcome.{fine, check_each};
ghost use Rattle.rules.specs.Refusal.{most_particles};
ghost use Rattle.rules.specs.Tick.{entry_counts, strengths_right, numbers_needed, links_needed, entry_lengths};

use crate::entry::{links_needed, numbers_needed};
use rules::{FORCE_SLOTS, ForceEntry, Kind};

// A link's strengths are none or one for each link.
fn strengths_right(e: ForceEntry) -> bool
    ensures { result ≡ strengths_right e }
{
    match Kind::from(e.kind) {
        Kind::Link => e.strengths == 0 || e.strengths == e.links,
        _ => true,
    }
}

fn all_right(entries: &[ForceEntry]) -> bool
    ensures { result ≡ all strengths_right entries.now }
{
    entries.iter().all(|e| strengths_right(*e))
}

// How many numbers all slots need, of n particles.
fn all_numbers(entries: &[ForceEntry], n: usize) -> usize
    requires { sum (map (numbers_needed n) entries.now) < 2 ^ 64 }
    ensures { result ≡ sum (map (numbers_needed n) entries.now) }
{
    entries.iter().map(|e| numbers_needed(n, *e)).sum()
}

fn all_links(entries: &[ForceEntry]) -> usize
    requires { sum (map links_needed entries.now) < 2 ^ 64 }
    ensures { result ≡ sum (map links_needed entries.now) }
{
    entries.iter().map(|e| links_needed(*e)).sum()
}

// Of lists with so many numbers and so many link ends. No sum is made before the counts and the strengths are known to be small.
pub fn lengths_agree(
    entries: &[ForceEntry; FORCE_SLOTS],
    n: usize,
    numbers: usize,
    links: usize,
) -> bool
    requires { (n ≤ most_particles) × (check_each (λ _ e. entry_counts e) entries.now ≡ fine) }
    ensures { result ≡ entry_lengths n entries.now numbers links }
{
    all_right(entries) && numbers == all_numbers(entries, n) && links == all_links(entries) * 2
}
