// A force slot's entry, read from its seven words, and how much of the lists behind the slots it needs.
ghost use Rattle.std.specs.Prelude.{◌≡◌, ◌*◌, ◌<◌, ◌^◌};
ghost use Rattle.rules.specs.Tick.{entry_words, force_slots, entry_at, entries_of, numbers_needed, links_needed};

use number::float_of;
use rules::{ENTRY_WORDS, FORCE_SLOTS, FORCE_WORDS, ForceEntry, Kind};
use std::array;

// The entry of slot number i.
#[tactic(auto, unfolding(rules::specs::Tick::entry_at))]
pub fn entry_at(words: &[u64; FORCE_WORDS], i: usize) -> ForceEntry
    requires { i < force_slots }
    ensures { result ≡ entry_at words.now (i * entry_words) }
{
    let at = i * ENTRY_WORDS;
    ForceEntry {
        kind: words[at],
        iterations: words[at + 1],
        links: words[at + 2],
        strengths: words[at + 3],
        a: float_of(words[at + 4]),
        b: float_of(words[at + 5]),
        c: float_of(words[at + 6]),
    }
}

// The entries of all slots, in ascending number.
pub fn entries(words: &[u64; FORCE_WORDS]) -> [ForceEntry; FORCE_SLOTS]
    ensures { result ≡ entries_of words.now }
{
    array::from_fn(|i| entry_at(words, i))
}

// A strength or a radius for each of n particles; for a link its strengths and distances.
pub fn numbers_needed(n: usize, e: ForceEntry) -> usize
    requires { numbers_needed n e < 2 ^ 64 }
    ensures { result ≡ numbers_needed n e }
{
    match Kind::from(e.kind) {
        Kind::ManyBody | Kind::Collide => n,
        Kind::Link => (e.strengths + e.links) as usize,
        _ => 0,
    }
}

pub fn links_needed(e: ForceEntry) -> usize
    ensures { result ≡ links_needed e }
{
    match Kind::from(e.kind) {
        Kind::Link => e.links as usize,
        _ => 0,
    }
}
