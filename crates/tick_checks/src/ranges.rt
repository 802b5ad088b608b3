// 5, of the force slots: their numbers, then their settings.
ghost use Rattle.std.specs.Prelude.{◌≡◌, [], ◌∷◌, map, ◌≤◌, length, take, drop};
ghost use Rattle.rules.specs.Plain.{sum};
ghost use Rattle.rules.specs.Outcome.{result_of, ◌then◌};
ghost use Rattle.rules.specs.Refusal.{strengths_check, distances_check, settings_check};
ghost use Rattle.rules.specs.Tick.{numbers_needed};
ghost use Rattle.tick_checks.specs.Parts.{own_ranges, ranges_each};

use crate::entry::numbers_needed;
use list_checks::{distances_check, setting_check, strengths_check};
use rules::{ForceEntry, Kind, Reason, Refusal};

// Three settings in a row.
pub fn settings_check(a: f64, b: f64, c: f64) -> Result<(), Refusal>
    ensures { result ≡ result_of (settings_check (a ∷ b ∷ c ∷ [])) }
{
    setting_check(a)?;
    setting_check(b)?;
    setting_check(c)
}

// A link's strengths, of which there are so many, then its distances.
fn link_ranges(part: &[f64], strengths: usize) -> Result<(), Refusal>
    requires { strengths ≤ length part.now }
    ensures { result ≡ result_of (strengths_check (take strengths part.now) then distances_check (drop strengths part.now)) }
{
    let (strengths, distances) = part.split_at(strengths);
    strengths_check(strengths)?;
    distances_check(distances)
}

// Of one slot, from its own part of the numbers.
#[tactic(auto, unfolding(crate::specs::Parts::kind_ranges))]
fn entry_ranges(e: ForceEntry, part: &[f64]) -> Result<(), Refusal>
    requires { e.kind ≡ 3 → e.strengths ≤ length part.now }
    ensures { result ≡ result_of (own_ranges e part.now) }
{
    match Kind::from(e.kind) {
        Kind::Empty => Ok(()),
        Kind::ManyBody => strengths_check(part),
        Kind::Collide => {
            distances_check(part)?;
            setting_check(e.a)
        }
        Kind::Link => link_ranges(part, e.strengths as usize),
        Kind::Center => settings_check(e.a, e.b, e.c),
        Kind::Unknown => Err(Refusal::new(Reason::OutOfRange, 0)),
    }
}

// The slots' numbers lie one after another.
pub fn all_ranges(entries: &[ForceEntry], numbers: &[f64], n: usize) -> Result<(), Refusal>
    requires { sum (map (numbers_needed n) entries.now) ≤ length numbers.now }
    ensures { result ≡ result_of (ranges_each n entries.now numbers.now) }
{
    let mut left = numbers;
    for e in entries {
        let (part, rest) = left.split_at(numbers_needed(n, *e));
        entry_ranges(*e, part)?;
        left = rest;
    }
    Ok(())
}
