// 1: too many iterations of one force, or too many links.
ghost use Rattle.std.specs.Prelude.{◌≡◌};
ghost use Rattle.rules.specs.Outcome.{result_of, check_each};
ghost use Rattle.rules.specs.Tick.{entry_counts};

use list_checks::count_check;
use rules::{ForceEntry, Kind, MOST_ITERATIONS, MOST_LINKS, Refusal};

// Words that the kind doesn't use may be anything.
fn entry_counts(e: ForceEntry) -> Result<(), Refusal>
    ensures { result ≡ result_of (entry_counts e) }
{
    match Kind::from(e.kind) {
        Kind::Collide => count_check(MOST_ITERATIONS, e.iterations as usize),
        Kind::Link => {
            count_check(MOST_LINKS, e.links as usize)?;
            count_check(MOST_ITERATIONS, e.iterations as usize)
        }
        _ => Ok(()),
    }
}

// The first slot that has too many of either.
pub fn counts_check(entries: &[ForceEntry]) -> Result<(), Refusal>
    ensures { result ≡ result_of (check_each (λ _ e. entry_counts e) entries.now) }
{
    for e in entries {
        entry_counts(*e)?;
    }
    Ok(())
}
