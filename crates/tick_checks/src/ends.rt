// 3: a link with an end that is not a particle.
ghost use Rattle.std.specs.Prelude.{◌≡◌, map, ◌*◌, ◌≤◌, length};
ghost use Rattle.rules.specs.Plain.{sum};
ghost use Rattle.rules.specs.Outcome.{result_of};
ghost use Rattle.rules.specs.Tick.{links_needed};
ghost use Rattle.tick_checks.specs.Parts.{ends_each};

use crate::entry::links_needed;
use list_checks::ends_check;
use rules::{ForceEntry, Refusal};

// Of n particles. The slots' links lie one after another; a slot that is no link has none.
// Not one loop with that of the ranges: it would take two closures, and clauses on what each may be asked.
pub fn all_ends(entries: &[ForceEntry], links: &[u32], n: usize) -> Result<(), Refusal>
    requires { sum (map links_needed entries.now) * 2 ≤ length links.now }
    ensures { result ≡ result_of (ends_each n entries.now links.now) }
{
    let mut left = links;
    for e in entries {
        let (part, rest) = left.split_at(links_needed(*e) * 2);
        ends_check(part, n)?;
        left = rest;
    }
    Ok(())
}
