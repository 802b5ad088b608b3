// A removal.
ghost use Rattle.std.specs.Prelude.{List, ℕ, ◌≤◌};
ghost use Rattle.rules.specs.Edits.{present, removal};
ghost use Rattle.rules.specs.Calls.{slots_of};
ghost use Rattle.tree_build.specs.Build.{particles};
ghost use Rattle.edits_made.specs.Editing.{Now, FlagsLent, Changed};

use rules::{Reason, Refusal};
use tree_removing::remove::remove;
use tree_slots::Quadtree;

// Edit k removes the insertion of that number, if it was made and is still there.
pub fn remove_one(
    at: &[f64],
    there: &mut [u32],
    next: &mut [u32],
    tail: &mut [u32],
    m: &mut [u64],
    q: Quadtree,
    made: usize,
    number: u64,
    k: usize,
) -> Result<Quadtree, Refusal>
    requires { (is : List ℕ) × Now at.now (present made is) there.old m.old next.old tail.old q
        × FlagsLent at.now there.old next.old tail.old × (made ≤ particles at.now) }
    ensures { (is : List ℕ) → Now at.now (present made is) there.old m.old next.old tail.old q
        → Changed at.now (slots_of m.old) k (present made is) (removal number) there.new m.new next.new tail.new result }
{
    let i = number as usize;
    if i >= made || there[i] == 0 {
        return Err(Refusal::new(Reason::NotThere, k as u64));
    }
    there[i] = 0;
    Ok(remove(m, at, next, tail, q, i))
}
