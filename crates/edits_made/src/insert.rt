// The next insertion.
ghost use Rattle.std.specs.Prelude.{List, ℕ, ◌<◌, Float};
ghost use Rattle.rules.specs.Edits.{present, insertion};
ghost use Rattle.rules.specs.Calls.{slots_of};
ghost use Rattle.tree_build.specs.Build.{particles};
ghost use Rattle.edits_made.specs.Editing.{Now, FlagsLent, Changed};

use rules::Refusal;
use tree_build::build::add_next;
use tree_slots::Quadtree;

// Edit k inserts the point whose number is `made`.
pub fn insert_next(
    at: &[f64],
    there: &mut [u32],
    next: &mut [u32],
    tail: &mut [u32],
    m: &mut [u64],
    q: Quadtree,
    made: usize,
    k: usize,
) -> Result<Quadtree, Refusal>
    requires { (is : List ℕ) × Now at.now (present made is) there.old m.old next.old tail.old q
        × FlagsLent at.now there.old next.old tail.old × (made < particles at.now) }
    ensures { (is : List ℕ) (x y : Float) → Now at.now (present made is) there.old m.old next.old tail.old q
        → Changed at.now (slots_of m.old) k (present made is) (insertion x y) there.new m.new next.new tail.new result }
{
    let added = add_next(at, next, tail, m, q, made);
    let more = added.map_err(|reason| Refusal::new(reason, k as u64))?;
    there[made] = 1;
    Ok(more)
}
