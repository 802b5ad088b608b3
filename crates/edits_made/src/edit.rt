// Edit by edit, until one is refused.
ghost use Rattle.edits_made.specs.Editing.{FlagsLent, Edits, AllDone};

use crate::insert::insert_next;
use crate::remove::remove_one;
use rules::{EDIT_WORDS, Refusal};
use tree_build::build::no_tree;
use tree_slots::Quadtree;

// All edits of the words; `at` has the points of the insertions.
pub fn edit_all(
    edits: &[u64],
    at: &[f64],
    there: &mut [u32],
    next: &mut [u32],
    tail: &mut [u32],
    m: &mut [u64],
) -> Result<Quadtree, Refusal>
    requires { Edits edits.now at.now × FlagsLent at.now there.old next.old tail.old }
    ensures { AllDone edits.now at.now m.new next.new result }
{
    let mut q = no_tree();
    let mut made = 0;
    for (k, edit) in edits.chunks_exact(EDIT_WORDS).enumerate() {
        // By number, 0 or 1: nothing else here looks at the kind.
        if edit[0] == 0 {
            q = insert_next(at, there, next, tail, m, q, made, k)?;
            made += 1;
        } else {
            q = remove_one(at, there, next, tail, m, q, made, edit[1], k)?;
        }
    }
    Ok(q)
}
