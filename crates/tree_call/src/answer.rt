// What a call that builds a tree answers, and what it leaves of the lent lists.
ghost use Rattle.std.specs.Prelude.{◌≡◌, length};
ghost use Rattle.rules.specs.declared.Extent.{Extent};
ghost use Rattle.rules.specs.Outcome.{Outcome, on_the_way};
ghost use Rattle.rules.specs.Tree.{Tree};
ghost use Rattle.tree_call.specs.Tree.{refused_tree, refused_work, Comes, Answers};

use rules::{Extent, Refusal, TreeAnswer};
use tree_rows::list;
use tree_slots::Quadtree;
use tree_slots::store::clear;

// Whether a refusal is met on the way, so that the work slots are cleared. It is told by its number, which is all that a refusal says.
fn on_the_way(refusal: Refusal) -> bool
    ensures { result ≡ on_the_way refusal }
{
    matches!(refusal.number, 6..=9 | 15)
}

// Counts zero and no extent; refusals that aren't met on the way leave the work slots as they were.
pub fn refuse(work: &mut [u64], refusal: Refusal) -> TreeAnswer
    ensures { (result ≡ refused_tree refusal) × (work.new ≡ refused_work refusal work.old) }
{
    if on_the_way(refusal) {
        clear(work);
    }
    TreeAnswer {
        refusal,
        nodes: 0,
        extent: Extent {
            x0: 0.0,
            y0: 0.0,
            x1: 0.0,
            y1: 0.0,
        },
    }
}

// A tree that was built is listed, and the slots are cleared.
pub fn answer(
    built: Result<Quadtree, Refusal>,
    next: &[u32],
    rows: &mut [u32],
    chains: &mut [u32],
    work: &mut [u64],
) -> TreeAnswer
    requires { (o : Outcome (Tree Extent)) × Comes o built work.old next.now (length rows.old) (length chains.old) }
    ensures { (o : Outcome (Tree Extent)) → Comes o built work.old next.now (length rows.old) (length chains.old)
        → Answers o built result rows.old chains.old work.old rows.new chains.new work.new }
{
    match built {
        Err(refusal) => refuse(work, refusal),
        Ok(q) => {
            list(q, work, next, rows, chains);
            clear(work);
            TreeAnswer {
                refusal: Refusal::none(),
                nodes: q.nodes as u64,
                extent: q.extent,
            }
        }
    }
}
