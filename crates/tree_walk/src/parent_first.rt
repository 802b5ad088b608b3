// Parent first: the nodes that wait in a walk, the next one on top. Walks one after the other share a `Walk`, so that its array is made once.
ghost use Rattle.std.specs.Prelude.{◌≡◌, [], ◌∷◌, ◌<◌, ◌≤◌, length, MatchOption};
ghost use Rattle.tree_slots.specs.Trees.{InSlots};
ghost use Rattle.tree_walk.specs.Walk.{most_waiting, lay, lay_kids};

use crate::stack::Stack;
use rules::Extent;
use std::marker::Model;
use tree_cells::extent::quarter;
use tree_slots::{Quadtree, store};

// A node that waits: its slot, and its cell.
#[derive(Clone, Copy)]
pub struct Waiting {
    pub slot: usize,
    pub extent: Extent,
}

// Contracts see what waits as a list, the next one first.
#[derive(Drop)]
pub struct Walk {
    waiting: Stack<Waiting, { Quadtree::MOST_WAITING }>,
}

impl Model for Walk {
    ghost use Rattle.std.specs.Prelude.{List};
    ghost use Rattle.tree_walk.specs.Walk.{Waiting};

    ghost Value = { List Waiting };

    ghost view = { λ w. w.waiting };
}

impl Walk {
    // Nothing waits.
    pub fn new() -> Walk
        ensures { result ≡ [] }
    {
        let nowhere = Extent {
            x0: 0.0,
            y0: 0.0,
            x1: 0.0,
            y1: 0.0,
        };
        Walk {
            waiting: Stack::new(Waiting {
                slot: 0,
                extent: nowhere,
            }),
        }
    }

    // The node that a number leads to waits on top, none for 0.
    fn push(&mut self, number: u32, extent: Extent)
        requires { length (lay number extent self.old) ≤ most_waiting }
        ensures { self.new ≡ lay number extent self.old }
    {
        if let Some(slot) = number.checked_sub(1) {
            self.waiting.push(Waiting {
                slot: slot as usize,
                extent,
            });
        }
    }

    // Whatever waited, now a tree's root does, none for 0.
    pub fn begin(&mut self, root: u32, extent: Extent)
        ensures { self.new ≡ lay root extent [] }
    {
        self.waiting.clear();
        self.push(root, extent);
    }

    // The next node, which then no longer waits.
    pub fn pop(&mut self) -> Option<Waiting>
        ensures { MatchOption result ((self.old ≡ []) × (self.new ≡ [])) (λ e. self.old ≡ e ∷ self.new) }
    {
        self.waiting.pop()
    }

    // The children of an internal node wait on top, child 0 before the others.
    #[tactic(auto, using(crate::proofs::Waits::fits))]
    pub fn push_children(&mut self, m: &[u64], node: Waiting)
        requires lent { InSlots node.slot m.now }
        requires room { length (lay_kids m.now node.slot node.extent self.old) ≤ most_waiting }
        ensures { self.new ≡ lay_kids m.now node.slot node.extent self.old }
    {
        let children = store::children(m, node.slot);
        for quadrant in (0..4).rev() {
            self.push(children[quadrant], quarter(quadrant, node.extent));
        }
    }
}
