// Parent last: the path from the root to the next node, each node of it beside the quadrant that is next there. Leaving an opened parent on a stack would take 257 places.
ghost use Rattle.std.specs.Prelude.{◌≡◌, [], ◌∷◌, ◌≤◌, ◌<◌, length, MatchOption};
ghost use Rattle.tree_walk.specs.WalkAfter.{standing, most_steps, rooted};
ghost use Rattle.tree_walk.specs.Path.{Climbing, Climbed, HandsOut};

use crate::stack::Stack;
use std::marker::Model;
use tree_slots::{Quadtree, store};

// A slot of the path, and the quadrant that is next there: 4 when all are done.
#[derive(Clone, Copy)]
pub struct Step {
    pub slot: usize,
    pub quadrant: usize,
}

// One step for each level at the most.
const MOST_STEPS: usize = Quadtree::GREATEST_LEVEL + 1;

// Contracts see the steps as a list, the lowest first.
#[derive(Drop)]
pub struct Path {
    steps: Stack<Step, MOST_STEPS>,
}

impl Model for Path {
    ghost use Rattle.std.specs.Prelude.{List};
    ghost use Rattle.tree_walk.specs.declared.parent_last.Step.{Step};

    ghost Value = { List Step };

    ghost view = { λ p. p.steps };
}

impl Path {
    // The root, where there is one.
    pub fn begin(root: u32) -> Path
        ensures { result ≡ rooted root }
    {
        let mut steps = Stack::new(Step {
            slot: 0,
            quadrant: 0,
        });
        if let Some(slot) = root.checked_sub(1) {
            steps.push(Step {
                slot: slot as usize,
                quadrant: 0,
            });
        }
        Path { steps }
    }

    // The next node, all of whose children are handed out: the way goes down to a child as long as there is one that is not.
    pub fn next(&mut self, m: &[u64]) -> Option<usize>
        requires { Climbing m.now self.old }
        ensures { MatchOption result (Climbed m.now self.old) (λ s. HandsOut m.now self.old self.new s) }
    {
        while let Some(step) = self.steps.pop() {
            if store::tag(m, step.slot) != 0 || step.quadrant == 4 {
                return Some(step.slot);
            }
            let child = store::children(m, step.slot)[step.quadrant];
            self.steps.push(Step {
                quadrant: step.quadrant + 1,
                ..step
            });
            if let Some(slot) = child.checked_sub(1) {
                self.steps.push(Step {
                    slot: slot as usize,
                    quadrant: 0,
                });
            }
        }
        None
    }
}
