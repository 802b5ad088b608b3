// The lent draws, used in order; nothing but the lack of a draw is refused.
ghost use Rattle.std.specs.Prelude.{◌≡◌, ◌≤◌, length};
ghost use Rattle.rules.specs.Flow as Flow;

use crate::gap::Gap;
use rules::{Reason, Refusal};

// The lent draws, and how many of them are used.
#[derive(Drop)]
pub struct Draws<'a> {
    lent: &'a [f64],
    used: usize,
    ghost in_range: { used ≤ length lent.now },
}

impl<'a> Draws<'a> {
    ghost use Rattle.force.specs.Draws.{left, came_to, shaken_to, OnlyDry, Further};

    pub fn new(lent: &'a [f64], used: usize) -> Self
        requires { used ≤ length lent.now }
        ensures lent { result.lent.now ≡ lent.now }
        ensures used { result.used ≡ used }
    {
        Draws { lent, used }
    }

    pub fn used(&self) -> usize
        ensures { result ≡ self.now.used }
    {
        self.used
    }

    // The next draw.
    #[tactic(auto, unfolding(rules::specs::Flow::next))]
    pub fn next(&mut self) -> Result<f64, Refusal>
        ensures is { came_to result (λ x. Flow.drawn x (left self.new)) ≡ Flow.next (left self.old) }
        ensures further { Further self.old self.new }
        ensures dry { OnlyDry result }
    {
        let draw = *self
            .lent
            .get(self.used)
            .ok_or_else(|| Refusal::new(Reason::NoDrawLeft, 0))?;
        self.used += 1;
        Ok(draw)
    }

    // A difference that is zero is replaced by the next draw.
    #[tactic(auto, unfolding(rules::specs::Flow::nonzero))]
    pub fn nonzero(&mut self, x: f64) -> Result<f64, Refusal>
        ensures is { came_to result (λ x. Flow.drawn x (left self.new)) ≡ Flow.nonzero x (left self.old) }
        ensures further { Further self.old self.new }
        ensures dry { OnlyDry result }
    {
        if x == 0.0 {
            return self.next();
        }
        Ok(x)
    }

    // One draw for x == 0, then one for y == 0.
    #[tactic(auto, unfolding(rules::specs::Flow::shaken))]
    pub fn shaken(&mut self, x: f64, y: f64) -> Result<Gap, Refusal>
        ensures is { came_to result (λ g. shaken_to g (left self.new)) ≡ Flow.shaken (Flow.gap x y) (left self.old) }
        ensures further { Further self.old self.new }
        ensures dry { OnlyDry result }
    {
        let x = self.nonzero(x)?;
        let y = self.nonzero(y)?;
        Ok(Gap { x, y })
    }
}
