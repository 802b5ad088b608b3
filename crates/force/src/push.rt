// A particle's velocity changed on both axes, velocities in pairs.
ghost use Rattle.std.specs.Prelude.{◌≡◌, ◌+◌, ◌*◌, ◌<◌, length};
ghost use Rattle.rules.specs.Number.{◌⊕◌, ◌⊖◌};
ghost use Rattle.rules.specs.Flow.{pushed};

// Its twin subtracts: one function for both would take a closure, and be longer than the two.
#[tactic(auto, unfolding(rules::specs::Flow::pushed, rules::specs::Number::set_pair))]
pub fn push_on(vs: &mut [f64], i: usize, dx: f64, dy: f64)
    requires { i * 2 + 1 < length vs.old }
    ensures { vs.new ≡ pushed ◌⊕◌ vs.old i dx dy }
{
    vs[i * 2] += dx;
    vs[i * 2 + 1] += dy;
}

#[tactic(auto, unfolding(rules::specs::Flow::pushed, rules::specs::Number::set_pair))]
pub fn push_back(vs: &mut [f64], i: usize, dx: f64, dy: f64)
    requires { i * 2 + 1 < length vs.old }
    ensures { vs.new ≡ pushed ◌⊖◌ vs.old i dx dy }
{
    vs[i * 2] -= dx;
    vs[i * 2 + 1] -= dy;
}
