// A list of particles, each of which is changed by itself.
ghost use Rattle.std.specs.Prelude.{◌≡◌, map};
ghost use Rattle.rules.specs.declared.Particle as P;
ghost use Rattle.rules.specs.Outcome as Outcome;
ghost use Rattle.rules.specs.Outcome.{check_each, if_done};
ghost use Rattle.talemiku.specs.Pass.{result_of};

use crate::check::results_check;
use rules::{Particle, Refusal};

fn change_each<F: Fn(Particle) -> Particle>(particles: &mut [Particle], changed: F)
    requires { F.IsAlwaysCallable changed }
    ensures { (g : P.Particle → P.Particle) → ((p q : P.Particle) → F.post changed p q → q ≡ g p) → particles.new ≡ map g particles.old }
{
    for p in particles.iter_mut() {
        *p = changed(*p);
    }
}

// Every result is tested before the first is written, so that a refusal changes nothing.
pub fn change_tested<F: Fn(Particle) -> Particle>(
    particles: &mut [Particle],
    changed: F,
) -> Result<(), Refusal>
    requires { F.IsAlwaysCallable changed }
    ensures { (g : P.Particle → P.Particle) → ((p q : P.Particle) → F.post changed p q → q ≡ g p) → let c = check_each (λ _ p. result_of (g p)) particles.old in
        (result ≡ Outcome.result_of c) × (particles.new ≡ if_done c (λ _. map g particles.old) particles.old) }
{
    results_check(particles, &changed)?;
    change_each(particles, changed);
    Ok(())
}
