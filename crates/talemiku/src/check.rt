// The checks of particles by value, each as it is and each as it is to be.
ghost use Rattle.std.specs.Prelude.{◌≡◌, length};
ghost use Rattle.rules.specs.declared.Particle as P;
ghost use Rattle.rules.specs.Outcome as Outcome;
ghost use Rattle.rules.specs.Outcome.{◌then◌, check_each};
ghost use Rattle.rules.specs.Refusal.{most_particles, count_check};
ghost use Rattle.rules.specs.Sheet.{records_check};
ghost use Rattle.talemiku.specs.Pass.{result_of};

use list_checks::count_check;
use number::{speed_range, within};
use rules::{MOST_PARTICLES, Particle, Reason, Refusal, require};
use sheet::record_check;

// The first particle that no record may hold.
#[tactic(auto, unfolding(rules::specs::Sheet::records_check))]
pub fn records_check(particles: &[Particle]) -> Result<(), Refusal>
    ensures { result ≡ Outcome.result_of (records_check particles.now) }
{
    for (i, p) in particles.iter().enumerate() {
        record_check(i as u64, *p)?;
    }
    Ok(())
}

// 1, then the first such particle.
pub fn particles_check(particles: &[Particle]) -> Result<(), Refusal>
    ensures { result ≡ Outcome.result_of (count_check most_particles (length particles.now) then records_check particles.now) }
{
    count_check(MOST_PARTICLES, particles.len())?;
    records_check(particles)
}

// 9, of one particle as it is to be.
#[tactic(auto, unfolding(rules::specs::Refusal::result_check))]
fn result_check(p: Particle) -> Result<(), Refusal>
    ensures { result ≡ Outcome.result_of (result_of p) }
{
    let sound = within(p.x) && within(p.y) && speed_range(p.vx, p.vy);
    require(sound, Reason::BadResult, 0)
}

// 9, of each particle as `changed` makes it.
pub fn results_check<F: Fn(Particle) -> Particle>(
    particles: &[Particle],
    changed: &F,
) -> Result<(), Refusal>
    requires { F.IsAlwaysCallable changed.now }
    ensures { (g : P.Particle → P.Particle) → ((p q : P.Particle) → F.post changed.now p q → q ≡ g p) → result ≡ Outcome.result_of (check_each (λ _ p. result_of (g p)) particles.now) }
{
    for p in particles {
        result_check(changed(*p))?;
    }
    Ok(())
}
