// particle.rs: the closing move.
ghost use Rattle.std.specs.Prelude.{◌≡◌, [], ◌∷◌, length};
ghost use Rattle.rules.specs.Outcome.{refusal_in, result_of, ◌then◌};
ghost use Rattle.rules.specs.Refusal.{most_particles, count_check, settings_check};
ghost use Rattle.rules.specs.Sheet.{records_check};
ghost use Rattle.rules.specs.Calls.{closing_result};
ghost use Rattle.talemiku.specs.AfterParticles.{AfterParticles};
ghost use Rattle.talemiku.specs.Pass.{moved_alone};

use crate::changing::change_tested;
use crate::check::particles_check;
use closing::moved;
use list_checks::setting_check;
use rules::{Particle, Refusal};

// A particle that is moved by itself: its home is where it stands.
fn moved_alone(decay: f64, p: Particle) -> Particle
    ensures { result ≡ moved_alone decay p }
{
    moved(decay, p.x, p.y, p)
}

// The particles, then the decay.
fn input_check(particles: &[Particle], decay: f64) -> Result<(), Refusal>
    ensures { result ≡ result_of (count_check most_particles (length particles.now) then records_check particles.now then settings_check (decay ∷ [])) }
{
    particles_check(particles)?;
    setting_check(decay)
}

fn apply(particles: &mut [Particle], decay: f64) -> Result<(), Refusal>
    ensures { AfterParticles (closing_result decay particles.old) particles.old (refusal_in result) particles.new }
{
    input_check(particles, decay)?;
    change_tested(particles, |p| moved_alone(decay, p))
}

#[unsafe(no_mangle)]
pub extern "C" fn talemiku_apply_velocities(particles: &mut [Particle], decay: f64) -> Refusal
    ensures { AfterParticles (closing_result decay particles.old) particles.old result particles.new }
{
    Refusal::from(apply(particles, decay))
}
