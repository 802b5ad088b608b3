// center.rs: the mean of all places is drawn to a point.
ghost use Rattle.std.specs.Prelude.{◌≡◌, map};
ghost use Rattle.rules.specs.Plain.{foldl};
ghost use Rattle.rules.specs.Number.{◌⊕◌, 0·};
ghost use Rattle.rules.specs.Outcome.{refusal_in};
ghost use Rattle.rules.specs.Calls.{center_result};
ghost use Rattle.center.specs.Pairs.{pair};
ghost use Rattle.talemiku.specs.AfterParticles.{AfterParticles};

use crate::changing::change_tested;
use crate::check::particles_check;
use center::{Pair, added, offsets, shifted};
use rules::{Particle, Refusal};
use tick_checks::settings_check;

// The sums of all places, from the left.
fn summed(particles: &[Particle]) -> Pair
    ensures { result ≡ pair (foldl ◌⊕◌ 0· (map (λ p. p.x) particles.now)) (foldl ◌⊕◌ 0· (map (λ p. p.y) particles.now)) }
{
    let mut sums = Pair { x: 0.0, y: 0.0 };
    for p in particles {
        sums = added(sums, p.x, p.y);
    }
    sums
}

fn draw_to(particles: &mut [Particle], x: f64, y: f64, strength: f64) -> Result<(), Refusal>
    ensures { AfterParticles (center_result x y strength particles.old) particles.old (refusal_in result) particles.new }
{
    particles_check(particles)?;
    settings_check(x, y, strength)?;
    let shift = offsets(summed(particles), particles.len(), x, y, strength);
    change_tested(particles, |p| shifted(shift.x, shift.y, p))
}

#[unsafe(no_mangle)]
pub extern "C" fn talemiku_center(
    particles: &mut [Particle],
    x: f64,
    y: f64,
    strength: f64,
) -> Refusal
    ensures { AfterParticles (center_result x y strength particles.old) particles.old result particles.new }
{
    Refusal::from(draw_to(particles, x, y, strength))
}
