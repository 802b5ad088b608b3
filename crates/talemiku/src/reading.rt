// Particles from records: a sheet is read.
ghost use Rattle.std.specs.Prelude.{◌≡◌, ◌≤◌, length};
ghost use Rattle.rules.specs.Plain.{overwritten};
ghost use Rattle.rules.specs.Outcome.{refusal_in};
ghost use Rattle.rules.specs.Sheet.{count_of, particles_of};
ghost use Rattle.talemiku.specs.AfterRecords.{lent_records, ReadOut};

use records::read_check;
use rules::{Particle, RECORD_SIZE, Refusal};
use sheet::record_at;

// The first places of the list take the particles.
fn lay_particles(sheet: &[u8], particles: &mut [Particle])
    requires { count_of sheet.now ≤ length particles.old }
    ensures { particles.new ≡ overwritten particles.old 0 (particles_of sheet.now) }
{
    for i in 0..sheet.len() / RECORD_SIZE {
        particles[i] = record_at(sheet, i * RECORD_SIZE);
    }
}

// Every record is tested before the first particle is changed, so that a refusal changes nothing.
fn read(sheet: &[u8], particles: &mut [Particle]) -> Result<(), Refusal>
    ensures { ReadOut (lent_records particles.old sheet.now) (refusal_in result) particles.new }
{
    read_check(sheet, particles.len())?;
    lay_particles(sheet, particles);
    Ok(())
}

#[unsafe(no_mangle)]
pub extern "C" fn talemiku_read(sheet: &[u8], particles: &mut [Particle]) -> Refusal
    ensures { ReadOut (lent_records particles.old sheet.now) result particles.new }
{
    Refusal::from(read(sheet, particles))
}
