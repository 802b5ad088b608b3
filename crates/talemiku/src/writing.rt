// Records from particles: a sheet is written out.
ghost use Rattle.std.specs.Prelude.{◌≡◌, ◌*◌, ◌≤◌, length};
ghost use Rattle.rules.specs.Plain.{overwritten};
ghost use Rattle.rules.specs.Outcome.{refusal_in, result_of, ◌then◌};
ghost use Rattle.rules.specs.Sheet as Sheet;
ghost use Rattle.rules.specs.Sheet.{record_size, sheet_of};
ghost use Rattle.rules.specs.Records as Records;
ghost use Rattle.talemiku.specs.AfterRecords.{lent_records, Written};

use crate::check::records_check;
use records::room_check;
use rules::{Particle, RECORD_SIZE, Refusal};
use sheet::put_record;

// The first bytes of the sheet take the records.
fn lay_records(particles: &[Particle], sheet: &mut [u8])
    requires { length particles.now * record_size ≤ length sheet.old }
    ensures { sheet.new ≡ overwritten sheet.old 0 (sheet_of particles.now) }
{
    for (i, p) in particles.iter().enumerate() {
        put_record(sheet, i * RECORD_SIZE, *p);
    }
}

// Of a list of particles that goes into so many bytes: its room, then the particles.
fn input_check(particles: &[Particle], bytes: usize) -> Result<(), Refusal>
    ensures { result ≡ result_of (Records.room_check (length particles.now) bytes then Sheet.records_check particles.now) }
{
    room_check(particles.len(), bytes)?;
    records_check(particles)
}

// Every particle is tested before the first is written, so that a refusal changes nothing.
fn write(particles: &[Particle], sheet: &mut [u8]) -> Result<(), Refusal>
    ensures { Written (lent_records particles.now sheet.old) (refusal_in result) sheet.new }
{
    input_check(particles, sheet.len())?;
    lay_records(particles, sheet);
    Ok(())
}

#[unsafe(no_mangle)]
pub extern "C" fn talemiku_write(particles: &[Particle], sheet: &mut [u8]) -> Refusal
    ensures { Written (lent_records particles.now sheet.old) result sheet.new }
{
    Refusal::from(write(particles, sheet))
}
