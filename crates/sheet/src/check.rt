// What is wrong with a sheet: its length, then the first bad record, within it flags, coordinates, velocities.
ghost use Rattle.std.specs.Prelude.{◌≡◌};
ghost use Rattle.rules.specs.Outcome.{result_of};
ghost use Rattle.rules.specs.Refusal.{coordinate_check, place_check, velocity_check};
ghost use Rattle.rules.specs.Sheet.{whole_records, record_check, records_check, particles_of};

use crate::records::record_at;
use number::{speed_range, within};
use rules::{Particle, RECORD_SIZE, Reason, Refusal, require};

#[tactic(auto, unfolding(rules::specs::Sheet::whole_records))]
pub fn whole_records(s: &[u8]) -> Result<(), Refusal>
    ensures { result ≡ result_of (whole_records s.now) }
{
    require(s.len() % RECORD_SIZE == 0, Reason::BadRecord, 0)
}

// One coordinate of the particle whose number is i.
pub fn coordinate_check(i: u64, x: f64) -> Result<(), Refusal>
    ensures { result ≡ result_of (coordinate_check i x) }
{
    require(within(x), Reason::BadCoordinate, i)
}

// Of the particle whose number is i: x, then y.
pub fn place_check(i: u64, x: f64, y: f64) -> Result<(), Refusal>
    ensures { result ≡ result_of (place_check i x y) }
{
    coordinate_check(i, x)?;
    coordinate_check(i, y)
}

// Of the particle whose number is i.
pub fn velocity_check(i: u64, vx: f64, vy: f64) -> Result<(), Refusal>
    ensures { result ≡ result_of (velocity_check i vx vy) }
{
    require(speed_range(vx, vy), Reason::OutOfRange, i)
}

// Of the particle whose number is i.
#[tactic(auto, unfolding(rules::specs::Sheet::record_check))]
pub fn record_check(i: u64, p: Particle) -> Result<(), Refusal>
    ensures { result ≡ result_of (record_check i p) }
{
    require(p.flags <= 3, Reason::BadRecord, i)?;
    place_check(i, p.x, p.y)?;
    velocity_check(i, p.vx, p.vy)
}

// The first bad record decides; bytes after the last whole record are not looked at.
pub fn records_check(s: &[u8]) -> Result<(), Refusal>
    ensures { result ≡ result_of (records_check (particles_of s.now)) }
{
    for i in 0..s.len() / RECORD_SIZE {
        record_check(i as u64, record_at(s, i * RECORD_SIZE))?;
    }
    Ok(())
}
