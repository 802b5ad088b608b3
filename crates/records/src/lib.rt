// What is checked of a sheet that is written from particles, or read into them, before its records are (document 02, R-1).
#![tactic(auto)]

ghost use Rattle.std.specs.Prelude.{◌≡◌};
ghost use Rattle.rules.specs.Outcome.{result_of};
ghost use Rattle.rules.specs.Records.{room_check, read_check};

use list_checks::{count_check, lengths_check};
use rules::{MOST_PARTICLES, RECORD_SIZE, Refusal};
use sheet::{records_check, whole_records};

// Of n particles that are to go into so many bytes: 1, then 2.
#[tactic(auto, using(crate::proofs::Room::fits_whole))]
pub fn room_check(n: usize, bytes: usize) -> Result<(), Refusal>
    ensures { result ≡ result_of (room_check n bytes) }
{
    count_check(MOST_PARTICLES, n)?;
    lengths_check(n <= bytes / RECORD_SIZE)
}

// Of a sheet whose records are to go into a list of `room` particles: 10, 1, 2, then record by record.
pub fn read_check(s: &[u8], room: usize) -> Result<(), Refusal>
    ensures { result ≡ result_of (read_check s.now room) }
{
    whole_records(s)?;
    let records = s.len() / RECORD_SIZE;
    count_check(MOST_PARTICLES, records)?;
    lengths_check(records <= room)?;
    records_check(s)
}
