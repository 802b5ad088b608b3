// Records: x, y, vx, vy and flags, read from any bytes and written.
ghost use Rattle.std.specs.Prelude.{◌≡◌, ◌+◌, ◌≤◌, length};
ghost use Rattle.rules.specs.Plain.{overwritten};
ghost use Rattle.rules.specs.Sheet.{record_size, record_at, count_of, particles_of, record_bytes};
ghost use Rattle.sheet.specs.Columns.{flags_of};

use crate::pairs::put_pair;
use number::float_of;
use rules::{FLAGS_START, Particle, RECORD_SIZE, VELOCITY_START};
use words::{put_word, word_at};

// Where a velocity's y begins.
const VELOCITY_Y: usize = VELOCITY_START + 8;

#[tactic(auto, unfolding(rules::specs::Sheet::record_at))]
pub fn record_at(s: &[u8], at: usize) -> Particle
    requires { at + record_size ≤ length s.now }
    ensures { result ≡ record_at s.now at }
{
    let x = float_of(word_at(s, at));
    let y = float_of(word_at(s, at + 8));
    let vx = float_of(word_at(s, at + VELOCITY_START));
    let vy = float_of(word_at(s, at + VELOCITY_Y));
    let flags = word_at(s, at + FLAGS_START);
    Particle {
        x,
        y,
        vx,
        vy,
        flags,
    }
}

// Nothing outside the record changes.
pub fn put_record(s: &mut [u8], at: usize, p: Particle)
    requires { at + record_size ≤ length s.old }
    ensures { s.new ≡ overwritten s.old at (record_bytes p) }
{
    put_pair(s, at, p.x, p.y);
    put_pair(s, at + VELOCITY_START, p.vx, p.vy);
    put_word(s, at + FLAGS_START, p.flags);
}

// The flags of each record.
pub fn read_flags(s: &[u8], out: &mut [u64])
    requires { length out.old ≡ count_of s.now }
    ensures { out.new ≡ flags_of (particles_of s.now) }
{
    for (i, flags) in out.iter_mut().enumerate() {
        *flags = word_at(s, i * RECORD_SIZE + FLAGS_START);
    }
}
