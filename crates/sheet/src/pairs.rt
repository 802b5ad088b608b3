// Pairs of numbers in bytes, the first at an offset and the next each a stride further on: the places and velocities of records, and a velocity buffer.
ghost use Rattle.std.specs.Prelude.{◌≡◌, ◌++◌, ◌+◌, ◌/◌, ◌≤◌, length};
ghost use Rattle.rules.specs.Plain.{overwritten};
ghost use Rattle.rules.specs.Sheet.{float_bytes, pair_size, pairs_from};
ghost use Rattle.sheet.specs.Columns.{PairsFit, put_pairs};

use number::{bits_of, float_of};
use words::{put_word, word_at};

pub fn read_pairs(s: &[u8], stride: usize, offset: usize, out: &mut [f64])
    requires { PairsFit s.now stride offset (length out.old) }
    ensures { out.new ≡ pairs_from stride s.now offset (length out.old / 2) }
{
    for j in 0..out.len() / 2 {
        let at = offset + j * stride;
        out[j * 2] = float_of(word_at(s, at));
        out[j * 2 + 1] = float_of(word_at(s, at + 8));
    }
}

// A NaN is written 7FF8000000000000.
pub fn put_pair(s: &mut [u8], at: usize, x: f64, y: f64)
    requires { at + pair_size ≤ length s.old }
    ensures { s.new ≡ overwritten s.old at (float_bytes x ++ float_bytes y) }
{
    put_word(s, at, bits_of(x));
    put_word(s, at + 8, bits_of(y));
}

// Nothing outside the pairs changes.
pub fn write_pairs(s: &mut [u8], stride: usize, offset: usize, xs: &[f64])
    requires { PairsFit s.old stride offset (length xs.now) }
    ensures { s.new ≡ put_pairs stride s.old offset xs.now }
{
    for j in 0..xs.len() / 2 {
        put_pair(s, offset + j * stride, xs[j * 2], xs[j * 2 + 1]);
    }
}
