// Writes the listings of sheets, each behind its name: most are zeros but for a pair of words.
#![tactic(auto)]

ghost use Rattle.std.specs.Prelude.{◌≡◌, ◌+◌, ◌≤◌, min, length};
ghost use Rattle.rules.specs.Sheet.{pair_size};
ghost use Rattle.lister_text.specs.Input.{kept_bytes};

use lister_text::{KEPT_BYTES, LISTING_BYTES};
use number::bits_of;
use rules::{FLAGS_START, RECORD_SIZE, VELOCITY_START};
use words::put_word;

// Where pairs of words of the second record stand: its place, its velocity, and its vy and flags.
const PLACE: usize = RECORD_SIZE;

const VELOCITY: usize = RECORD_SIZE + VELOCITY_START;

const VY_AND_FLAGS: usize = RECORD_SIZE + FLAGS_START - 8;

// The bytes of so many records: `CROWD` is one more than are listed, `PAIRS` are those of `put_pairs`.
const TWO: usize = 2 * RECORD_SIZE;

const SAMPLE: usize = 3 * RECORD_SIZE;

const PAIRS: usize = 22 * TWO;

const CROWD: usize = KEPT_BYTES + RECORD_SIZE;

// Numbers as bits.
const MINUS_HALF: u64 = 0xbfe0_0000_0000_0000;

const THREE: u64 = 0x4008_0000_0000_0000;

const TWO_TO_MINUS_50: u64 = 0x3cd0_0000_0000_0000;

const TWO_TO_MINUS_64: u64 = 0x3bf0_0000_0000_0000;

const TWO_TO_MINUS_65: u64 = 0x3be0_0000_0000_0000;

const INFINITE: u64 = 0x7ff0_0000_0000_0000;

const NAN: u64 = 0x7ff8_0000_0000_0000;

fn show(name: &[u8], kept: &[u8], total: usize)
    requires { length kept.now ≡ min total kept_bytes }
{
    let mut out = [0; LISTING_BYTES];
    io::write_all(1, name);
    let size = lister_text::list_sheet(kept, total, &mut out);
    io::write_all(1, &out[..size]);
}

// The sheet's first bytes.
fn show_first(name: &[u8], sheet: &[u8], total: usize)
    requires { (total ≤ kept_bytes) × (length sheet.now ≡ kept_bytes) }
{
    show(name, &sheet[..total], total);
}

fn put_two(sheet: &mut [u8], at: usize, first: u64, second: u64)
    requires { at + pair_size ≤ length sheet.old }
{
    put_word(sheet, at, first);
    put_word(sheet, at + 8, second);
}

// A sheet of so many bytes, all zeros but for two words from a byte on.
fn show_two(name: &[u8], total: usize, at: usize, first: u64, second: u64)
    requires { (total ≤ kept_bytes) × (at + pair_size ≤ kept_bytes) }
{
    let mut sheet = [0; KEPT_BYTES];
    put_two(&mut sheet, at, first, second);
    show_first(name, &sheet, total);
}

// (4i, 0) and (4i, 2^-50) for each pair of records: it takes some fifty nodes of its own.
fn put_pairs(pairs: &mut [u8]) {
    let mut x = 0.0;
    for pair in pairs.chunks_exact_mut(TWO) {
        let bits = bits_of(x);
        put_two(pair, 0, bits, 0);
        put_two(pair, RECORD_SIZE, bits, TWO_TO_MINUS_50);
        x += 4.0;
    }
}

fn show_limits() {
    let mut sheet = [0; KEPT_BYTES];
    show(b"513 records\n", &sheet, CROWD);
    put_pairs(&mut sheet[..PAIRS]);
    show_first(b"too many nodes\n", &sheet, PAIRS);
}

fn main() {
    show_two(b"no points\n", 0, 0, 0, 0);
    show_two(b"sample\n", SAMPLE, PLACE, THREE, THREE);
    show_two(b"minus\n", RECORD_SIZE, 0, MINUS_HALF, 0);
    show_two(b"deepest\n", TWO, PLACE, TWO_TO_MINUS_64, 0);
    show_two(b"one byte\n", 1, 0, 0, 0);
    show_limits();
    show_two(b"too deep\n", TWO, PLACE, TWO_TO_MINUS_65, 0);
    show_two(b"NaN\n", TWO, PLACE, 0, NAN);
    show_two(b"infinite velocity\n", TWO, VELOCITY, INFINITE, 0);
    show_two(b"unknown flag\n", TWO, VY_AND_FLAGS, 0, 4);
}
