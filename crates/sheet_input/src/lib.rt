// The standard input of a program that reads a sheet: how long it is, though only its first bytes are kept.
#![tactic(auto)]

ghost use Rattle.std.specs.Prelude.{◌≡◌, ◌^◌, ◌≤◌, min};

// How many chunks are read on after the bytes that are kept.
const MOST_CHUNKS: usize = 1 << 24;

// Reads on, and answers how many bytes came: 0 at the end.
fn read_on() -> usize
    ensures { result ≤ 65536 }
{
    let mut chunk = io::large_buffer();
    io::read_full(0, &mut chunk)
}

// How long the rest of the input is. A proved loop has to end, and nothing says that the input does: so it stops at 2^40 bytes.
fn count_rest() -> usize
    ensures { result ≤ 2 ^ 40 }
{
    let mut rest = 0;
    for _ in 0..MOST_CHUNKS {
        let n = read_on();
        if n == 0 {
            return rest;
        }
        rest += n;
    }
    rest
}

// The input's length, where the first read brought n bytes of the `most` that are kept. A bad length is told before too many records, so the
// length must be known though no more bytes are kept than those of the records that are taken.
pub fn total_of(n: usize, most: usize) -> usize
    requires { (n ≤ most) × (most ≤ 2 ^ 40) }
    ensures { n ≡ min result most }
{
    if n < most {
        return n;
    }
    n + count_rest()
}
