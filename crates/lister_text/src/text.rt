// Text put into a buffer at a place. Each function answers the place behind what it wrote, and changes nothing else.
ghost use Rattle.std.specs.Prelude.{[], ◌∷◌, ◌+◌, ◌^◌, ◌≤◌, ◌<◌, length};
ghost use Rattle.rules.specs.Listing.{decimal, signed};
ghost use Rattle.lister_text.specs.Text.{TextWritten};
ghost use Rattle.lister_text.specs.Told.{IsWhole, integer};

pub fn put_byte(out: &mut [u8], at: usize, b: u8) -> usize
    requires { at + 1 ≤ length out.old }
    ensures { TextWritten out.old at (b ∷ []) out.new result }
{
    out[at] = b;
    at + 1
}

pub fn put_text(out: &mut [u8], at: usize, text: &[u8]) -> usize
    requires { at + length text.now ≤ length out.old }
    ensures { TextWritten out.old at text.now out.new result }
{
    let end = at + text.len();
    out[at..end].copy_from_slice(text);
    end
}

// The digits of a number.
pub fn put_decimal(out: &mut [u8], at: usize, n: u64) -> usize
    requires { (n < 10 ^ 14) × (at + length (decimal n) ≤ length out.old) }
    ensures { TextWritten out.old at (decimal n) out.new result }
{
    let mut digits = [0; 20];
    let size = io::decimal(n, &mut digits);
    put_text(out, at, &digits[..size])
}

// A minus sign before what lies below zero.
pub fn put_whole(out: &mut [u8], at: usize, x: f64) -> usize
    requires whole { IsWhole x }
    requires x_in_bounds { at + length (signed (integer x)) ≤ length out.old }
    ensures { TextWritten out.old at (signed (integer x)) out.new result }
{
    if x < 0.0 {
        let next = put_byte(out, at, b'-');
        return put_decimal(out, next, (-x) as u64);
    }
    put_decimal(out, at, x as u64)
}
