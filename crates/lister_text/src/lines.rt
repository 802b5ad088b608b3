// The lines of a listing, each put into a buffer at a place.
ghost use Rattle.std.specs.Prelude.{[], ◌∷◌, map, ◌+◌, ◌*◌, ◌^◌, ◌≤◌, ◌<◌, length};
ghost use Rattle.rules.specs.Cover.{holds, nothing};
ghost use Rattle.rules.specs.Listing.{ascii, decimal, signed, line, extent_line, row_letter, row_lines};
ghost use Rattle.rules.specs.Tree.{row_numbers};
ghost use Rattle.lister_text.specs.Text.{TextWritten, other_words};
ghost use Rattle.lister_text.specs.Told.{IsWhole, integer, WholeExtent, integer_square, rows_at, chained};

use crate::text::{put_byte, put_decimal, put_text, put_whole};
use rules::{Extent, ROW_NUMBERS};

// A space and a number.
fn put_number(out: &mut [u8], at: usize, n: u64) -> usize
    requires { (n < 10 ^ 14) × (at + length (32 ∷ decimal n) ≤ length out.old) }
    ensures { TextWritten out.old at (32 ∷ decimal n) out.new result }
{
    let next = put_byte(out, at, b' ');
    put_decimal(out, next, n)
}

// A space and an end of an extent. One function with a closure for what follows the space would be no shorter than the two.
fn put_end(out: &mut [u8], at: usize, x: f64) -> usize
    requires whole { IsWhole x }
    requires x_in_bounds { at + length (32 ∷ signed (integer x)) ≤ length out.old }
    ensures { TextWritten out.old at (32 ∷ signed (integer x)) out.new result }
{
    let next = put_byte(out, at, b' ');
    put_whole(out, next, x)
}

pub fn put_empty(out: &mut [u8], at: usize) -> usize
    requires { at + 6 ≤ length out.old }
    ensures { TextWritten out.old at (extent_line nothing) out.new result }
{
    put_text(out, at, b"empty\n")
}

pub fn put_refused(out: &mut [u8], at: usize, number: u64) -> usize
    requires { (number < 10 ^ 14) × (at + 23 ≤ length out.old) }
    ensures { TextWritten out.old at (line (ascii "refused" ∷ decimal number ∷ [])) out.new result }
{
    let mut next = put_text(out, at, b"refused");
    next = put_number(out, next, number);
    put_byte(out, next, b'\n')
}

pub fn put_extent(out: &mut [u8], at: usize, e: Extent) -> usize
    requires whole_extent { WholeExtent e }
    requires e_in_bounds { at + length (extent_line (holds (integer_square e))) ≤ length out.old }
    ensures { TextWritten out.old at (extent_line (holds (integer_square e))) out.new result }
{
    let mut next = put_text(out, at, b"extent");
    next = put_end(out, next, e.x0);
    next = put_end(out, next, e.y0);
    next = put_end(out, next, e.x1);
    next = put_end(out, next, e.y1);
    put_byte(out, next, b'\n')
}

// I for internal, L for a leaf.
fn put_kind(out: &mut [u8], at: usize, kind: u32) -> usize
    requires { at + length (row_letter kind) ≤ length out.old }
    ensures { TextWritten out.old at (row_letter kind) out.new result }
{
    match kind {
        0 => at,
        1 => put_byte(out, at, b'I'),
        _ => put_byte(out, at, b'L'),
    }
}

// The particles of a chain, and the line's end.
fn put_chain(out: &mut [u8], at: usize, chain: &[u32]) -> usize
    requires { at + length (other_words (map decimal chain.now)) ≤ length out.old }
    ensures { TextWritten out.old at (other_words (map decimal chain.now)) out.new result }
{
    let mut next = at;
    for i in chain {
        next = put_number(out, next, *i as u64);
    }
    put_byte(out, next, b'\n')
}

// One node: level, quadrant, kind, chain.
fn put_row(out: &mut [u8], at: usize, level: u32, quadrant: u32, kind: u32, chain: &[u32]) -> usize
    requires { at + length (line (decimal level ∷ decimal quadrant ∷ row_letter kind ∷ map decimal chain.now)) ≤ length out.old }
    ensures { TextWritten out.old at (line (decimal level ∷ decimal quadrant ∷ row_letter kind ∷ map decimal chain.now)) out.new result }
{
    let mut next = put_decimal(out, at, level as u64);
    next = put_number(out, next, quadrant as u64);
    next = put_byte(out, next, b' ');
    next = put_kind(out, next, kind);
    put_chain(out, next, chain)
}

// The first `nodes` rows, each with the part of the chains that is its own.
pub fn put_rows(out: &mut [u8], at: usize, nodes: usize, rows: &[u32], chains: &[u32]) -> usize
    requires nodes_in_bounds { row_numbers * nodes ≤ length rows.now }
    requires rows_in_bounds { chained (rows_at nodes rows.now) ≤ length chains.now }
    requires chains_in_bounds { at + length (row_lines (rows_at nodes rows.now) chains.now) ≤ length out.old }
    ensures { TextWritten out.old at (row_lines (rows_at nodes rows.now) chains.now) out.new result }
{
    let mut next = at;
    let mut from = 0;
    for i in 0..nodes {
        let k = ROW_NUMBERS * i;
        let to = from + rows[k + 3] as usize;
        next = put_row(
            out,
            next,
            rows[k],
            rows[k + 1],
            rows[k + 2],
            &chains[from..to],
        );
        from = to;
    }
    next
}
