// How a case is read. A case is its kind's number, then parts, each a length word and that many bytes. Every reader answers for any bytes: what is missing
// is 0, or empty.
use words::word_at;

// The word that bytes begin with, and what is behind it.
pub fn split_word(bytes: &[u8]) -> (u64, &[u8]) {
    match bytes.split_first_chunk() {
        Some((word, rest)) => (u64::from_le_bytes(*word), rest),
        None => (0, &[]),
    }
}

// The first of some parts, without its length, and the others.
fn split_part(parts: &[u8]) -> (&[u8], &[u8]) {
    let (size, rest) = split_word(parts);
    rest.split_at(size.min(rest.len() as u64) as usize)
}

// Part k; the kind's number stands before part 1.
pub fn part(case: &[u8], k: usize) -> &[u8] {
    let (_, mut parts) = split_word(case);
    for _ in 1..k {
        parts = split_part(parts).1;
    }
    split_part(parts).0
}

// Item i of words that repeat.
pub fn word_of(items: &[u8], i: usize) -> u64 {
    let n = items.len() / 8;
    if n == 0 {
        return 0;
    }
    word_at(items, 8 * (i % n))
}

// Item i of bytes that repeat.
pub fn byte_of(items: &[u8], i: usize) -> u8 {
    let n = items.len();
    if n == 0 {
        return 0;
    }
    items[i % n]
}

// Number i of those that the call takes by value, which are part 2.
pub fn argument(case: &[u8], i: usize) -> u64 {
    word_of(part(case, 2), i)
}
