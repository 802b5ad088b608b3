// Little-endian words in bytes.
#![tactic(auto)]

ghost use Rattle.std.specs.Prelude.{◌≡◌, ◌+◌, ◌≤◌, length};
ghost use Rattle.rules.specs.Plain.{overwritten};
ghost use Rattle.rules.specs.Sheet.{word_at, bytes_of};

#[tactic(auto, using(crate::proofs::Bytes::word_read))]
pub fn word_at(s: &[u8], at: usize) -> u64
    requires { at + 8 ≤ length s.now }
    ensures { result ≡ word_at s.now at }
{
    // Byte by byte, which compiles to one load: of a copy of the part it tests whether the two overlap, each time.
    let bytes = [
        s[at],
        s[at + 1],
        s[at + 2],
        s[at + 3],
        s[at + 4],
        s[at + 5],
        s[at + 6],
        s[at + 7],
    ];
    u64::from_le_bytes(bytes)
}

// Nothing outside the eight bytes changes.
pub fn put_word(s: &mut [u8], at: usize, w: u64)
    requires { at + 8 ≤ length s.old }
    ensures { s.new ≡ overwritten s.old at (bytes_of 8 w) }
{
    s[at..at + 8].copy_from_slice(&w.to_le_bytes());
}
