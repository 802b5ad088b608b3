// The sample comes in on the standard input, case after case, each behind a word with its length.
ghost use Rattle.std.specs.Prelude.{◌≤◌, length, IfSome};

// Reads the next case: none at the end, nor where it is empty, cut off or too long.
pub fn read_case(space: &mut [u8]) -> Option<&[u8]>
    ensures { IfSome result (λ case. length case.now ≤ length space.old) }
{
    let mut head = [0; 8];
    io::read_full(0, &mut head);
    let size = u64::from_le_bytes(head);
    if size == 0 || space.len() as u64 <= size {
        return None;
    }
    let case = &mut space[..size as usize];
    if io::read_full(0, case) < case.len() {
        return None;
    }
    Some(case)
}
