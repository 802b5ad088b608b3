// How many insertions the words make. An edit is three words, the first its kind, and a rest of one or two words is none.
ghost use Rattle.std.specs.Prelude.{◌≡◌};
ghost use Rattle.rules.specs.Edits as Edits;

use rules::EDIT_WORDS;

pub fn insertions(edits: &[u64]) -> usize
    ensures { result ≡ Edits.insertions (Edits.edits_of edits.now) }
{
    // A loop: of a filter and a count the proof didn't close, that what they count are the insertions.
    let mut made = 0;
    for edit in edits.chunks_exact(EDIT_WORDS) {
        if edit[0] == 0 {
            made += 1;
        }
    }
    made
}
