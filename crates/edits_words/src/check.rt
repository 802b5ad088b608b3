// What is wrong with the words: 4 at an insertion with a bad coordinate, then 5 at an unknown kind. The place is the number of the edit.
ghost use Rattle.std.specs.Prelude.{◌≡◌};
ghost use Rattle.rules.specs.Outcome.{result_of, require, check_each, ◌then◌};
ghost use Rattle.rules.specs.Edits.{edit_of, edits_of, point_check, known};

use number::float_of;
use rules::{EDIT_WORDS, Reason, Refusal, require};
use sheet::place_check;

// Edit k, by its three words.
fn point_check(k: u64, kind: u64, x: u64, y: u64) -> Result<(), Refusal>
    ensures { result ≡ result_of (point_check k (edit_of kind x y)) }
{
    if kind == 0 {
        return place_check(k, float_of(x), float_of(y));
    }
    Ok(())
}

// 4 at the first insertion with a bad coordinate.
fn points_check(edits: &[u64]) -> Result<(), Refusal>
    ensures { result ≡ result_of (check_each point_check (edits_of edits.now)) }
{
    for (k, edit) in edits.chunks_exact(EDIT_WORDS).enumerate() {
        point_check(k as u64, edit[0], edit[1], edit[2])?;
    }
    Ok(())
}

// 5 at the first unknown kind.
fn kinds_check(edits: &[u64]) -> Result<(), Refusal>
    ensures { result ≡ result_of (check_each (λ k e. require (known e) 5 k) (edits_of edits.now)) }
{
    for (k, edit) in edits.chunks_exact(EDIT_WORDS).enumerate() {
        require(edit[0] <= 1, Reason::OutOfRange, k as u64)?;
    }
    Ok(())
}

// All of 4 before any of 5.
pub fn words_check(edits: &[u64]) -> Result<(), Refusal>
    ensures { let es = edits_of edits.now in result ≡ result_of (check_each point_check es then check_each (λ k e. require (known e) 5 k) es) }
{
    points_check(edits)?;
    kinds_check(edits)
}
