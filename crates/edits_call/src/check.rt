// What is lent, checked in its order: 1, 2, then 4 and 5 for the words.
ghost use Rattle.std.specs.Prelude.{◌≡◌};
ghost use Rattle.rules.specs.Outcome.{result_of};
ghost use Rattle.rules.specs.Edits.{edit_lengths, edit_input_check};
ghost use Rattle.edits_call.specs.Call.{lent};

use edits_words::{insertions, words_check};
use list_checks::{count_check, lengths_check};
use rules::{EDIT_WORDS, MOST_EDITS, ROW_NUMBERS, Refusal, SLOT_WORDS};

// Whole edits, a row for each slot, a number for each insertion.
#[tactic(auto, using(crate::proofs::Checks::edits_counted, crate::proofs::Checks::whole_edits))]
fn lengths_agree(edits: &[u64], rows: &[u32], chains: &[u32], work: &[u64]) -> bool
    ensures { result ≡ edit_lengths (lent edits.now rows.now chains.now work.now) }
{
    edits.len() % EDIT_WORDS == 0
        && rows.len() == work.len() / SLOT_WORDS * ROW_NUMBERS
        && chains.len() == insertions(edits)
}

#[tactic(auto, using(crate::proofs::Checks::edits_counted), unfolding(rules::specs::Edits::edit_input_check))]
pub fn input_check(edits: &[u64], rows: &[u32], chains: &[u32], work: &[u64]) -> Result<(), Refusal>
    ensures { result ≡ result_of (edit_input_check (lent edits.now rows.now chains.now work.now)) }
{
    count_check(MOST_EDITS, edits.len() / EDIT_WORDS)?;
    lengths_check(lengths_agree(edits, rows, chains, work))?;
    words_check(edits)
}
