// The listing of a sheet: what the lister writes for its input.
ghost use Rattle.std.specs.Prelude.{◌≡◌, List, ℕ, ◌*◌, ◌≤◌, min, length, take};
ghost use Rattle.rules.specs.Sheet.{count_of};
ghost use Rattle.rules.specs.Listing.{most_listed, lister_slots, lister};
ghost use Rattle.rules.specs.Tree.{row_numbers};
ghost use Rattle.rules.specs.Calls.{slot_words};
ghost use Rattle.lister_text.specs.Text.{TextWritten};
ghost use Rattle.lister_text.specs.Input.{kept_bytes, listing_bytes};

use crate::lines::put_refused;
use crate::list::write_listing;
use rules::{RECORD_SIZE, ROW_NUMBERS, Reason, SLOT_WORDS};
use tree_call::tree_within;

// How many records are listed, and how many slots their tree is lent.
const MOST_LISTED: usize = 512;

const SLOTS: usize = 1024;

// The bytes of the records that are listed.
pub const KEPT_BYTES: usize = RECORD_SIZE * MOST_LISTED;

// No listing is longer.
pub const LISTING_BYTES: usize = 16384;

// The tree of the records is built in lent memory, then written.
fn list_tree(
    records: &[u8],
    rows: &mut [u32],
    chains: &mut [u32],
    work: &mut [u64],
    out: &mut [u8],
) -> usize
    requires rows_len { (length rows.old ≡ row_numbers * lister_slots) × (length chains.old ≡ count_of records.now) × (length work.old ≡ slot_words * lister_slots) }
    requires listing_bytes_in_bounds { listing_bytes ≤ length out.old }
    ensures { TextWritten out.old 0 (lister records.now) out.new result }
{
    // The tree call answers as C sees it: number 0 where nothing is refused.
    let answer = tree_within(MOST_LISTED, records, rows, chains, work);
    let number = answer.refusal.number;
    if number != 0 {
        return put_refused(out, 0, number);
    }
    write_listing(answer.extent, answer.nodes as usize, rows, chains, out)
}

// The same with memory of its own.
fn list_records(records: &[u8], out: &mut [u8]) -> usize
    requires records_bound { count_of records.now ≤ most_listed }
    requires listing_bytes_in_bounds { listing_bytes ≤ length out.old }
    ensures { TextWritten out.old 0 (lister records.now) out.new result }
{
    let n = records.len() / RECORD_SIZE;
    let mut rows = [0; ROW_NUMBERS * SLOTS];
    let mut chains = [0; MOST_LISTED];
    let mut work = [0; SLOT_WORDS * SLOTS];
    list_tree(records, &mut rows, &mut chains[..n], &mut work, out)
}

// For an input of `total` bytes of which the first `KEPT_BYTES`, or all, are kept: 10 for its length comes before 1 for its count.
pub fn list_sheet(kept: &[u8], total: usize, out: &mut [u8]) -> usize
    requires kept_len { length kept.now ≡ min total kept_bytes }
    requires listing_bytes_in_bounds { listing_bytes ≤ length out.old }
    ensures by_index { (sheet : List ℕ) → length sheet ≡ total → take kept_bytes sheet ≡ kept.now
        → TextWritten out.old 0 (lister sheet) out.new result }
    ensures upper_bound { result ≤ length out.new }
{
    if total % RECORD_SIZE != 0 {
        return put_refused(out, 0, u64::from(Reason::BadRecord));
    }
    if MOST_LISTED < total / RECORD_SIZE {
        return put_refused(out, 0, u64::from(Reason::TooMany));
    }
    list_records(kept, out)
}
