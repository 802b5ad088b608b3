// A sheet's bytes: 40-byte records, what is wrong with them, and pairs of numbers in and out.
#![tactic(auto)]

mod check;
mod pairs;
mod records;

pub use check::{
    coordinate_check, place_check, record_check, records_check, velocity_check, whole_records,
};
pub use pairs::{read_pairs, write_pairs};
pub use records::{put_record, read_flags, record_at};
