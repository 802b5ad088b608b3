// The lister's text: what is written for a sheet, as bytes.
#![tactic(auto)]

mod input;
mod lines;
mod list;
mod text;

pub use input::{KEPT_BYTES, LISTING_BYTES, list_sheet};
pub use lines::put_refused;
pub use list::write_listing;
