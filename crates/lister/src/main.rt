// The lister: reads a sheet from standard input to its end and writes its listing.
#![tactic(auto)]

ghost use Rattle.std.specs.Prelude.{◌≡◌, length};
ghost use Rattle.lister_text.specs.Input.{kept_bytes, listing_bytes};

use lister_text::{KEPT_BYTES, LISTING_BYTES};

fn list_input(kept: &mut [u8], out: &mut [u8])
    requires { (length kept.old ≡ kept_bytes) × (length out.old ≡ listing_bytes) }
{
    let n = io::read_full(0, kept);
    let total = sheet_input::total_of(n, KEPT_BYTES);
    let size = lister_text::list_sheet(&kept[..n], total, out);
    io::write_all(1, &out[..size]);
}

fn main() {
    let mut kept = [0; KEPT_BYTES];
    let mut out = [0; LISTING_BYTES];
    list_input(&mut kept, &mut out);
}
