// The listing of a tree, from what the tree call told of it.
ghost use Rattle.std.specs.Prelude.{◌++◌, ◌≤◌, length};
ghost use Rattle.rules.specs.Cover.{Covered};
ghost use Rattle.rules.specs.Tree.{Tree, rows_of, chains_of};
ghost use Rattle.rules.specs.Listing.{extent_line, row_lines};
ghost use Rattle.lister_text.specs.Text.{TextWritten};
ghost use Rattle.lister_text.specs.Told.{Told, SomeTree};
ghost use Rattle.lister_text.specs.Input.{listing_bytes};

use crate::lines::{put_empty, put_extent, put_rows};
use rules::Extent;

pub fn write_listing(
    extent: Extent,
    nodes: usize,
    rows: &[u32],
    chains: &[u32],
    out: &mut [u8],
) -> usize
    requires some_tree { SomeTree extent nodes rows.now chains.now }
    requires listing_bytes_in_bounds { listing_bytes ≤ length out.old }
    ensures { (c : Covered) (t : Tree Extent) → Told c t extent nodes rows.now chains.now
        → TextWritten out.old 0 (extent_line c ++ row_lines (rows_of t) (chains_of t)) out.new result }
{
    if nodes == 0 {
        return put_empty(out, 0);
    }
    let next = put_extent(out, 0, extent);
    put_rows(out, next, nodes, rows, chains)
}
