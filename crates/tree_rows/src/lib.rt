// The listing of a tree, parent first: four numbers a node, and the particle numbers of the chains in that order.
#![tactic(auto)]

ghost use Rattle.std.specs.Prelude.{◌≡◌, List, [], ◌∷◌, ℕ, ◌+◌, ◌-◌, ◌*◌, ◌≤◌, length, replicate};
ghost use Rattle.rules.specs.declared.Extent.{Extent};
ghost use Rattle.rules.specs.Plain.{overwritten, padded};
ghost use Rattle.rules.specs.Tree.{Tree, row, rows_from, rows_of, flat, chains_of, row_numbers};
ghost use Rattle.tree_rows.specs.List.{ListableChain, ListableLeaf, Listable, RowsWritten, Whole};

use rules::ROW_NUMBERS;
use tree_slots::Quadtree;
use tree_slots::store::{children, tag};

const INTERNAL: u32 = 1;

const LEAF: u32 = 2;

// How many nodes are listed, and how many particles.
#[derive(Clone, Copy)]
struct Cursor {
    nodes: usize,
    chained: usize,
}

// Row n.
fn put_row(rows: &mut [u32], n: usize, level: u32, quadrant: u32, kind: u32, chain: u32)
    requires { (n + 1) * row_numbers ≤ length rows.old }
    ensures { rows.new ≡ overwritten rows.old (n * row_numbers) (flat (row level quadrant kind chain ∷ [])) }
{
    let start = n * ROW_NUMBERS;
    rows[start..start + ROW_NUMBERS].copy_from_slice(&[level, quadrant, kind, chain]);
}

// The particles from the number p on: 0 for the end, i + 1 for the particle i. Answers where the next chain begins.
fn put_chain(next: &[u32], p: u32, chains: &mut [u32], at: usize) -> usize
    requires { (is : List ℕ) × ListableChain next.now p (length chains.old) at is }
    ensures { (is : List ℕ) → ListableChain next.now p (length chains.old) at is
        → (chains.new ≡ overwritten chains.old at is) × (result ≡ at + length is) }
{
    let mut link = p;
    let mut end = at;
    while let Some(i) = link.checked_sub(1) {
        chains[end] = i;
        link = next[i as usize];
        end += 1;
    }
    end
}

// The chain first: its length goes into the row.
fn list_leaf(
    next: &[u32],
    p: u32,
    level: u32,
    quadrant: u32,
    rows: &mut [u32],
    chains: &mut [u32],
    at: Cursor,
) -> Cursor
    requires { (is : List ℕ) × ListableLeaf next.now p (length rows.old) (length chains.old) at is }
    ensures { (is : List ℕ) → ListableLeaf next.now p (length rows.old) (length chains.old) at is
        → RowsWritten rows.old chains.old at (row level quadrant 2 (length is) ∷ []) is
        rows.new chains.new result }
{
    let end = put_chain(next, p, chains, at.chained);
    put_row(
        rows,
        at.nodes,
        level,
        quadrant,
        LEAF,
        (end - at.chained) as u32,
    );
    Cursor {
        nodes: at.nodes + 1,
        chained: end,
    }
}

// The tree that p leads to.
fn list_node(
    m: &[u64],
    next: &[u32],
    p: u32,
    level: u32,
    quadrant: u32,
    rows: &mut [u32],
    chains: &mut [u32],
    at: Cursor,
) -> Cursor
    requires { (t : Tree ℕ) × Listable m.now next.now p level (length rows.old) (length chains.old) at t }
    ensures { (t : Tree ℕ) → Listable m.now next.now p level (length rows.old) (length chains.old) at t
        → RowsWritten rows.old chains.old at (rows_from level quadrant t) (chains_of t)
        rows.new chains.new result }
{
    let Some(s) = p.checked_sub(1) else {
        return at;
    };
    let first = tag(m, s as usize);
    if first != 0 {
        return list_leaf(next, first as u32, level, quadrant, rows, chains, at);
    }
    put_row(rows, at.nodes, level, quadrant, INTERNAL, 0);
    let mut end = Cursor {
        nodes: at.nodes + 1,
        ..at
    };
    let below = children(m, s as usize);
    for (i, child) in below.iter().enumerate() {
        end = list_node(m, next, *child, level + 1, i as u32, rows, chains, end);
    }
    end
}

// From place `from` on, zeros.
fn clear_from(list: &mut [u32], from: usize)
    requires { from ≤ length list.old }
    ensures { list.new ≡ overwritten list.old from (replicate (length list.old - from) 0) }
{
    list[from..].fill(0);
}

// A whole tree. What its rows and its chains leave unused becomes zero.
pub fn list(q: Quadtree, m: &[u64], next: &[u32], rows: &mut [u32], chains: &mut [u32])
    requires { (t : Tree Extent) × Whole t m.now next.now q (length rows.old) (length chains.old) }
    ensures { (t : Tree Extent) → Whole t m.now next.now q (length rows.old) (length chains.old)
        → (rows.new ≡ padded (length rows.old) 0 (flat (rows_of t)))
        × (chains.new ≡ padded (length chains.old) 0 (chains_of t)) }
{
    let from = Cursor {
        nodes: 0,
        chained: 0,
    };
    let end = list_node(m, next, q.root, 0, 0, rows, chains, from);
    clear_from(rows, q.nodes * ROW_NUMBERS);
    clear_from(chains, end.chained);
}
