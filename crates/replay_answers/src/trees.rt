// Cases of the tree. Parts: 1 the answer; 2 the sheet; 3 the rows and 4 the rows after; 5 and 6 the chains; 7 and 8 the work slots.
use crate::SLOTS;
use number::bits_of;
use replay_sample::{read, same};
use rules::{MOST_PARTICLES, RECORD_SIZE, ROW_NUMBERS, SLOT_WORDS, TreeAnswer};

fn ended_right(case: &[u8], a: TreeAnswer, rows: &[u32], chains: &[u32], work: &[u64]) -> bool {
    let r = a.refusal;
    let e = a.extent;
    let answer = [
        r.number,
        r.place,
        a.nodes,
        bits_of(e.x0),
        bits_of(e.y0),
        bits_of(e.x1),
        bits_of(e.y1),
    ];
    same(case, 1, &answer) && same(case, 4, rows) && same(case, 6, chains) && same(case, 8, work)
}

// Room for one particle too many.
pub fn tree_is_right(case: &[u8]) -> bool {
    let mut sheet_room = [0; RECORD_SIZE * (MOST_PARTICLES + 1)];
    let mut rows_room = [0; ROW_NUMBERS * SLOTS];
    let mut chains_room = [0; MOST_PARTICLES + 1];
    let mut work_room = [0; SLOT_WORDS * SLOTS];
    let sheet = read(case, 2, &mut sheet_room);
    let rows = read(case, 3, &mut rows_room);
    let chains = read(case, 5, &mut chains_room);
    let work = read(case, 7, &mut work_room);
    let a = tree_call::tree(sheet, rows, chains, work);
    ended_right(case, a, rows, chains, work)
}
