// The entries for a host: numbers and slices in, a struct out. Each only calls the function that does the work, a tick and a step with their numbers as settings, and says the same of it; Center, the closing move, the writer and the reader of records do it themselves, on a lent list of particles.
// What follows from these promises, for any bytes, is shown in proofs/Theorems.
#![tactic(auto)]

mod applying;
mod centring;
mod changing;
mod check;
mod reading;
mod writing;

ghost use Rattle.std.specs.Prelude.{◌≡◌};
ghost use Rattle.rules.specs.Floor.{floor_answer};
ghost use Rattle.rules.specs.Root.{root_bits};
ghost use Rattle.rules.specs.Refusal.{most_particles};
ghost use Rattle.rules.specs.Calls.{tree_result, many_body_result, collide_result, link_result};
ghost use Rattle.rules.specs.Tick.{settings};
ghost use Rattle.tick_checks.specs.Input.{lent_sheet};
ghost use Rattle.tick_call.specs.Tick.{AfterTick};
ghost use Rattle.step_call.specs.Step.{AfterStep};
ghost use Rattle.tree_call.specs.Tree as Tree;
ghost use Rattle.edits_call.specs.Call as Edits;
ghost use Rattle.outline.specs.Unwrap.{lent_outline, Unwrapped};
ghost use Rattle.force_call.specs.Calls.{lent, AfterForce};

pub use applying::talemiku_apply_velocities;
pub use centring::talemiku_center;
pub use reading::talemiku_read;
use rules::{Counts, FORCE_WORDS, FloorAnswer, Refusal, StepAnswer, TreeAnswer};
use tick_call::settings_of;
pub use writing::talemiku_write;

// The floor as a whole number, or refusal 4.
#[tactic(auto, unfolding(rules::specs::Floor::floor_answer))]
#[unsafe(no_mangle)]
pub extern "C" fn talemiku_floor(x: f64) -> FloorAnswer
    ensures { result ≡ floor_answer x }
{
    match number::try_floor(x) {
        Ok(value) => FloorAnswer {
            refusal: Refusal::none(),
            value,
        },
        Err(refusal) => FloorAnswer { refusal, value: 0 },
    }
}

// The correctly rounded square root, from bits to bits.
#[unsafe(no_mangle)]
pub extern "C" fn talemiku_root(bits: u64) -> u64
    ensures { result ≡ root_bits bits }
{
    square_root::root_bits(bits)
}

// The tree of a sheet: four numbers a node into `rows`, the numbers of the chains into `chains`. Eight words of `work` are a slot, `rows` has four numbers for each slot, `chains` one for each particle.
#[unsafe(no_mangle)]
pub extern "C" fn talemiku_tree(
    records: &[u8],
    rows: &mut [u32],
    chains: &mut [u32],
    work: &mut [u64],
) -> TreeAnswer
    ensures { let l = Tree.lent records.now rows.old chains.old work.old in
        Tree.AfterTree l (tree_result most_particles l) result rows.new chains.new work.new }
{
    tree_call::tree(records, rows, chains, work)
}

// ManyBody on plain lists: places in pairs, velocities in pairs from byte `start` of the buffer on, a strength for each particle.
#[unsafe(no_mangle)]
pub extern "C" fn talemiku_many_body(
    places: &[f64],
    buffer: &mut [u8],
    start: usize,
    strengths: &[f64],
    alpha: f64,
    draws: &[f64],
    work: &mut [u64],
) -> Counts
    ensures { let l = lent places.now buffer.old start draws.now work.old in
        AfterForce l (many_body_result l strengths.now alpha) result buffer.new work.new }
{
    many_body_call::many_body_call(places, buffer, start, strengths, alpha, draws, work)
}

// Collide on plain lists, with a radius for each particle.
#[unsafe(no_mangle)]
pub extern "C" fn talemiku_collide(
    places: &[f64],
    buffer: &mut [u8],
    start: usize,
    radii: &[f64],
    strength: f64,
    iterations: usize,
    draws: &[f64],
    work: &mut [u64],
) -> Counts
    ensures { let l = lent places.now buffer.old start draws.now work.old in
        AfterForce l (collide_result l radii.now strength iterations) result buffer.new work.new }
{
    collide_call::collide_call(
        places, buffer, start, radii, strength, iterations, draws, work,
    )
}

// Link on plain lists, with ends of links in pairs, strengths (none for the default) and distances.
#[unsafe(no_mangle)]
pub extern "C" fn talemiku_link(
    places: &[f64],
    buffer: &mut [u8],
    start: usize,
    links: &[u32],
    strengths: &[f64],
    distances: &[f64],
    iterations: usize,
    alpha: f64,
    draws: &[f64],
    work: &mut [u64],
) -> Counts
    ensures { let l = lent places.now buffer.old start draws.now work.old in
        AfterForce l (link_result l links.now strengths.now distances.now iterations alpha) result buffer.new work.new }
{
    link_call::link_call(
        places, buffer, start, links, strengths, distances, iterations, alpha, draws, work,
    )
}

// One tick of a sheet. Alpha is lent as the word of its bits; `words` are eight entries of seven words, one for each force slot, whose numbers and link ends lie one after another. An entry: its kind (0 empty, 1 ManyBody, 2 Collide,
// 3 Link, 4 Center), iterations, links, link strengths, and three settings as bits (Collide: its strength; Center: x, y, strength).
#[unsafe(no_mangle)]
pub extern "C" fn talemiku_tick(
    sheet: &mut [u8],
    alpha: &mut u64,
    words: &[u64; FORCE_WORDS],
    numbers: &[f64],
    links: &[u32],
    draws: &[f64],
    target: f64,
    alpha_decay: f64,
    velocity_decay: f64,
    work: &mut [u64],
) -> Counts
    ensures { let l = lent_sheet sheet.old alpha.old words.now numbers.now links.now draws.now work.old in
        AfterTick l (settings target alpha_decay velocity_decay) result sheet.new alpha.new work.new }
{
    let s = settings_of(target, alpha_decay, velocity_decay);
    tick_call::tick(sheet, alpha, words, numbers, links, draws, s, work)
}

// Ticks of a sheet while alpha is over `alpha_min`, at most `budget`.
#[unsafe(no_mangle)]
pub extern "C" fn talemiku_step(
    sheet: &mut [u8],
    alpha: &mut u64,
    words: &[u64; FORCE_WORDS],
    numbers: &[f64],
    links: &[u32],
    draws: &[f64],
    target: f64,
    alpha_decay: f64,
    velocity_decay: f64,
    alpha_min: f64,
    budget: u64,
    work: &mut [u64],
) -> StepAnswer
    ensures { let l = lent_sheet sheet.old alpha.old words.now numbers.now links.now draws.now work.old in
        AfterStep l (settings target alpha_decay velocity_decay) alpha_min budget result sheet.new alpha.new work.new }
{
    let s = settings_of(target, alpha_decay, velocity_decay);
    step_call::step(
        sheet, alpha, words, numbers, links, draws, s, alpha_min, budget, work,
    )
}

// An outline in longitudes of 1e-7 degree, unwrapped the short way round: the first corner against `centre`, each later one against the one before. The first places of `unwrapped` take the numbers.
#[unsafe(no_mangle)]
pub extern "C" fn talemiku_unwrap(corners: &[i64], centre: i64, unwrapped: &mut [i64]) -> Refusal
    ensures { Unwrapped (lent_outline corners.now centre unwrapped.old) result unwrapped.new }
{
    Refusal::from(outline::unwrap(corners, centre, unwrapped))
}

// The tree that a list of edits leaves: an edit is three words, 0 and the bits of a point to insert, or 1, the number of an earlier insertion to remove and a word that isn't looked at. `rows` and `work` are as for a tree, `chains` has one number for each insertion.
#[unsafe(no_mangle)]
pub extern "C" fn talemiku_edits(
    edits: &[u64],
    rows: &mut [u32],
    chains: &mut [u32],
    work: &mut [u64],
) -> TreeAnswer
    ensures { Edits.AfterEdits (Edits.lent edits.now rows.old chains.old work.old) result rows.new chains.new work.new }
{
    edits_call::edits(edits, rows, chains, work)
}
