// One force slot of a tick: the force of its kind runs, then 9 is tested.
ghost use Rattle.std.specs.Prelude.{◌≡◌, List, ℕ, ◌*◌, ◌/◌, ◌%◌, ◌<◌, ◌≤◌, ◌^◌, length, Float};
ghost use Rattle.rules.specs.Refusal.{most_particles, most_iterations};
ghost use Rattle.rules.specs.Force as Force;
ghost use Rattle.rules.specs.Force.{ends_of};
ghost use Rattle.rules.specs.Calls.{slots_of};
ghost use Rattle.rules.specs.Tick as Rule;
ghost use Rattle.rules.specs.Tick.{force_of, push_stage, force_stage};
ghost use Rattle.rules.specs.declared.Tuning as T;
ghost use Rattle.link.specs.Links.{EndsLent, NumbersLent};
ghost use Rattle.tick_columns.specs.Stage.{columns, ColumnsFit, Chains, EntryFits, StageBy};

use center::center_all;
use collide::collide::collide;
use link::link::link;
use many_body::many_body::many_body;
use rules::{ForceEntry, Kind, Progress, Refusal, Tuning};
use tick_columns::ranged;

// ManyBody, of a strength for each particle. No force looks at a flag, so any flags serve.
fn many_body_stage(
    t: Tuning,
    strengths: &[f64],
    places: &[f64],
    speeds: &mut [f64],
    draws: &[f64],
    p: Progress,
    next: &mut [u32],
    tail: &mut [u32],
    work: &mut [u64],
) -> Result<Progress, Refusal>
    requires { ColumnsFit places.now speeds.old draws.now (length strengths.now) p.used × Chains (length strengths.now) next.old tail.old × (p.visits < 2 ^ 63) }
    ensures { (flags : List ℕ) → length places.now ≡ length flags * 2
        → StageBy (push_stage t (slots_of work.old) (Force.many_body strengths.now))
        (columns places.now speeds.old flags) (columns places.now speeds.new flags) draws.now p result }
{
    let reached = many_body(t, places, speeds, strengths, draws, p, next, tail, work)?;
    ranged(places, speeds, reached)
}

// Collide, of a radius for each particle. It takes no alpha, and no tuning.
fn collide_stage(
    radii: &[f64],
    strength: f64,
    iterations: usize,
    places: &[f64],
    speeds: &mut [f64],
    draws: &[f64],
    p: Progress,
    next: &mut [u32],
    tail: &mut [u32],
    work: &mut [u64],
) -> Result<Progress, Refusal>
    requires { ColumnsFit places.now speeds.old draws.now (length radii.now) p.used × Chains (length radii.now) next.old tail.old
        × (iterations ≤ most_iterations) × (p.visits < 2 ^ 63) }
    ensures { (t : T.Tuning) (flags : List ℕ) → length places.now ≡ length flags * 2
        → StageBy (push_stage t (slots_of work.old) (Force.collide radii.now strength iterations))
        (columns places.now speeds.old flags) (columns places.now speeds.new flags) draws.now p result }
{
    let reached = collide(
        places, speeds, radii, strength, iterations, draws, p, next, tail, work,
    )?;
    ranged(places, speeds, reached)
}

// Link, of its own links, strengths and distances. No tree is built, so any number of slots serves.
fn link_stage(
    links: &[u32],
    strengths: &[f64],
    distances: &[f64],
    iterations: usize,
    places: &[f64],
    speeds: &mut [f64],
    draws: &[f64],
    p: Progress,
) -> Result<Progress, Refusal>
    requires { ColumnsFit places.now speeds.old draws.now (length places.now / 2) p.used
        × EndsLent (length places.now / 2) links.now × NumbersLent links.now strengths.now distances.now }
    ensures { (t : T.Tuning) (flags : List ℕ) (slots : ℕ) → length places.now ≡ length flags * 2
        → StageBy (push_stage t slots (Force.link (ends_of links.now) strengths.now distances.now iterations))
        (columns places.now speeds.old flags) (columns places.now speeds.new flags) draws.now p result }
{
    let reached = link(
        places, speeds, links, strengths, distances, iterations, draws, p,
    )?;
    ranged(places, speeds, reached)
}

// Link with its slot's lists: strengths first, then distances.
fn link_force(
    e: ForceEntry,
    numbers: &[f64],
    links: &[u32],
    places: &[f64],
    speeds: &mut [f64],
    draws: &[f64],
    p: Progress,
) -> Result<Progress, Refusal>
    requires { (e.kind ≡ 3) × EntryFits (length places.now / 2) e numbers.now links.now × ColumnsFit places.now speeds.old draws.now (length places.now / 2) p.used }
    ensures { (t : T.Tuning) (flags : List ℕ) (slots : ℕ) → length places.now ≡ length flags * 2
        → StageBy (λ m. force_stage t slots m (force_of (length flags) e numbers.now links.now))
        (columns places.now speeds.old flags) (columns places.now speeds.new flags) draws.now p result }
{
    let ends = &links[..e.links as usize * 2];
    let (strengths, rest) = numbers.split_at(e.strengths as usize);
    let distances = &rest[..e.links as usize];
    let iterations = e.iterations as usize;
    link_stage(
        ends, strengths, distances, iterations, places, speeds, draws, p,
    )
}

// Center moves places alone: no velocity changes, no draw is used and no node handed out.
fn center_stage(
    x: f64,
    y: f64,
    strength: f64,
    places: &mut [f64],
    speeds: &[f64],
    p: Progress,
) -> Result<Progress, Refusal>
    requires { (length places.old % 2 ≡ 0) × (length places.old ≤ 2 * most_particles) × (length speeds.now ≡ length places.old) }
    ensures { (t : T.Tuning) (flags : List ℕ) (slots : ℕ) (ds : List Float) → p.used ≤ length ds → length places.old ≡ length flags * 2
        → StageBy (λ m. force_stage t slots m (Rule.center x y strength))
        (columns places.old speeds.now flags) (columns places.new speeds.now flags) ds p result }
{
    center_all(x, y, strength, places);
    ranged(places, speeds, p)
}

// The force of a slot, whose lists are the first of what is left. In an empty slot nothing runs; an unknown kind was refused before.
pub fn stage(
    e: ForceEntry,
    numbers: &[f64],
    links: &[u32],
    places: &mut [f64],
    speeds: &mut [f64],
    flags: &[u64],
    t: Tuning,
    draws: &[f64],
    p: Progress,
    next: &mut [u32],
    tail: &mut [u32],
    work: &mut [u64],
) -> Result<Progress, Refusal>
    requires { ColumnsFit places.old speeds.old draws.now (length flags.now) p.used × Chains (length flags.now) next.old tail.old
        × EntryFits (length flags.now) e numbers.now links.now × (p.visits < 2 ^ 63) }
    ensures { StageBy (λ m. force_stage t (slots_of work.old) m (force_of (length flags.now) e numbers.now links.now))
        (columns places.old speeds.old flags.now) (columns places.new speeds.new flags.now) draws.now p result }
{
    let n = flags.len();
    match Kind::from(e.kind) {
        Kind::ManyBody => {
            let strengths = &numbers[..n];
            many_body_stage(t, strengths, places, speeds, draws, p, next, tail, work)
        }
        Kind::Collide => {
            let radii = &numbers[..n];
            let iterations = e.iterations as usize;
            collide_stage(
                radii, e.a, iterations, places, speeds, draws, p, next, tail, work,
            )
        }
        Kind::Link => link_force(e, numbers, links, places, speeds, draws, p),
        Kind::Center => center_stage(e.a, e.b, e.c, places, speeds, p),
        Kind::Empty | Kind::Unknown => Ok(p),
    }
}
