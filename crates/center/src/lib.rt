// center.rs: the mean of all places is drawn to a point.
#![tactic(auto)]

ghost use Rattle.std.specs.Prelude.{◌≡◌, List, ◌*◌, ◌%◌, ◌≤◌, length};
ghost use Rattle.rules.specs.Plain.{foldl};
ghost use Rattle.rules.specs.Number.{◌⊕◌, 0·};
ghost use Rattle.rules.specs.Refusal.{most_particles};
ghost use Rattle.rules.specs.Sheet.{places_of};
ghost use Rattle.rules.specs.Particle as Rule;
ghost use Rattle.rules.specs.declared.Particle as P;
ghost use Rattle.center.specs.Pairs.{column, shifted_pairs, pair, added_to, offsets_of};

use rules::Particle;

// A number for each axis: sums of places, and how far to move back.
#[derive(Clone, Copy)]
pub struct Pair {
    pub x: f64,
    pub y: f64,
}

// One particle, moved back by a shift; its velocity stays.
#[tactic(auto, unfolding(rules::specs::Particle::shifted))]
pub fn shifted(sx: f64, sy: f64, p: Particle) -> Particle
    ensures { result ≡ Rule.shifted sx sy p }
{
    Particle {
        x: p.x - sx,
        y: p.y - sy,
        vx: p.vx,
        vy: p.vy,
        flags: p.flags,
    }
}

// The sums with one place more.
pub fn added(sums: Pair, x: f64, y: f64) -> Pair
    ensures { result ≡ added_to sums x y }
{
    Pair {
        x: sums.x + x,
        y: sums.y + y,
    }
}

// How far the mean of n places lies from x, y, times the strength.
pub fn offsets(sums: Pair, n: usize, x: f64, y: f64, strength: f64) -> Pair
    requires { n ≤ most_particles }
    ensures { result ≡ offsets_of sums n x y strength }
{
    let count = n as f64;
    Pair {
        x: (sums.x / count - x) * strength,
        y: (sums.y / count - y) * strength,
    }
}

// The sums of all places, from the left.
fn summed(places: &[f64]) -> Pair
    ensures { result ≡ pair (foldl ◌⊕◌ 0· (column 0 places.now)) (foldl ◌⊕◌ 0· (column 1 places.now)) }
{
    let mut sums = Pair { x: 0.0, y: 0.0 };
    for place in places.chunks_exact(2) {
        sums = added(sums, place[0], place[1]);
    }
    sums
}

// Every place, moved back by a shift.
fn shift_all(shift: Pair, places: &mut [f64])
    requires { length places.old % 2 ≡ 0 }
    ensures { places.new ≡ shifted_pairs shift.x shift.y places.old }
{
    // By number: a proof knows nothing of what is written through a chunk that is lent.
    for i in 0..places.len() / 2 {
        places[i * 2] -= shift.x;
        places[i * 2 + 1] -= shift.y;
    }
}

// Of any particles with these places: no other number of a particle is looked at or changed.
pub fn center_all(x: f64, y: f64, strength: f64, places: &mut [f64])
    requires { (length places.old % 2 ≡ 0) × (length places.old ≤ 2 * most_particles) }
    ensures { (ps : List P.Particle) → places_of ps ≡ places.old → places.new ≡ places_of (Rule.centered x y strength ps) }
{
    let shift = offsets(summed(places), places.len() / 2, x, y, strength);
    shift_all(shift, places);
}
