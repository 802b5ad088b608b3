// Cases of a force alone. Parts: 1 the answer; 2 where the velocities begin, alpha (Collide: its strength), iterations; 3 the places; 4 the draws; 5 the buffer and 6 the buffer after;
// 7 and 8 the work slots; 9 the links; 10 the strengths (Collide: the radii); 11 the distances.
use crate::{DRAWS, SLOTS};
use number::float_of;
use replay_sample::{argument, read, same};
use rules::{Counts, MOST_LINKS, MOST_PARTICLES, PAIR_SIZE, SLOT_WORDS};

// Room for one particle too many, and a strength for each of so many links.
fn force_is_right<F: FnOnce(&[f64], &mut [u8], usize, &[f64], &[f64], &mut [u64]) -> Counts>(
    case: &[u8],
    force: F,
) -> bool
    requires { F.IsAlwaysCallable force }
{
    let mut places_room = [0.0; 2 * (MOST_PARTICLES + 1)];
    let mut buffer_room = [0; PAIR_SIZE * MOST_PARTICLES];
    let mut strengths_room = [0.0; MOST_LINKS + 1];
    let mut draws_room = [0.0; DRAWS];
    let mut work_room = [0; SLOT_WORDS * SLOTS];
    let places = read(case, 3, &mut places_room);
    let buffer = read(case, 5, &mut buffer_room);
    let strengths = read(case, 10, &mut strengths_room);
    let draws = read(case, 4, &mut draws_room);
    let work = read(case, 7, &mut work_room);
    let start = argument(case, 0) as usize;
    let a = force(places, buffer, start, strengths, draws, work);
    let answer = [a.refusal.number, a.refusal.place, a.visits, a.draws];
    same(case, 1, &answer) && same(case, 6, buffer) && same(case, 8, work)
}

// Only Link is lent links and distances: room for one link too many.
pub fn link_is_right(case: &[u8]) -> bool {
    let mut links_room = [0; 2 * (MOST_LINKS + 1)];
    let mut distances_room = [0.0; MOST_LINKS + 1];
    let links = read(case, 9, &mut links_room);
    let distances = read(case, 11, &mut distances_room);
    let alpha = float_of(argument(case, 1));
    let iterations = argument(case, 2) as usize;
    force_is_right(case, |places, buffer, start, strengths, draws, work| {
        link_call::link_call(
            places, buffer, start, links, strengths, distances, iterations, alpha, draws, work,
        )
    })
}

pub fn many_body_is_right(case: &[u8]) -> bool {
    let alpha = float_of(argument(case, 1));
    force_is_right(case, |places, buffer, start, strengths, draws, work| {
        many_body_call::many_body_call(places, buffer, start, strengths, alpha, draws, work)
    })
}

pub fn collide_is_right(case: &[u8]) -> bool {
    let strength = float_of(argument(case, 1));
    let iterations = argument(case, 2) as usize;
    force_is_right(case, |places, buffer, start, radii, draws, work| {
        collide_call::collide_call(
            places, buffer, start, radii, strength, iterations, draws, work,
        )
    })
}
