// Cases of floor and root. Parts: 1 the answer, 2 the number's bits.
use number::{bits_of, float_of, try_floor};
use replay_sample::{argument, same};

// The sample has the floor as the bits of the f64 with that value, and 0 of a refusal.
pub fn floor_is_right(case: &[u8]) -> bool {
    let answer = match try_floor(float_of(argument(case, 0))) {
        Ok(floor) => [0, 0, bits_of(std::num::nearest_i64_to_f64(floor))],
        Err(refusal) => [refusal.number, refusal.place, 0],
    };
    same(case, 1, &answer)
}

pub fn root_is_right(case: &[u8]) -> bool {
    same(case, 1, &[square_root::root_bits(argument(case, 0))])
}
