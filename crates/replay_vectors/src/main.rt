// Runs stored roots and floors through `square_root` and `number`, and writes how many of how many are right.
#![tactic(auto)]

mod floors;
mod roots;

fn right_roots(values: &[u64], roots: &[u64]) -> usize {
    values
        .iter()
        .zip(roots)
        .filter(|(value, root)| square_root::root_bits(**value) == **root)
        .count()
}

// whether the floor of a pattern is answered by this value, or by this refusal number at place 0
fn answers(pattern: u64, number: u64, floor: i64) -> bool {
    match number::try_floor(number::float_of(pattern)) {
        Ok(value) => number == 0 && value == floor,
        Err(refusal) => refusal.number == number && refusal.place == 0 && floor == 0,
    }
}

fn right_floors(numbers: &[u64], refusals: &[u64], floors: &[i64]) -> usize {
    numbers
        .iter()
        .zip(refusals)
        .zip(floors)
        .filter(|((number, refusal), floor)| answers(**number, **refusal, **floor))
        .count()
}

fn report(right: usize, all: usize, what: &[u8]) {
    io::print_decimal(1, right as u64);
    io::write_all(1, b" of ");
    io::print_decimal(1, all as u64);
    io::write_all(1, what);
}

fn main() {
    report(
        right_roots(&roots::VALUES, &roots::ROOTS),
        roots::VALUES.len(),
        b" roots right\n",
    );
    report(
        right_floors(&floors::NUMBERS, &floors::REFUSALS, &floors::FLOORS),
        floors::NUMBERS.len(),
        b" floors right\n",
    );
}
