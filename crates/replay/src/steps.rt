// Cases of a step, which have what a tick's have.
use number::float_of;
use replay_answers::sheet_is_right;
use replay_sample::argument;

pub fn step_is_right(case: &[u8]) -> bool {
    let alpha_min = float_of(argument(case, 4));
    let budget = argument(case, 5);
    sheet_is_right(
        case,
        |sheet, alpha, words, numbers, links, draws, s, work| {
            step_call::step(
                sheet, alpha, words, numbers, links, draws, s, alpha_min, budget, work,
            )
        },
    )
}
