// Cases of a tick and of a step. Parts: 1 the answer; 2 alpha, target, alpha_decay, velocity_decay, alpha_min, budget, alpha after; 3 the sheet and 4 the sheet after; 5 the words of
// the force slots; 6 their numbers; 7 their link ends; 8 the draws; 9 and 10 the work slots. A tick has 0 where only a step has a number.
use crate::{DRAWS, SLOTS};
use number::float_of;
use replay_sample::{argument, read, same};
use rules::{FORCE_WORDS, MOST_PARTICLES, RECORD_SIZE, SLOT_WORDS, Settings, StepAnswer};
use tick_call::settings_of;

fn settings(case: &[u8]) -> Settings {
    settings_of(
        float_of(argument(case, 1)),
        float_of(argument(case, 2)),
        float_of(argument(case, 3)),
    )
}

fn ended_right(case: &[u8], a: StepAnswer, alpha: u64, sheet: &[u8], work: &[u64]) -> bool {
    let r = a.refusal;
    let answer = [r.number, r.place, a.ticks, a.finished, a.visits, a.draws];
    alpha == argument(case, 6)
        && same(case, 1, &answer)
        && same(case, 4, sheet)
        && same(case, 10, work)
}

// Room for one particle too many.
pub fn sheet_is_right<
    F: FnOnce(
        &mut [u8],
        &mut u64,
        &[u64; FORCE_WORDS],
        &[f64],
        &[u32],
        &[f64],
        Settings,
        &mut [u64],
    ) -> StepAnswer,
>(case: &[u8], call: F) -> bool
    requires { F.IsAlwaysCallable call }
{
    let mut sheet_room = [0; RECORD_SIZE * (MOST_PARTICLES + 1)];
    let mut words = [0; FORCE_WORDS];
    let mut numbers_room = [0.0; 256];
    let mut links_room = [0; 256];
    let mut draws_room = [0.0; DRAWS];
    let mut work_room = [0; SLOT_WORDS * SLOTS];
    let sheet = read(case, 3, &mut sheet_room);
    read(case, 5, &mut words);
    let numbers = read(case, 6, &mut numbers_room);
    let links = read(case, 7, &mut links_room);
    let draws = read(case, 8, &mut draws_room);
    let work = read(case, 9, &mut work_room);
    let mut alpha = argument(case, 0);
    let a = call(
        sheet,
        &mut alpha,
        &words,
        numbers,
        links,
        draws,
        settings(case),
        work,
    );
    ended_right(case, a, alpha, sheet, work)
}

pub fn tick_is_right(case: &[u8]) -> bool {
    sheet_is_right(
        case,
        |sheet, alpha, words, numbers, links, draws, s, work| {
            let a = tick_call::tick(sheet, alpha, words, numbers, links, draws, s, work);
            StepAnswer {
                refusal: a.refusal,
                ticks: 0,
                finished: 0,
                visits: a.visits,
                draws: a.draws,
            }
        },
    )
}
