// A tick called on a sheet.
#![tactic(auto)]

ghost use Rattle.std.specs.Prelude.{◌≡◌, ◌*◌, length};
ghost use Rattle.rules.specs.Outcome.{fine};
ghost use Rattle.rules.specs.Sheet.{count_of};
ghost use Rattle.rules.specs.Tick.{settings, sheet_check, tick_settings};
ghost use Rattle.tick_checks.specs.Input.{lent_sheet};
ghost use Rattle.tick_columns.specs.Columns.{ColumnsLent};
ghost use Rattle.tick_call.specs.Tick.{AfterTick};

use force_call::refused;
use many_body::standard;
use number::float_of;
use rules::{Counts, FORCE_WORDS, MOST_PARTICLES, Progress, RECORD_SIZE, Settings};
use tick::{Turn, tick_on};
use tick_checks::tick_check;
use tick_close::settle::settle_tick;
use tick_columns::read_columns;

// A tick's settings, with ManyBody tuned as it is by itself.
pub fn settings_of(target: f64, alpha_decay: f64, velocity_decay: f64) -> Settings
    ensures { result ≡ settings target alpha_decay velocity_decay }
{
    Settings {
        target,
        alpha_decay,
        velocity_decay,
        tuning: standard(),
    }
}

// With lists for the particles by columns, and with chains of its own. Every check is past.
fn on_columns(
    sheet: &mut [u8],
    alpha: &mut u64,
    words: &[u64; FORCE_WORDS],
    numbers: &[f64],
    links: &[u32],
    draws: &[f64],
    s: Settings,
    places: &mut [f64],
    speeds: &mut [f64],
    flags: &mut [u64],
    home: &mut [f64],
    work: &mut [u64],
) -> Counts
    requires s_value { let l = lent_sheet sheet.old alpha.old words.now numbers.now links.now draws.now work.old in
        sheet_check l fine (tick_settings l s) ≡ fine }
    requires columns_lent { ColumnsLent (count_of sheet.old) places.old speeds.old flags.old × (length home.old ≡ count_of sheet.old * 2) }
    ensures { let l = lent_sheet sheet.old alpha.old words.now numbers.now links.now draws.now work.old in
        AfterTick l s result sheet.new alpha.new work.new }
{
    let n = sheet.len() / RECORD_SIZE;
    let mut next = [0u32; MOST_PARTICLES];
    let mut tail = [0u32; MOST_PARTICLES];
    read_columns(sheet, places, speeds, flags);
    home.copy_from_slice(places);
    let turn = Turn {
        settings: s,
        progress: Progress::begin(float_of(*alpha)),
    };
    let ran = tick_on(
        words,
        numbers,
        links,
        home,
        places,
        speeds,
        flags,
        turn,
        draws,
        &mut next[..n],
        &mut tail[..n],
        work,
    );
    settle_tick(sheet, alpha, places, speeds, ran, work)
}

// The same with lists of its own.
fn with_lists(
    sheet: &mut [u8],
    alpha: &mut u64,
    words: &[u64; FORCE_WORDS],
    numbers: &[f64],
    links: &[u32],
    draws: &[f64],
    s: Settings,
    work: &mut [u64],
) -> Counts
    requires { let l = lent_sheet sheet.old alpha.old words.now numbers.now links.now draws.now work.old in
        sheet_check l fine (tick_settings l s) ≡ fine }
    ensures { let l = lent_sheet sheet.old alpha.old words.now numbers.now links.now draws.now work.old in
        AfterTick l s result sheet.new alpha.new work.new }
{
    let n = sheet.len() / RECORD_SIZE;
    let pairs = n * 2;
    let mut places = [0.0f64; 2 * MOST_PARTICLES];
    let mut speeds = [0.0f64; 2 * MOST_PARTICLES];
    let mut home = [0.0f64; 2 * MOST_PARTICLES];
    let mut flags = [0u64; MOST_PARTICLES];
    on_columns(
        sheet,
        alpha,
        words,
        numbers,
        links,
        draws,
        s,
        &mut places[..pairs],
        &mut speeds[..pairs],
        &mut flags[..n],
        &mut home[..pairs],
        work,
    )
}

// Any bytes, words and numbers may come in. `words` are those of the eight force slots, whose numbers and links lie one after another.
pub fn tick(
    sheet: &mut [u8],
    alpha: &mut u64,
    words: &[u64; FORCE_WORDS],
    numbers: &[f64],
    links: &[u32],
    draws: &[f64],
    s: Settings,
    work: &mut [u64],
) -> Counts
    ensures { let l = lent_sheet sheet.old alpha.old words.now numbers.now links.now draws.now work.old in
        AfterTick l s result sheet.new alpha.new work.new }
{
    match tick_check(sheet, words, numbers, links, draws, float_of(*alpha), s) {
        Err(refusal) => refused(refusal),
        Ok(()) => with_lists(sheet, alpha, words, numbers, links, draws, s, work),
    }
}
