// What a call of a tick or a step answers and leaves once its ticks have run by columns.
ghost use Rattle.std.specs.Prelude.{◌≡◌};
ghost use Rattle.tick_columns.specs.Columns.{Writable};
ghost use Rattle.tick_close.specs.Settled.{TickSettled, no_ticks, StepSettled};

use crate::Stepped;
use force_call::{counted, refused};
use number::bits_of;
use rules::{Counts, Progress, Refusal, StepAnswer};
use tick_columns::write_columns;

// Sheet and alpha are written only where the tick is not refused. The work slots are zero in any case.
pub fn settle_tick(
    sheet: &mut [u8],
    alpha: &mut u64,
    places: &[f64],
    speeds: &[f64],
    ran: Result<Progress, Refusal>,
    work: &mut [u64],
) -> Counts
    requires { Writable sheet.old places.now speeds.now }
    ensures { TickSettled ran places.now speeds.now sheet.old alpha.old work.old
        result sheet.new alpha.new work.new }
{
    tree_slots::store::clear(work);
    match ran {
        Err(refusal) => refused(refusal),
        Ok(p) => {
            write_columns(sheet, places, speeds);
            *alpha = bits_of(p.alpha);
            counted(p)
        }
    }
}

// A refusal's answer: no tick, and all counts zero.
pub fn refused_step(refusal: Refusal) -> StepAnswer
    ensures { result ≡ no_ticks refusal }
{
    StepAnswer {
        refusal,
        ticks: 0,
        finished: 0,
        visits: 0,
        draws: 0,
    }
}

// What the ticks left is written, also where one that was refused ended them. The work slots are zero in any case.
pub fn settle_step(
    sheet: &mut [u8],
    alpha: &mut u64,
    places: &[f64],
    speeds: &[f64],
    stepped: Stepped,
    alpha_min: f64,
    work: &mut [u64],
) -> StepAnswer
    requires { Writable sheet.old places.now speeds.now }
    ensures { StepSettled stepped alpha_min places.now speeds.now sheet.old work.old
        result sheet.new alpha.new work.new }
{
    tree_slots::store::clear(work);
    write_columns(sheet, places, speeds);
    let p = stepped.progress;
    *alpha = bits_of(p.alpha);
    StepAnswer {
        refusal: Refusal::from(stepped.end),
        ticks: stepped.ticks,
        finished: u64::from(p.alpha <= alpha_min),
        visits: p.visits,
        draws: p.used as u64,
    }
}
