// The program recenter: reads a sheet from standard input, runs as many ticks as its argument says with Center in force slot 0, and writes the sheet.
#![tactic(auto)]

ghost use Rattle.std.specs.Prelude.{◌≡◌, ◌≤◌, min, length, IfSome};
ghost use Rattle.recenter_call.specs.Recentered.{kept_bytes};

use recenter_call::{KEPT_BYTES, recenter, ticks_of};
use sheet_input::total_of;
use std::env::FillError;
use std::rt::Env;

const STDIN_FILENO: i32 = 0;

const STDOUT_FILENO: i32 = 1;

const STDERR_FILENO: i32 = 2;

// Where a page of memory has 4 KiB, as on x86-64, no argument on Linux is longer.
const ARGUMENT_BYTES: usize = 131072;

fn say_usage() {
    io::write_all(
        STDERR_FILENO,
        b"usage: recenter TICKS, a whole number; a sheet goes from standard input to standard output\n",
    );
}

fn say_refused(number: u64) {
    io::write_all(STDERR_FILENO, b"refused ");
    io::print_decimal(STDERR_FILENO, number);
    io::write_all(STDERR_FILENO, b"\n");
}

// Accepted, the whole input is kept, and the sheet takes its place.
fn recenter_kept(kept: &mut [u8], total: usize, ticks: u64)
    requires { length kept.old ≡ min total kept_bytes }
{
    match recenter(kept, total, ticks) {
        Ok(()) => {
            io::write_all(STDOUT_FILENO, kept);
        }
        Err(refusal) => say_refused(refusal.number),
    }
}

fn recenter_input(kept: &mut [u8], ticks: u64)
    requires { length kept.old ≡ kept_bytes }
{
    let n = io::read_full(STDIN_FILENO, kept);
    let total = total_of(n, KEPT_BYTES);
    recenter_kept(&mut kept[..n], total, ticks);
}

// The first argument, which a buffer has room for: none where it is missing or too long.
fn first_argument<'a>(rt: &impl Env, room: &'a mut [u8]) -> Option<&'a [u8]>
    ensures { IfSome result (λ text. length text.now ≤ length room.old) }
{
    let n = rt.arg(1, room).ok()?;
    Some(&room[..n])
}

// No room is lent for it, so a second argument that isn't empty is too long.
fn has_second_argument(rt: &impl Env) -> bool {
    !matches!(rt.arg(2, &mut []), Err(FillError::NotPresent))
}

// One argument and no more, beside the program's own name.
fn recenter_asked(rt: &impl Env, argument: &mut [u8], kept: &mut [u8])
    requires { length kept.old ≡ kept_bytes }
{
    match first_argument(rt, argument).and_then(|text| ticks_of(text)) {
        Some(ticks) if !has_second_argument(rt) => recenter_input(kept, ticks),
        _ => say_usage(),
    }
}

fn main(rt: HostRuntime) {
    let mut argument = [0; ARGUMENT_BYTES];
    let mut kept = [0; KEPT_BYTES];
    recenter_asked(&rt, &mut argument, &mut kept);
}
