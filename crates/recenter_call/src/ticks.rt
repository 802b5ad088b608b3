// The number of ticks that an argument says.
ghost use Rattle.std.specs.Prelude.{◌≡◌, true, ◌≤◌, min};
ghost use Rattle.recenter_call.specs.Ticks.{is_digit, with_digit, most_asked, ticks_of};

use rules::MOST_TICKS;

// More ticks than these are refused alike, so a number is cut there and never wraps.
const MOST_ASKED: u64 = MOST_TICKS as u64 + 1;

fn is_digit(b: u8) -> bool
    ensures { result ≡ is_digit b }
{
    b.is_ascii_digit()
}

// A number with one digit more, cut.
fn with_digit(ticks: u64, b: u8) -> u64
    requires { (ticks ≤ most_asked) × (is_digit b ≡ true) }
    ensures { result ≡ min (with_digit ticks b) most_asked }
{
    let more = ticks * 10 + u64::from(b - b'0');
    more.min(MOST_ASKED)
}

// One or more decimal digits, and nothing else.
pub fn ticks_of(text: &[u8]) -> Option<u64>
    ensures { result ≡ ticks_of text.now }
{
    let mut ticks = 0;
    for b in text {
        if !is_digit(*b) {
            return None;
        }
        ticks = with_digit(ticks, *b);
    }
    (!text.is_empty()).then_some(ticks)
}
