// The points of the insertions, x and y each, in order.
ghost use Rattle.std.specs.Prelude.{◌≡◌, ◌*◌, length};
ghost use Rattle.rules.specs.Edits.{edits_of, points_of, insertions};

use number::float_of;
use rules::EDIT_WORDS;

pub fn read_points(edits: &[u64], places: &mut [f64])
    requires { length places.old ≡ insertions (edits_of edits.now) * 2 }
    ensures { places.new ≡ points_of (edits_of edits.now) }
{
    let mut i = 0;
    for edit in edits.chunks_exact(EDIT_WORDS) {
        if edit[0] == 0 {
            places[i] = float_of(edit[1]);
            places[i + 1] = float_of(edit[2]);
            i += 2;
        }
    }
}
