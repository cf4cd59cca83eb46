// The calls on a surface. A record has the surface, the rest of what is asked, then the answer.
ghost use Rattle.std.specs.Prelude.{◌≡◌, ◌*◌, ◌≤◌, length};

use crate::inversions::{of_derivative, of_invert};
use crate::kinds;
use crate::rows::of_row;
use crate::singular::of_singular;
use crate::surfaces::of_evaluate;
use cursor::Cursor;
use surface_records::lent_surface;
use tally::Comparison;

// A call is handed the surface, the record's numbers, which it is lent from, and the words that follow it.
pub fn of_surface(
    kind: u64,
    words: &[u64],
    bytes: &[u8],
    numbers: &[f64],
    copy: &mut [f64],
    ends: &mut [u8],
) -> Comparison
    requires { (length words.now ≤ 4094) × (length bytes.now ≡ 8 * length words.now) × (length numbers.now ≡ length words.now) × (length copy.old ≡ length words.now) × (length ends.old ≡ 8 * length words.now) }
{
    let lent = lent_surface(Cursor::start(), words);
    let window = lent.window;
    let c = window.next;
    let at = c.at;
    if !c.sound {
        return Comparison::Unread;
    }
    let asked = &words[at..];
    match kind {
        kinds::EVALUATE => of_evaluate(lent, numbers, asked, &numbers[at..]),
        kinds::INVERT => of_invert(lent, numbers, asked),
        kinds::DERIVATIVE => of_derivative(lent, numbers, asked),
        kinds::NURBS_SINGULAR => of_singular(lent, numbers, asked),
        kinds::ROW => of_row(
            lent,
            numbers,
            asked,
            &bytes[8 * at..],
            &numbers[at..],
            &mut copy[at..],
            &mut ends[8 * at..],
        ),
        _ => Comparison::Unread,
    }
}
