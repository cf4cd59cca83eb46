// The checks of a surface, and whether the sizes of its numbers rule an overflow out.
ghost use Rattle.std.specs.Prelude.{◌≡◌, true, ℕ, ◌<◌, length, get_or};
ghost use Rattle.std.specs.Float.{nan};
ghost use Rattle.float64.specs.Magnitude.{Mag};
ghost use Rattle.surface.specs.Lent.{at_entry};
ghost use Rattle.scaled.specs.Accepted.{AcceptedAs};

use crate::{Acceptance, Accepted};
use bound::bounded;
use domain::{Shape, window_of};
use surface::{Checked, check};

// 2^100.
const MOST_SIZE: f64 = 1.2676506002282294e30;

// By two comparisons, which are made of several at a time.
fn all_within(controls: &[f64]) -> bool
    ensures { result ≡ true → (n : ℕ) → n < length controls.now → Mag 1174 (get_or controls.now n nan) }
{
    let mut all = true;
    for i in 0..controls.len() {
        let x = controls[i];
        all = all & (-MOST_SIZE <= x) & (x <= MOST_SIZE);
    }
    all
}

// Every other call takes what this one answers. Where `bounded` is false is left open: it is true only where the sizes of the numbers rule an overflow out.
pub fn accept(shape: Shape, ku: &[f64], kv: &[f64], controls: &[f64], weights: &[f64]) -> Acceptance
    ensures { AcceptedAs (at_entry shape ku kv controls weights) result }
{
    let checked = check(shape, ku, kv, controls, weights);
    match checked {
        Checked::Refusal(n) => Acceptance::Refusal(n),
        Checked::Scale(largest) => {
            let window = window_of(shape, ku, kv);
            Acceptance::Accepted(Accepted {
                shape,
                window,
                largest,
                bounded: bounded(ku) & bounded(kv) & all_within(controls),
            })
        }
    }
}
