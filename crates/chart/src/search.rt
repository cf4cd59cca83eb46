// What a search is given besides the surface, and the shift of its answer to the hint's turn.
ghost use Rattle.std.specs.Prelude.{◌≡◌};
ghost use Rattle.chart.specs.Chart.{nearest_to, shifted, turned_to, turned, sound_hint, sound_period, sound_terms, sound_search};

use crate::{Period, Terms};
use inversion::{Choice, Hint};
use newton::{End, Iterate};
use vector3::{Vector3, finite_vector};

// The number equal to `value` but for a whole number of periods that is nearest to `hint`.
pub fn nearest(value: f64, hint: f64, period: f64) -> f64
    ensures { result ≡ nearest_to value hint period }
{
    value + period * float64::round((hint - value) / period)
}

fn shift(period: Period, hint: f64, value: f64) -> f64
    ensures { result ≡ shifted period hint value }
{
    match period {
        Period::Free => value,
        Period::Every(p) => nearest(value, hint, p),
    }
}

// Shifted by periods to the hint's turn, as the hint was given. The distance stays.
fn turned_to(hint: Hint, pu: Period, pv: Period, at: Iterate) -> Iterate
    ensures { result ≡ turned_to hint pu pv at }
{
    match hint {
        Hint::Nothing => at,
        Hint::At(u, v) => Iterate {
            u: shift(pu, u, at.u),
            v: shift(pv, v, at.v),
            distance: at.distance,
        },
    }
}

// The pair alone is shifted.
pub(crate) fn turned(terms: Terms, choice: Choice) -> Choice
    ensures { result ≡ turned terms choice }
{
    let hint = terms.hint;
    let pu = terms.u;
    let pv = terms.v;
    let end = choice.end;
    let ending = end.ending;
    let at = turned_to(hint, pu, pv, end.at);
    Choice {
        end: End { at, ending },
        origin: choice.origin,
    }
}

fn sound_hint(hint: Hint) -> bool
    ensures { result ≡ sound_hint hint }
{
    match hint {
        Hint::Nothing => true,
        Hint::At(u, v) => float64::is_finite(u) & float64::is_finite(v),
    }
}

fn sound_period(period: Period) -> bool
    ensures { result ≡ sound_period period }
{
    match period {
        Period::Free => true,
        Period::Every(p) => float64::is_finite(p) & (0.0 < p),
    }
}

// Check 7 of all but the mark. A tolerance of -0 passes.
pub fn sound_terms(terms: Terms) -> bool
    ensures { result ≡ sound_terms terms }
{
    let hint = terms.hint;
    let u = terms.u;
    let v = terms.v;
    sound_hint(hint)
        & (float64::is_finite(terms.tolerance) & (0.0 <= terms.tolerance))
        & sound_period(u)
        & sound_period(v)
}

// Check 7.
pub(crate) fn sound(mark: Vector3, terms: Terms) -> bool
    ensures { result ≡ sound_search mark terms }
{
    finite_vector(mark) & sound_terms(terms)
}
