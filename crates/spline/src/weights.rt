// The homogeneous scales of the controls.
ghost use Rattle.std.specs.Prelude.{◌≡◌, ◌&&◌};
ghost use Rattle.std.specs.Float.Ieee.{lt};
ghost use Rattle.float64.specs.Operators.{0·};
ghost use Rattle.float64.specs.Functions.{larger, lesser};
ghost use Rattle.spline.specs.Weights.{weighed};
ghost use Rattle.spline.specs.ExtremeLaws.{Told};

use float64::{is_finite, larger, lesser};

#[derive(Clone, Copy)]
pub enum Weighed {
    // The largest, by which the others are to be divided.
    Scale(f64),
    Refused,
}

// Whether weights are above 0, and then the smallest and the largest of them; of none, an infinity and 0.
#[derive(Clone, Copy)]
struct Extremes {
    above: bool,
    least: f64,
    most: f64,
}

// Two weights more. They are held against each other first, so that what was found before is waited for once and not twice.
fn with_pair(e: Extremes, x: f64, y: f64) -> Extremes
    ensures { (result.above ≡ (e.above && (lt 0· x && lt 0· y))) × (result.least ≡ lesser e.least (lesser x y)) × (result.most ≡ larger e.most (larger x y)) }
{
    Extremes {
        above: e.above & ((0.0 < x) & (0.0 < y)),
        least: lesser(e.least, lesser(x, y)),
        most: larger(e.most, larger(x, y)),
    }
}

fn extremes_of(weights: &[f64]) -> Extremes
    ensures { Told weights.now result.above result.least result.most }
{
    let count = weights.len();
    let mut found = Extremes {
        above: true,
        least: 1.0 / 0.0,
        most: 0.0,
    };
    for i in 0..count / 2 {
        found = with_pair(found, weights[2 * i], weights[2 * i + 1]);
    }
    if count % 2 == 1 {
        let last = weights[count - 1];
        return with_pair(found, last, last);
    }
    found
}

// Every weight must be finite and above 0, and stay above 0 when it is divided by the largest: all are finite where the largest is, and none becomes 0 where the smallest doesn't.
pub fn validate_weights(weights: &[f64]) -> Weighed
    ensures { result ≡ weighed weights.now }
{
    if weights.len() == 0 {
        return Weighed::Refused;
    }
    let found = extremes_of(weights);
    if !(found.above & is_finite(found.most)) {
        return Weighed::Refused;
    }
    if found.least / found.most == 0.0 {
        return Weighed::Refused;
    }
    Weighed::Scale(found.most)
}
