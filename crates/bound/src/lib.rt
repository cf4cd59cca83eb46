// Whether knots are such that no number of their basis can overflow.
#![tactic(auto)]

ghost use Rattle.std.specs.Prelude.{◌≡◌, true, ℕ, ◌<◌, length};
ghost use Rattle.spline.specs.Knots.{axis, refusal_of_knots};
ghost use Rattle.basis.specs.Magnitude.{Bounded};
ghost use Rattle.bound.specs.BoundLaws.{gaps_fit};

use float64::abs;

// 2^-64.
const LEAST_WIDTH: f64 = 5.421010862427522e-20;

// 2^900.
const MOST_SIZE: f64 = 8.452712498170644e270;

// Each knot equals the next or lies at least the least width below it.
fn gaps_fit(knots: &[f64]) -> bool
    requires { 1 < length knots.now }
    ensures { result ≡ gaps_fit knots.now }
{
    let mut all = true;
    for i in 0..knots.len() - 1 {
        let k = knots[i];
        let l = knots[i + 1];
        all = all & ((k == l) | (LEAST_WIDTH <= l - k));
    }
    all
}

// Whether the sizes of accepted knots rule an overflow out.
pub fn bounded(knots: &[f64]) -> bool
    ensures { (degree controls : ℕ) → refusal_of_knots (axis degree controls knots.now) ≡ 0 → result ≡ true → Bounded (axis degree controls knots.now) }
{
    if knots.len() < 2 {
        return false;
    }
    let first = knots[0];
    let last = knots[knots.len() - 1];
    (abs(first) <= MOST_SIZE) & (abs(last) <= MOST_SIZE) & gaps_fit(knots)
}
