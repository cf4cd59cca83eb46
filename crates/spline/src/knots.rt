// The checks of a knot vector: its degree, the count of controls, and the knots, which a caller lends.
ghost use Rattle.std.specs.Prelude.{◌≡◌, ◌+◌, ◌≤◌, ◌<◌, length, drop, get_or};
ghost use Rattle.std.specs.Float.{nan};
ghost use Rattle.spline.specs.Knots.{axis, refusal_of_knots};
ghost use Rattle.spline.specs.KnotLaws.{counts_fit, knot_fits, knots_fit, domain_fits};

pub const MAX_DEGREE: usize = 16;

// The source's default limits.
const MAX_CONTROLS: usize = 100_000;

const MAX_KNOTS: usize = 100_034;

// The number of the refusal, 0 for none.
#[tactic(auto, using(crate::proofs::KnotSteps::degree_above))]
pub fn check_knots(knots: &[f64], degree: usize, controls: usize) -> u64
    ensures { result ≡ refusal_of_knots (axis degree controls knots.now) }
{
    if degree == 0 {
        return 5;
    }
    if MAX_DEGREE < degree {
        return 5;
    }
    if !counts_fit(knots.len(), degree, controls) {
        return 6;
    }
    if !knots_fit(knots, degree + 1) {
        return 6;
    }
    if !domain_fits(knots, degree, controls) {
        return 6;
    }
    0
}

// The counts are within the source's limits, and match.
fn counts_fit(count: usize, degree: usize, controls: usize) -> bool
    requires { degree ≤ 16 }
    ensures { result ≡ counts_fit degree controls count }
{
    if MAX_CONTROLS < controls {
        return false;
    }
    if MAX_KNOTS < count {
        return false;
    }
    if controls <= degree {
        return false;
    }
    count == controls + degree + 1
}

// The knots are finite and ascend, and no more than most in a row are equal.
fn knots_fit(knots: &[f64], most: usize) -> bool
    requires { 0 < most }
    ensures { result ≡ knots_fit most knots.now }
{
    for i in 0..knots.len() {
        if !knot_fits(knots, most, i) {
            return false;
        }
    }
    true
}

// The same of one knot, against the next and the one most places on.
fn knot_fits(knots: &[f64], most: usize, i: usize) -> bool
    requires { (0 < most) × (i < length knots.now) }
    ensures { result ≡ knot_fits most (get_or knots.now i nan) (drop (i + 1) knots.now) }
{
    let k = knots[i];
    if !float64::is_finite(k) {
        return false;
    }
    if i + 1 == knots.len() {
        return true;
    }
    if !(k <= knots[i + 1]) {
        return false;
    }
    if most < knots.len() - i {
        return k < knots[i + most];
    }
    true
}

// The domain has a width, and all knots together a finite one.
fn domain_fits(knots: &[f64], degree: usize, controls: usize) -> bool
    requires { (degree < controls) × (controls + degree < length knots.now) }
    ensures { result ≡ domain_fits (axis degree controls knots.now) }
{
    if knots[degree] < knots[controls] {
        return float64::is_finite(knots[controls + degree] - knots[0]);
    }
    false
}
