// Where a parameter lies among the knots.
ghost use Rattle.std.specs.Prelude.{◌≡◌, true, ◌<◌, ◌≤◌, length};
ghost use Rattle.spline.specs.Knots.{axis, refusal_of_knots, ascending, near, snapped, from_left, span_at};
ghost use Rattle.spline.specs.ParameterLaws.{before, rank};

// At a repeated knot, the limit from which side. The domain's ends are taken from inside on either.
#[derive(Clone, Copy)]
pub enum KnotSide {
    Left,
    Right,
}

#[derive(Clone, Copy)]
pub enum Snapped {
    At(f64),
    Outside,
}

// Four times f64's EPSILON, 2^-50.
const TOLERANCE: f64 = 8.881784197001252e-16;

fn near(width: f64, u: f64, end: f64) -> bool
    ensures { result ≡ near width u end }
{
    float64::abs(u - end) <= TOLERANCE * float64::max(float64::abs(end), width)
}

// The parameter, or the end of the domain that it lies within 4 ulps of.
pub fn snap(low: f64, high: f64, u: f64) -> Snapped
    ensures { result ≡ snapped low high u }
{
    if !float64::is_finite(u) {
        return Snapped::Outside;
    }
    if u < low {
        if near(high - low, u, low) {
            return Snapped::At(low);
        }
        return Snapped::Outside;
    }
    if high < u {
        if near(high - low, u, high) {
            return Snapped::At(high);
        }
        return Snapped::Outside;
    }
    Snapped::At(u)
}

fn from_left(knots: &[f64], degree: usize, controls: usize, u: f64, side: KnotSide) -> bool
    requires { (degree < length knots.now) × (controls < length knots.now) }
    ensures { result ≡ from_left (axis degree controls knots.now) side u }
{
    if u == knots[controls] {
        return true;
    }
    match side {
        KnotSide::Left => u != knots[degree],
        KnotSide::Right => false,
    }
}

fn comes_before(knot: f64, u: f64, left: bool) -> bool
    ensures { result ≡ before left u knot }
{
    if left {
        return knot < u;
    }
    knot <= u
}

// How many knots come before u, by bisection, but at least `first` and at most `last`.
fn partition_point(knots: &[f64], first: usize, last: usize, u: f64, left: bool) -> usize
    requires { (ascending knots.now ≡ true) × (first ≤ last) × (last ≤ length knots.now) }
    ensures { result ≡ rank left u knots.now first last }
{
    let mut lo = first;
    let mut hi = last;
    while lo < hi {
        let mid = lo + (hi - lo) / 2;
        if comes_before(knots[mid], u, left) {
            lo = mid + 1;
        } else {
            hi = mid;
        }
    }
    lo
}

// The index of the knot that the span of u starts at.
pub fn span(knots: &[f64], degree: usize, controls: usize, u: f64, side: KnotSide) -> usize
    requires { refusal_of_knots (axis degree controls knots.now) ≡ 0 }
    ensures { result ≡ span_at (axis degree controls knots.now) side u }
{
    let left = from_left(knots, degree, controls, u, side);
    partition_point(knots, degree + 1, controls, u, left) - 1
}
