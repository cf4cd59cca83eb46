// The functions of a B-spline basis that are not zero at a parameter, with their first and second derivatives.
#![tactic(auto)]

mod values;

ghost use Rattle.std.specs.Prelude.{◌≡◌, ◌+◌, ◌≤◌, ◌<◌, suc, length};
ghost use Rattle.spline.specs.Knots.{axis, low, high, refusal_of_knots, snapped, span_at};
ghost use Rattle.basis.specs.Basis.{N, basis_at, shown};
ghost use Rattle.basis.specs.Rows.{absent, term_at, mix_of, finite, blank, Columns, Raised, basis_of};

use float64::is_finite;
use spline::{KnotSide, Snapped};
pub use values::{tabulate_firsts, tabulate_values};

// The values, first and second derivatives of the degree + 1 functions from `start` on; nothing of it counts where it is not found.
#[derive(Clone, Copy)]
pub struct Basis {
    pub found: bool,
    pub start: usize,
    pub values: [f64; 18],
    pub firsts: [f64; 18],
    pub seconds: [f64; 18],
}

// A function's value, first and second derivative.
#[derive(Clone, Copy)]
pub(crate) struct Entry {
    pub value: f64,
    pub first: f64,
    pub second: f64,
}

// Where the functions start, if they are found.
#[derive(Clone, Copy)]
pub struct Place {
    pub found: bool,
    pub start: usize,
}

// A function's terms in the sums of the next degree: rising in the one at its own index, falling in the one before.
#[derive(Clone, Copy)]
pub(crate) struct Term {
    pub present: bool,
    pub rising: f64,
    pub falling: f64,
    pub first: f64,
    pub second: f64,
}

// A term that adds nothing.
pub(crate) fn absent() -> Term
    ensures { result ≡ absent }
{
    Term {
        present: false,
        rising: 0.0,
        falling: 0.0,
        first: 0.0,
        second: 0.0,
    }
}

// The terms of the function at i in the sums of degree d, which is n as a float. None where its knots leave no width.
pub(crate) fn term_at(
    knots: &[f64],
    i: usize,
    d: usize,
    n: f64,
    u: f64,
    value: f64,
    first: f64,
) -> Term
    requires { i + d < length knots.now }
    ensures { result ≡ term_at knots.now i d n u value first }
{
    let s = knots[i];
    let t = knots[i + d];
    let l = t - s;
    if l == 0.0 {
        return absent();
    }
    Term {
        present: true,
        rising: (u - s) / l * value,
        falling: (t - u) / l * value,
        first: n * (value / l),
        second: n * (first / l),
    }
}

// The sum of the rising term of a and the falling term of b.
pub(crate) fn mix(a: Term, b: Term) -> Entry
    ensures { result ≡ mix_of a b }
{
    let value = 0.0 + a.rising;
    let first = 0.0 + a.first;
    let second = 0.0 + a.second;
    if b.present {
        return Entry {
            value: value + b.falling,
            first: first - b.first,
            second: second - b.second,
        };
    }
    Entry {
        value,
        first,
        second,
    }
}

fn sound(e: Entry) -> bool
    ensures { result ≡ finite e }
{
    is_finite(e.value) & is_finite(e.first) & is_finite(e.second)
}

// The rows of degree d raised in place to degree d + 1, unless a number of it is not finite.
fn raise(knots: &[f64], start: usize, p: usize, d: usize, u: f64, rows: &mut [[f64; 18]; 3]) -> bool
    requires { (p ≤ 16) × (d < p) × (start + p + d + 2 < length knots.now) × Columns rows.old (λ k. N knots.now u (start + p) d (start + k)) }
    ensures { Raised knots.now u (start + p) (suc d) start result rows.new }
{
    let next = d + 1;
    let n = next as f64;
    let from = p - next;
    let mut a = term_at(
        knots,
        start + from,
        next,
        n,
        u,
        rows[0][from],
        rows[1][from],
    );
    for j in from..p + 1 {
        let k = j + 1;
        let b = term_at(knots, start + k, next, n, u, rows[0][k], rows[1][k]);
        let e = mix(a, b);
        if !sound(e) {
            return false;
        }
        rows[0][j] = e.value;
        rows[1][j] = e.first;
        rows[2][j] = e.second;
        a = b;
    }
    true
}

// The rows of degree p, for u in the knot span start + p, unless a number on the way is not finite.
fn triangle(knots: &[f64], start: usize, p: usize, u: f64, rows: &mut [[f64; 18]; 3]) -> bool
    requires { (p ≤ 16) × (start + p + p + 1 < length knots.now) × (rows.old ≡ blank) }
    ensures { Raised knots.now u (start + p) p start result rows.new }
{
    rows[0][p] = 1.0;
    for d in 0..p {
        if !raise(knots, start, p, d, u, rows) {
            return false;
        }
    }
    true
}

// The parameter as it snaps to the domain.
fn snap_on(knots: &[f64], degree: usize, controls: usize, u: f64) -> Snapped
    requires { refusal_of_knots (axis degree controls knots.now) ≡ 0 }
    ensures { result ≡ snapped (low (axis degree controls knots.now)) (high (axis degree controls knots.now)) u }
{
    spline::snap(knots[degree], knots[controls], u)
}

// The first function of the span of t.
fn first_at(knots: &[f64], degree: usize, controls: usize, t: f64, side: KnotSide) -> usize
    requires { refusal_of_knots (axis degree controls knots.now) ≡ 0 }
    ensures { (span_at (axis degree controls knots.now) side t ≡ result + degree) × (result + degree < controls) }
{
    spline::span(knots, degree, controls, t, side) - degree
}

// The rows filled for a parameter, and where their functions start.
// The contract leaves open the columns after the degree + 1 functions and, where nothing is found, the start and every column: any numbers may stand there.
pub fn tabulate(
    knots: &[f64],
    degree: usize,
    controls: usize,
    u: f64,
    side: KnotSide,
    rows: &mut [[f64; 18]; 3],
) -> Place
    requires { (refusal_of_knots (axis degree controls knots.now) ≡ 0) × (rows.old ≡ blank) }
    ensures { shown degree (basis_of result rows.new) ≡ basis_at (axis degree controls knots.now) side u }
{
    let Snapped::At(t) = snap_on(knots, degree, controls, u) else {
        return Place {
            found: false,
            start: 0,
        };
    };
    let start = first_at(knots, degree, controls, t, side);
    Place {
        found: triangle(knots, start, degree, t, rows),
        start,
    }
}

// The source's `basis_on_side`, on knots that passed their checks.
// The contract leaves open what each array holds after the degree + 1 functions and, where nothing is found, the start and the arrays: any numbers may stand there.
pub fn basis_on_side(knots: &[f64], degree: usize, controls: usize, u: f64, side: KnotSide) -> Basis
    requires { refusal_of_knots (axis degree controls knots.now) ≡ 0 }
    ensures { shown degree result ≡ basis_at (axis degree controls knots.now) side u }
{
    let mut rows = [[0.0f64; 18]; 3];
    let place = tabulate(knots, degree, controls, u, side, &mut rows);
    let values = rows[0];
    let firsts = rows[1];
    let seconds = rows[2];
    Basis {
        found: place.found,
        start: place.start,
        values,
        firsts,
        seconds,
    }
}
