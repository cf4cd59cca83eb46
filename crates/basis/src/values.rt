// The values alone, or the values and first derivatives, where no number of the basis can overflow: then nothing of it needs to be tested.
ghost use Rattle.std.specs.Prelude.{◌≡◌, ℕ, ◌+◌, ◌-◌, ◌≤◌, ◌<◌, length, get_or, replicate};
ghost use Rattle.std.specs.Float.{nan};
ghost use Rattle.float64.specs.Operators.{0·};
ghost use Rattle.spline.specs.Knots.{axis, refusal_of_knots};
ghost use Rattle.basis.specs.Basis.{N, basis_at};
ghost use Rattle.basis.specs.Parts.{value_of, first_of, value_in, first_in, part_of, shown_part, Row, Unbroken};
ghost use Rattle.basis.specs.Magnitude.{Bounded};

use crate::{Place, absent, first_at, mix, snap_on, term_at};
use spline::{KnotSide, Snapped};

// The values of degree d raised in place to degree d + 1. The functions before the first and after the last are 0, and what they would add is left out.
fn raise_values(knots: &[f64], start: usize, p: usize, d: usize, u: f64, values: &mut [f64; 18])
    requires { (p ≤ 16) × (d < p) × (start + p + d + 1 < length knots.now) × Unbroken knots.now u (start + p) p × Row values.old (λ k. value_in (N knots.now u (start + p) d (start + k))) }
    ensures { Row values.new (λ k. value_in (N knots.now u (start + p) (d + 1) (start + k))) }
{
    let next = d + 1;
    let n = next as f64;
    let mut a = absent();
    for j in p - next..p {
        let k = j + 1;
        let b = term_at(knots, start + k, next, n, u, values[k], 0.0);
        let e = mix(a, b);
        values[j] = e.value;
        a = b;
    }
    let last = mix(a, absent());
    values[p] = last.value;
}

// The values of degree `to`, for u in the knot span start + p.
fn triangle_of_values(
    knots: &[f64],
    start: usize,
    p: usize,
    to: usize,
    u: f64,
    values: &mut [f64; 18],
)
    requires { (p ≤ 16) × (to ≤ p) × (start + p + p < length knots.now) × Unbroken knots.now u (start + p) p × (values.old ≡ replicate 18 0·) }
    ensures { Row values.new (λ k. value_in (N knots.now u (start + p) to (start + k))) }
{
    values[p] = 1.0;
    for d in 0..to {
        raise_values(knots, start, p, d, u, values);
    }
}

// The last degree: its values in place of those of the degree below, and its first derivatives.
fn raise_both(
    knots: &[f64],
    start: usize,
    p: usize,
    u: f64,
    values: &mut [f64; 18],
    firsts: &mut [f64; 18],
)
    requires { (1 ≤ p) × (p ≤ 16) × (start + p + p < length knots.now) × Unbroken knots.now u (start + p) p × Row values.old (λ k. value_in (N knots.now u (start + p) (p - 1) (start + k))) × (length firsts.old ≡ 18) }
    ensures row { Row values.new (λ k. value_in (N knots.now u (start + p) p (start + k))) }
    ensures by_index { ((k : ℕ) → k ≤ p → get_or firsts.new k nan ≡ first_in (N knots.now u (start + p) p (start + k))) × (length firsts.new ≡ 18) }
{
    let n = p as f64;
    let mut a = absent();
    for j in 0..p {
        let k = j + 1;
        let b = term_at(knots, start + k, p, n, u, values[k], 0.0);
        let e = mix(a, b);
        values[j] = e.value;
        firsts[j] = e.first;
        a = b;
    }
    let last = mix(a, absent());
    values[p] = last.value;
    firsts[p] = last.first;
}

// The values of the functions at a parameter, and where they start. The contract leaves open what that of `tabulate` does.
pub fn tabulate_values(
    knots: &[f64],
    degree: usize,
    controls: usize,
    u: f64,
    side: KnotSide,
    values: &mut [f64; 18],
) -> Place
    requires { (refusal_of_knots (axis degree controls knots.now) ≡ 0) × Bounded (axis degree controls knots.now) × (values.old ≡ replicate 18 0·) }
    ensures { shown_part degree result values.new ≡ part_of value_of (basis_at (axis degree controls knots.now) side u) }
{
    let Snapped::At(t) = snap_on(knots, degree, controls, u) else {
        return Place {
            found: false,
            start: 0,
        };
    };
    let start = first_at(knots, degree, controls, t, side);
    triangle_of_values(knots, start, degree, degree, t, values);
    Place { found: true, start }
}

// The same with the first derivatives.
pub fn tabulate_firsts(
    knots: &[f64],
    degree: usize,
    controls: usize,
    u: f64,
    side: KnotSide,
    values: &mut [f64; 18],
    firsts: &mut [f64; 18],
) -> Place
    requires { (refusal_of_knots (axis degree controls knots.now) ≡ 0) × Bounded (axis degree controls knots.now) × (values.old ≡ replicate 18 0·) × (length firsts.old ≡ 18) }
    ensures values_after { shown_part degree result values.new ≡ part_of value_of (basis_at (axis degree controls knots.now) side u) }
    ensures firsts_after { shown_part degree result firsts.new ≡ part_of first_of (basis_at (axis degree controls knots.now) side u) }
{
    let Snapped::At(t) = snap_on(knots, degree, controls, u) else {
        return Place {
            found: false,
            start: 0,
        };
    };
    let start = first_at(knots, degree, controls, t, side);
    triangle_of_values(knots, start, degree, degree - 1, t, values);
    raise_both(knots, start, degree, t, values, firsts);
    Place { found: true, start }
}
