// An evaluation that leaves out what only tells whether the source would refuse: where the sizes of a surface's numbers rule an overflow out, the second derivatives.
ghost use Rattle.std.specs.Prelude.{◌≡◌, true, length, replicate};
ghost use Rattle.float64.specs.Operators.{0·};
ghost use Rattle.spline.specs.Knots.{refusal_of_knots};
ghost use Rattle.basis.specs.Parts.{value_of, first_of, part_of, shown_part};
ghost use Rattle.basis.specs.Magnitude as Basis;
ghost use Rattle.patch.specs.declared.Jet.{Jet};
ghost use Rattle.patch.specs.declared.Evaluated.TheVariants.{Found};
ghost use Rattle.surface.specs.Surface.{evaluate_by};
ghost use Rattle.domain.specs.Intervals.{axis_of};
ghost use Rattle.surface.specs.Lent.{surface_of, at_entry, sample_on};
ghost use Rattle.scaled.specs.Accepted.{Accepts};

use crate::Accepted;
use basis::{Place, tabulate_firsts, tabulate_values};
use domain::{Counts, wrap_on};
use net::{sum_over, weigh};
use patch::{Evaluated, jet_of_sums};
use spline::KnotSide;

// 2^-62. Over a weight sum of at least that no quotient of a bounded surface overflows.
pub const LEAST_WEIGHT: f64 = 2.168404344971009e-19;

// The values of the functions of one axis at t, put into an empty row. What the row holds beyond the degree + 1 values is left open, and so are the start and the row where nothing is found.
pub fn sample_values(knots: &[f64], counts: Counts, t: f64, values: &mut [f64; 18]) -> Place
    requires { (refusal_of_knots (axis_of counts knots.now) ≡ 0) × Basis.Bounded (axis_of counts knots.now) × (values.old ≡ replicate 18 0·) }
    ensures { shown_part counts.degree result values.new ≡ part_of value_of (sample_on counts knots.now t) }
{
    let t = wrap_on(knots, counts, t); // before it snaps
    tabulate_values(
        knots,
        counts.degree,
        counts.controls,
        t,
        KnotSide::Right, // at a knot the functions of the span above
        values,
    )
}

// The same with the first derivatives, of which as much is left open.
fn sample_firsts(
    knots: &[f64],
    counts: Counts,
    t: f64,
    values: &mut [f64; 18],
    firsts: &mut [f64; 18],
) -> Place
    requires { (refusal_of_knots (axis_of counts knots.now) ≡ 0) × Basis.Bounded (axis_of counts knots.now) × (values.old ≡ replicate 18 0·) × (length firsts.old ≡ 18) }
    ensures values_after { shown_part counts.degree result values.new ≡ part_of value_of (sample_on counts knots.now t) }
    ensures firsts_after { shown_part counts.degree result firsts.new ≡ part_of first_of (sample_on counts knots.now t) }
{
    let t = wrap_on(knots, counts, t);
    tabulate_firsts(
        knots,
        counts.degree,
        counts.controls,
        t,
        KnotSide::Right,
        values,
        firsts,
    )
}

// What it finds is what an evaluation finds. Where it refuses is left open: it does too where the weight sum is too small for it.
pub(crate) fn first_order(
    accepted: Accepted,
    ku: &[f64],
    kv: &[f64],
    controls: &[f64],
    weights: &[f64],
    u: f64,
    v: f64,
) -> Evaluated
    requires { Accepts (surface_of accepted.shape ku kv controls weights) accepted × (accepted.bounded ≡ true) }
    ensures { (j : Jet) → result ≡ Found j → result ≡ evaluate_by (at_entry accepted.shape ku kv controls weights) accepted.largest u v }
{
    let shape = accepted.shape;
    let mut values_u = [0.0f64; 18];
    let mut firsts_u = [0.0f64; 18];
    let mut values_v = [0.0f64; 18];
    let mut firsts_v = [0.0f64; 18];
    let from_u = sample_firsts(ku, shape.u, u, &mut values_u, &mut firsts_u);
    let from_v = sample_firsts(kv, shape.v, v, &mut values_v, &mut firsts_v);
    if !(from_u.found & from_v.found) {
        return Evaluated::Refused;
    }
    let row = from_u.start;
    let column = from_v.start;
    let mut net = [0.0f64; 289];
    weigh(shape, weights, accepted.largest, row, column, &mut net);
    let value = sum_over(shape, controls, &net, &values_u, row, &values_v, column);
    if !(LEAST_WEIGHT <= value.w) {
        return Evaluated::Refused;
    }
    let along_u = sum_over(shape, controls, &net, &firsts_u, row, &values_v, column);
    let along_v = sum_over(shape, controls, &net, &values_u, row, &firsts_v, column);
    Evaluated::Found(jet_of_sums(value, along_u, along_v))
}
