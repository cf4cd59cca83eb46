// The evaluation of a surface: the sums over the patch where the parameters lie.
ghost use Rattle.std.specs.Prelude.{◌≡◌};
ghost use Rattle.spline.specs.Knots.{refusal_of_knots};
ghost use Rattle.basis.specs.Basis.{shown};
ghost use Rattle.basis.specs.Rows.{blank, basis_of};
ghost use Rattle.surface.specs.Surface.{refusal_of_surface, evaluate_by, or_nine, evaluated};
ghost use Rattle.domain.specs.Intervals.{axis_of};
ghost use Rattle.surface.specs.Lent.{surface_of, at_entry, sample_on};

use crate::checks::check;
use crate::{Checked, Evaluation};
use basis::{Place, tabulate};
use domain::{Counts, Shape, wrap_on};
use net::{sums_over, weigh};
use patch::{Evaluated, rational};
use spline::KnotSide;

// The functions of one axis at t, put into empty rows. What the rows hold beyond the degree + 1 functions is left open, and so are the start and the rows where nothing is found.
fn sample(knots: &[f64], counts: Counts, t: f64, rows: &mut [[f64; 18]; 3]) -> Place
    requires { (refusal_of_knots (axis_of counts knots.now) ≡ 0) × (rows.old ≡ blank) }
    ensures { shown counts.degree (basis_of result rows.new) ≡ sample_on counts knots.now t }
{
    let t = wrap_on(knots, counts, t);
    tabulate(
        knots,
        counts.degree,
        counts.controls,
        t,
        KnotSide::Right,
        rows,
    )
}

// The source's `evaluate`, of a surface that passed its checks, whose largest weight is `scale`.
pub fn surface_jet(
    shape: Shape,
    ku: &[f64],
    kv: &[f64],
    controls: &[f64],
    weights: &[f64],
    scale: f64,
    u: f64,
    v: f64,
) -> Evaluated
    requires { refusal_of_surface (surface_of shape ku kv controls weights) ≡ 0 }
    ensures { result ≡ evaluate_by (at_entry shape ku kv controls weights) scale u v }
{
    let mut functions_u = [[0.0f64; 18]; 3];
    let mut functions_v = [[0.0f64; 18]; 3];
    let from_u = sample(ku, shape.u, u, &mut functions_u);
    let from_v = sample(kv, shape.v, v, &mut functions_v);
    let found = from_u.found & from_v.found;
    if !found {
        return Evaluated::Refused;
    }
    let mut net = [0.0f64; 289];
    weigh(shape, weights, scale, from_u.start, from_v.start, &mut net);
    rational(sums_over(
        shape,
        controls,
        &net,
        &functions_u,
        from_u.start,
        &functions_v,
        from_v.start,
    ))
}

fn or_nine(e: Evaluated) -> Evaluation
    ensures { result ≡ or_nine e }
{
    match e {
        Evaluated::Found(j) => Evaluation::Found(j),
        Evaluated::Refused => Evaluation::Refusal(9),
    }
}

// The same of any input.
pub fn evaluate(
    shape: Shape,
    ku: &[f64],
    kv: &[f64],
    controls: &[f64],
    weights: &[f64],
    u: f64,
    v: f64,
) -> Evaluation
    ensures { result ≡ evaluated (at_entry shape ku kv controls weights) u v }
{
    let checked = check(shape, ku, kv, controls, weights);
    match checked {
        Checked::Refusal(n) => Evaluation::Refusal(n),
        Checked::Scale(scale) => or_nine(surface_jet(
            shape, ku, kv, controls, weights, scale, u, v,
        )),
    }
}
