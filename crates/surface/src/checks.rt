// The checks of a surface, in the order of the numbers that they refuse with.
ghost use Rattle.std.specs.Prelude.{◌≡◌, ◌*◌, min};
ghost use Rattle.spline.specs.Knots.{all_finite};
ghost use Rattle.surface.specs.Surface.{checked};
ghost use Rattle.surface.specs.Lent.{at_entry};

use crate::Checked;
use domain::{Shape, window_misfits};
use float64::is_finite;
use spline::{Weighed, check_knots, validate_weights};

// The source's default limits.
pub const MAX_CONTROLS: usize = 100_000;

pub const MAX_KNOTS: usize = 100_034;

// How many controls two counts make, or one over the limit where they are more. Nothing wraps.
pub fn product(a: usize, b: usize) -> usize
    ensures { result ≡ min (a * b) 100001 }
{
    if a == 0 {
        return 0;
    }
    if b > MAX_CONTROLS / a {
        return MAX_CONTROLS + 1;
    }
    a * b
}

fn all_finite(controls: &[f64]) -> bool
    ensures { result ≡ all_finite controls.now }
{
    let mut all = true;
    for i in 0..controls.len() {
        all = all & is_finite(controls[i]);
    }
    all
}

// The checks of `NurbsSurface::new`, that the controls are finite, three coordinates each, and that the window lies in the domain.
pub fn check(shape: Shape, ku: &[f64], kv: &[f64], controls: &[f64], weights: &[f64]) -> Checked
    ensures { result ≡ checked (at_entry shape ku kv controls weights) }
{
    let u = shape.u;
    let v = shape.v;
    let du = u.degree;
    let nu = u.controls;
    let dv = v.degree;
    let nv = v.controls;
    let total = product(nu, nv);
    if total > MAX_CONTROLS {
        return Checked::Refusal(1);
    }
    if ku.len() > MAX_KNOTS {
        return Checked::Refusal(1);
    }
    if kv.len() > MAX_KNOTS - ku.len() {
        return Checked::Refusal(1);
    }
    if controls.len() != 3 * total {
        return Checked::Refusal(2);
    }
    if weights.len() != total {
        return Checked::Refusal(2);
    }
    if !all_finite(controls) {
        return Checked::Refusal(3);
    }
    let weighed = validate_weights(weights);
    let Weighed::Scale(scale) = weighed else {
        return Checked::Refusal(4);
    };
    let refusal = check_knots(ku, du, nu);
    if refusal != 0 {
        return Checked::Refusal(refusal);
    }
    let refusal = check_knots(kv, dv, nv);
    if refusal != 0 {
        return Checked::Refusal(refusal);
    }
    if window_misfits(shape, ku, kv) {
        return Checked::Refusal(24);
    }
    Checked::Scale(scale)
}
