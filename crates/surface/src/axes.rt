// What is tested of a surface that has only its shape and its knots.
ghost use Rattle.std.specs.Prelude.{◌≡◌};
ghost use Rattle.surface.specs.Surface.{too_large, refusal_of_axes};
ghost use Rattle.surface.specs.Lent.{bare_at_entry};

use crate::checks::{MAX_CONTROLS, MAX_KNOTS, product};
use domain::{Shape, window_misfits};
use spline::check_knots;

// More controls or more knots than the limits allow, by the counts that the shape gives and those of the knots that are lent.
pub fn too_large(shape: Shape, ku: &[f64], kv: &[f64]) -> bool
    ensures { result ≡ too_large (bare_at_entry shape ku kv) }
{
    let u = shape.u;
    let v = shape.v;
    if product(u.controls, v.controls) > MAX_CONTROLS {
        return true;
    }
    if ku.len() > MAX_KNOTS {
        return true;
    }
    if kv.len() > MAX_KNOTS - ku.len() {
        return true;
    }
    false
}

// The checks of the knots and of the window: the number of the refusal, 0 for none.
pub fn check_axes(shape: Shape, ku: &[f64], kv: &[f64]) -> u64
    ensures { result ≡ refusal_of_axes shape ku.now kv.now }
{
    let u = shape.u;
    let v = shape.v;
    let refusal = check_knots(ku, u.degree, u.controls);
    if refusal != 0 {
        return refusal;
    }
    let refusal = check_knots(kv, v.degree, v.controls);
    if refusal != 0 {
        return refusal;
    }
    if window_misfits(shape, ku, kv) {
        return 24;
    }
    0
}
