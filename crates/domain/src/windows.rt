// A window on the knot domain: check 24, and what it leaves of the domain.
ghost use Rattle.std.specs.Prelude.{◌≡◌};
ghost use Rattle.spline.specs.Knots.{refusal_of_knots};
ghost use Rattle.domain.specs.Intervals.{axis_of, domain_on};
ghost use Rattle.domain.specs.Doubles.{DoubleWindow};
ghost use Rattle.domain.specs.Windows.{misfits_on, misfits, window_on, window_in};

use crate::intervals::domain_of;
use crate::{Domain, Interval, Shape, Window};
use float64::is_finite;

// Compared as floats, so that -0 is 0.
fn misfits_on(i: Interval, low: f64, high: f64) -> bool
    ensures { result ≡ misfits_on i low high }
{
    !is_finite(low)
        | !is_finite(high)
        | !(low < high)
        | (low < i.low)
        | (i.high < high)
        | (i.periodic & !((low == i.low) & (high == i.high)))
}

pub fn window_misfits(shape: Shape, ku: &[f64], kv: &[f64]) -> bool
    requires { (refusal_of_knots (axis_of shape.u ku.now) ≡ 0) × (refusal_of_knots (axis_of shape.v kv.now) ≡ 0) }
    ensures { result ≡ misfits shape.window (domain_on shape ku.now kv.now) }
{
    let domain = domain_of(shape, ku, kv);
    let window = shape.window;
    match window {
        Window::Whole => false,
        Window::Within(u_low, u_high, v_low, v_high) => {
            misfits_on(domain.u, u_low, u_high) | misfits_on(domain.v, v_low, v_high)
        }
    }
}

fn window_on(i: Interval, low: f64, high: f64) -> Interval
    ensures { result ≡ window_on i low high }
{
    if i.periodic {
        return i;
    }
    Interval {
        low,
        high,
        periodic: false,
    }
}

// Where marks may lie.
pub fn window_of(shape: Shape, ku: &[f64], kv: &[f64]) -> Domain
    requires { (refusal_of_knots (axis_of shape.u ku.now) ≡ 0) × (refusal_of_knots (axis_of shape.v kv.now) ≡ 0) }
    ensures value { result ≡ window_in shape.window (domain_on shape ku.now kv.now) }
    ensures double_window { DoubleWindow shape.window }
{
    let domain = domain_of(shape, ku, kv);
    let window = shape.window;
    match window {
        Window::Whole => domain,
        Window::Within(u_low, u_high, v_low, v_high) => Domain {
            u: window_on(domain.u, u_low, u_high),
            v: window_on(domain.v, v_low, v_high),
        },
    }
}
