// The knot domain of an axis: its ends, its eighths, and a parameter that is brought into it.
ghost use Rattle.std.specs.Prelude.{◌≡◌, ◌≤◌};
ghost use Rattle.spline.specs.Knots.{refusal_of_knots};
ghost use Rattle.domain.specs.Intervals.{axis_of, domain_on, eighth_of, interval_of, wrapped_on};

use crate::{Counts, Domain, Interval, Shape};
use float64::{clamp, is_finite, rem_euclid};

fn interval_of(counts: Counts, knots: &[f64]) -> Interval
    requires { refusal_of_knots (axis_of counts knots.now) ≡ 0 }
    ensures { result ≡ interval_of counts knots.now }
{
    let degree = counts.degree;
    let controls = counts.controls;
    Interval {
        low: knots[degree],
        high: knots[controls],
        periodic: counts.periodic,
    }
}

pub fn domain_of(shape: Shape, ku: &[f64], kv: &[f64]) -> Domain
    requires { (refusal_of_knots (axis_of shape.u ku.now) ≡ 0) × (refusal_of_knots (axis_of shape.v kv.now) ≡ 0) }
    ensures { result ≡ domain_on shape ku.now kv.now }
{
    Domain {
        u: interval_of(shape.u, ku),
        v: interval_of(shape.v, kv),
    }
}

// The product comes before the quotient. The last can round above `high`.
pub fn eighth(low: f64, high: f64, i: usize) -> f64
    requires { i ≤ 8 }
    ensures { result ≡ eighth_of low high i }
{
    low + (high - low) * i as f64 / 8.0
}

// A parameter that is not finite stays as it is.
pub fn wrap(i: Interval, t: f64) -> f64
    ensures { result ≡ wrapped_on i t }
{
    let low = i.low;
    let high = i.high;
    if !i.periodic {
        return t;
    }
    if !is_finite(t) {
        return t;
    }
    if low <= t && t <= high {
        return t;
    }
    clamp(low + rem_euclid(t - low, high - low), low, high)
}

// The same by the knots of an axis.
pub fn wrap_on(knots: &[f64], counts: Counts, t: f64) -> f64
    requires { refusal_of_knots (axis_of counts knots.now) ≡ 0 }
    ensures { result ≡ wrapped_on (interval_of counts knots.now) t }
{
    wrap(interval_of(counts, knots), t)
}
