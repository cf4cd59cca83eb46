// The grid's values on an axis of accepted knots, in a window of the domain: every span between the window's ends and the knots between them in eighths. And how many there are.
#![tactic(auto)]

ghost use Rattle.std.specs.Prelude.{◌≡◌, not, cond, ◌&&◌, [], ◌∷◌, ◌++◌, ◌+◌, ◌≤◌, ◌<◌, length, take};
ghost use Rattle.std.specs.Float.Ieee.{eq};
ghost use Rattle.spline.specs.Knots.{axis, refusal_of_knots};
ghost use Rattle.grid.specs.Axis.{every, first_equal, Within, stride, eighths, between, values_of, listed};
ghost use Rattle.grid.specs.AxisLaws.{is_inner, inner_within, values_for};

use domain::eighth;

// The breaks of an axis from which its values are made, and the values themselves.
#[derive(Clone, Copy)]
pub struct Breaks {
    pub at: [f64; 25],
    pub count: usize,
}

#[derive(Clone, Copy)]
pub struct Values {
    pub at: [f64; 193],
    pub count: usize,
}

fn first_equal(knots: &[f64], x: f64) -> f64
    ensures { result ≡ first_equal x knots.now }
{
    for i in 0..knots.len() {
        let t = knots[i];
        if t == x {
            return t;
        }
    }
    x
}

// The window's ends, with the bits of the knots where they equal the domain's.
fn start_of(knots: &[f64], domain: f64, low: f64) -> f64
    ensures { result ≡ cond (eq low domain) (first_equal low knots.now) low }
{
    if low == domain {
        return first_equal(knots, low);
    }
    low
}

fn end_of(domain: f64, high: f64) -> f64
    ensures { result ≡ cond (eq high domain) domain high }
{
    if high == domain {
        return domain;
    }
    high
}

// A knot inside the window that differs from the one inside before it.
fn is_inner(low: f64, high: f64, last: f64, t: f64) -> bool
    ensures { result ≡ (is_inner low high t && not (eq last t)) }
{
    low < t && t < high && !(last == t)
}

// Before the first knot inside stands a NaN, which nothing equals.
fn count_inner(knots: &[f64], low: f64, high: f64) -> usize
    ensures { (result ≡ length (inner_within low high knots.now)) × (result ≤ length knots.now) }
{
    let mut last = 0.0 / 0.0;
    let mut count: usize = 0;
    for i in 0..knots.len() {
        let t = knots[i];
        if is_inner(low, high, last, t) {
            last = t;
            count += 1;
        }
    }
    count
}

fn stride(count: usize) -> usize
    requires { count ≤ 200000 }
    ensures { result ≡ stride count }
{
    let n = (count + 23) / 24;
    if n < 1 {
        return 1;
    }
    n
}

fn add_break(b: Breaks, t: f64) -> Breaks
    requires { b.count < 25 }
    ensures { (take result.count result.at ≡ take b.count b.at ++ (t ∷ [])) × (result.count ≡ b.count + 1) }
{
    let mut at = b.at;
    let count = b.count;
    at[count] = t;
    Breaks {
        at,
        count: count + 1,
    }
}

// The start, and then of the knots inside those with so many skipped before each.
fn thin(knots: &[f64], low: f64, high: f64, start: f64, skip: usize) -> Breaks
    requires { length (every skip 0 (start ∷ inner_within low high knots.now)) ≤ 24 }
    ensures { (take result.count result.at ≡ every skip 0 (start ∷ inner_within low high knots.now)) × (result.count ≤ 24) }
{
    let mut out = Breaks {
        at: [start; 25],
        count: 1,
    };
    let mut last = 0.0 / 0.0;
    let mut left = skip;
    for i in 0..knots.len() {
        let t = knots[i];
        if is_inner(low, high, last, t) {
            last = t;
            if left == 0 {
                out = add_break(out, t);
                left = skip;
            } else {
                left -= 1;
            }
        }
    }
    out
}

// The eighths from x to y, from the place n on.
fn put_eighths(at: &mut [f64; 193], n: usize, x: f64, y: f64)
    requires { (n + 8 ≤ 193) × (length at.old ≡ 193) }
    ensures { (take (n + 8) at.new ≡ take n at.old ++ eighths 8 0 x y) × (length at.new ≡ 193) }
{
    for j in 0..8usize {
        at[n + j] = eighth(x, y, j);
    }
}

fn in_eighths(b: Breaks, end: f64) -> Values
    requires { (0 < b.count) × (b.count ≤ 25) }
    ensures { (listed result ≡ between (take b.count b.at) ++ (end ∷ [])) × (result.count ≤ 193) }
{
    let breaks = b.at;
    let count = b.count;
    let mut at = [0.0; 193];
    let mut n: usize = 0;
    let mut x = breaks[0];
    for i in 1..count {
        let y = breaks[i];
        put_eighths(&mut at, n, x, y);
        n += 8;
        x = y;
    }
    at[n] = end;
    Values { at, count: n + 1 }
}

pub fn axis_values(knots: &[f64], degree: usize, controls: usize, low: f64, high: f64) -> Values
    requires { (refusal_of_knots (axis degree controls knots.now) ≡ 0) × Within (axis degree controls knots.now) low high }
    ensures { (listed result ≡ values_of (axis degree controls knots.now) low high) × (result.count ≤ 193) }
{
    let start = start_of(knots, knots[degree], low);
    let end = end_of(knots[controls], high);
    let step = stride(count_inner(knots, low, high) + 2);
    let breaks = add_break(thin(knots, low, high, start, step - 1), end);
    in_eighths(breaks, end)
}

// How many values there are, worked out without them: eight for each span that is kept, and the window's end.
pub fn count_values(knots: &[f64], low: f64, high: f64) -> usize
    requires { length knots.now ≤ 100034 }
    ensures { (result ≡ values_for (length (inner_within low high knots.now) + 2)) × (result ≤ 193) }
{
    let count = count_inner(knots, low, high) + 2;
    let step = stride(count);
    8 * ((count - 1 + (step - 1)) / step) + 1
}
