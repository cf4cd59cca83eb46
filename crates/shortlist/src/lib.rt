// The starts as the grid is walked: six structs by value, sorted by insertion; equal distances are not taken in.
#![tactic(auto)]

ghost use Rattle.std.specs.Prelude.{◌≡◌, false, [], T, ◌≤◌, take};
ghost use Rattle.std.specs.Float.{binary64};
ghost use Rattle.std.specs.Float.Ieee.{fits, lt};
ghost use Rattle.float64.specs.Operators.{0·};
ghost use Rattle.float64.specs.Functions.{root};
ghost use Rattle.shortlist.specs.FirstSix.{start_at};
ghost use Rattle.shortlist.specs.Insert.{starts_in, Rising, Limits, Sound, kept, place_in, spliced};
ghost use Rattle.shortlist.specs.LimitLaws.{square_of};

use float64::root;
use vector3::{Vector3, dot, sub};

// A grid point with its distance from the mark.
#[derive(Clone, Copy)]
pub struct Start {
    pub distance: f64,
    pub u: f64,
    pub v: f64,
}

// Up to six, rising by distance.
#[derive(Clone, Copy)]
pub struct Starts {
    pub at: [Start; 6],
    pub count: usize,
}

// What is kept of the points seen so far. Points whose squared distance is not below the limit change nothing of it; a NaN is no limit.
#[derive(Clone, Copy)]
pub struct Shortlist {
    pub starts: Starts,
    pub limit: f64,
}

// What stands in the array is left open.
pub fn no_starts() -> Shortlist
    ensures { (starts_in result.starts ≡ []) × Sound result }
{
    let origin = Start {
        distance: 0.0,
        u: 0.0,
        v: 0.0,
    };
    let starts = Starts {
        at: [origin; 6],
        count: 0,
    };
    Shortlist {
        starts,
        limit: 0.0 / 0.0, // a NaN: no limit
    }
}

// The first index whose distance is not below d.
fn place(at: [Start; 6], count: usize, d: f64) -> usize
    requires { count ≤ 6 }
    ensures { result ≡ place_in d (take count at) }
{
    for i in 0..count {
        let y = at[i];
        if d <= y.distance {
            return i;
        }
    }
    count
}

// x put in at i; the last falls out where there are six.
fn splice(at: [Start; 6], count: usize, i: usize, x: Start) -> Starts
    requires { (count ≤ 6) × (i ≤ count) }
    ensures { (starts_in result ≡ take 6 (spliced i x (take count at))) × (result.count ≤ 6) }
{
    let mut out = at;
    let mut carry = x;
    for k in i..count {
        let y = out[k];
        out[k] = carry;
        carry = y;
    }
    if count < 6 {
        out[count] = carry;
        return Starts {
            at: out,
            count: count + 1,
        };
    }
    Starts { at: out, count }
}

// x at its place, unless one as far is there.
fn enter(s: Starts, x: Start) -> Starts
    requires { s.count ≤ 6 }
    ensures { (starts_in result ≡ kept x (starts_in s)) × (result.count ≤ 6) }
{
    let at = s.at;
    let count = s.count;
    let i = place(at, count, x.distance);
    if i < count {
        let y = at[i];
        if x.distance == y.distance {
            return s;
        }
    }
    splice(at, count, i, x)
}

// The point at u and v put in, by the square of its distance. One that is no nearer than the last of six changes nothing, and no more do those from there on. What stands in the array beyond the count is left open, and so is which limit it answers.
pub fn keep(s: Starts, square: f64, u: f64, v: f64) -> Shortlist
    requires { (s.count ≤ 6) × Rising (starts_in s) × (lt square 0· ≡ false) × T (fits binary64 square) }
    ensures { (starts_in result.starts ≡ kept (start_at (root square) u v) (starts_in s)) × (result.starts.count ≤ 6) × Limits result.limit (starts_in result.starts) }
{
    let distance = root(square);
    if s.count == 6 {
        let last = s.at[5];
        if last.distance <= distance {
            return Shortlist {
                starts: s,
                limit: square,
            };
        }
    }
    let starts = enter(s, Start { distance, u, v });
    Shortlist {
        starts,
        limit: 0.0 / 0.0,
    }
}

// The square of a point's distance.
pub fn square_of(mark: Vector3, point: Vector3) -> f64
    ensures { result ≡ square_of mark point }
{
    let away = sub(point, mark);
    dot(away, away)
}
