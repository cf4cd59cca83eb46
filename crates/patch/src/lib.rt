// The homogeneous sums over the controls of a patch, and the rational quotient of them.
#![tactic(auto)]

ghost use Rattle.std.specs.Prelude.{cond, ◌≡◌};
ghost use Rattle.patch.specs.Patch as Patch;

use float64::is_finite;
use vector3::{Vector3, finite_vector};

// A basis function's value, first and second derivative.
#[derive(Clone, Copy)]
pub struct Derivatives {
    pub value: f64,
    pub first: f64,
    pub second: f64,
}

// A sum of weights, and of the controls' coordinates by the same weights.
#[derive(Clone, Copy)]
pub struct Sum {
    pub w: f64,
    pub x: f64,
    pub y: f64,
    pub z: f64,
}

// One for each derivative up to the second.
#[derive(Clone, Copy)]
pub struct Sums {
    pub value: Sum,
    pub u: Sum,
    pub v: Sum,
    pub uu: Sum,
    pub uv: Sum,
    pub vv: Sum,
}

// A surface point, and its derivatives along u and along v.
#[derive(Clone, Copy)]
pub struct Jet {
    pub point: Vector3,
    pub u: Vector3,
    pub v: Vector3,
}

#[derive(Clone, Copy)]
pub enum Evaluated {
    Found(Jet),
    Refused,
}

pub fn empty_sum() -> Sum
    ensures { result ≡ Patch.empty_sum }
{
    Sum {
        w: 0.0,
        x: 0.0,
        y: 0.0,
        z: 0.0,
    }
}

pub fn empty_sums() -> Sums
    ensures { result ≡ Patch.empty_sums }
{
    let s = empty_sum();
    Sums {
        value: s,
        u: s,
        v: s,
        uu: s,
        uv: s,
        vv: s,
    }
}

// A control p more, by the coefficient c.
pub fn more(c: f64, p: Vector3, s: Sum) -> Sum
    ensures { result ≡ Patch.more c p s }
{
    Sum {
        w: s.w + c,
        x: s.x + c * p.x,
        y: s.y + c * p.y,
        z: s.z + c * p.z,
    }
}

// A control p more, at which the functions of u and of v have the derivatives a and b.
pub fn add_control(a: Derivatives, b: Derivatives, weight: f64, p: Vector3, s: Sums) -> Sums
    ensures { result ≡ Patch.add_control (Patch.three_of a) (Patch.three_of b) weight p s }
{
    let Sums {
        value,
        u,
        v,
        uu,
        uv,
        vv,
    } = s;
    Sums {
        value: more(a.value * b.value * weight, p, value),
        u: more(a.first * b.value * weight, p, u),
        v: more(a.value * b.first * weight, p, v),
        uu: more(a.second * b.value * weight, p, uu),
        uv: more(a.first * b.first * weight, p, uv),
        vv: more(a.value * b.second * weight, p, vv),
    }
}

pub fn point(s: Sum) -> Vector3
    ensures { result ≡ Patch.point_of s }
{
    Vector3 {
        x: s.x / s.w,
        y: s.y / s.w,
        z: s.z / s.w,
    }
}

// The first derivative from its own sum, with the point p. Here and below w is the weight sum.
pub fn first(w: f64, s: Sum, p: Vector3) -> Vector3
    ensures { result ≡ Patch.first_of w s p }
{
    Vector3 {
        x: (s.x - s.w * p.x) / w,
        y: (s.y - s.w * p.y) / w,
        z: (s.z - s.w * p.z) / w,
    }
}

// The second derivative along one axis, of which w1 and a are the first derivatives of the weight and of the point.
pub fn second(w: f64, s: Sum, w1: f64, a: Vector3, p: Vector3) -> Vector3
    ensures { result ≡ Patch.second_of w s w1 a p }
{
    Vector3 {
        x: (s.x - 2.0 * w1 * a.x - s.w * p.x) / w,
        y: (s.y - 2.0 * w1 * a.y - s.w * p.y) / w,
        z: (s.z - 2.0 * w1 * a.z - s.w * p.z) / w,
    }
}

fn mixed(w: f64, s: Sum, w1: f64, a: Vector3, w2: f64, b: Vector3, p: Vector3) -> Vector3
    ensures { result ≡ Patch.mixed_of w s w1 a w2 b p }
{
    Vector3 {
        x: (s.x - w1 * b.x - w2 * a.x - s.w * p.x) / w,
        y: (s.y - w1 * b.y - w2 * a.y - s.w * p.y) / w,
        z: (s.z - w1 * b.z - w2 * a.z - s.w * p.z) / w,
    }
}

pub fn finite_sum(s: Sum) -> bool
    ensures { result ≡ Patch.finite_sum s }
{
    is_finite(s.w) & is_finite(s.x) & is_finite(s.y) & is_finite(s.z)
}

fn finite_sums(s: Sums) -> bool
    ensures { result ≡ Patch.finite_sums s }
{
    let Sums {
        value,
        u,
        v,
        uu,
        uv,
        vv,
    } = s;
    finite_sum(value)
        & finite_sum(u)
        & finite_sum(v)
        & finite_sum(uu)
        & finite_sum(uv)
        & finite_sum(vv)
}

// The second derivatives are worked out only to be tested: an overflow in one refuses the whole.
fn finite_seconds(s: Sums, p: Vector3, a: Vector3, b: Vector3) -> bool
    ensures { result ≡ Patch.finite_seconds s p a b }
{
    let Sums {
        value,
        u,
        v,
        uu,
        uv,
        vv,
    } = s;
    let w = value.w;
    finite_vector(second(w, uu, u.w, a, p))
        & finite_vector(mixed(w, uv, u.w, a, v.w, b, p))
        & finite_vector(second(w, vv, v.w, b, p))
}

// The point and its first derivatives, with no test.
pub fn jet_of_sums(value: Sum, u: Sum, v: Sum) -> Jet
    ensures { result ≡ Patch.jet_of_sums value u v }
{
    let p = point(value);
    Jet {
        point: p,
        u: first(value.w, u, p),
        v: first(value.w, v, p),
    }
}

fn jet_if(finite: bool, p: Vector3, a: Vector3, b: Vector3) -> Evaluated
    ensures { result ≡ cond finite (Evaluated.Found (Patch.jet_of p a b)) Evaluated.Refused }
{
    if finite {
        return Evaluated::Found(Jet {
            point: p,
            u: a,
            v: b,
        });
    }
    Evaluated::Refused
}

fn quotients(s: Sums) -> Evaluated
    ensures { result ≡ Patch.quotients s }
{
    let Sums { value, u, v, .. } = s;
    let p = point(value);
    let a = first(value.w, u, p);
    let b = first(value.w, v, p);
    let finite = finite_vector(p)
        & finite_vector(a)
        & finite_vector(b)
        & finite_seconds(s, p, a, b);
    jet_if(finite, p, a, b)
}

// Refused where a sum or a quotient is not finite, or the weight sum not above 0.
pub fn rational(s: Sums) -> Evaluated
    ensures { result ≡ Patch.rational s }
{
    let value = s.value;
    if finite_sums(s) & !(value.w <= 0.0) {
        return quotients(s);
    }
    Evaluated::Refused
}
