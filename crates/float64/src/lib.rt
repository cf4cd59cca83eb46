// The methods of Rust's f64 that the port uses. Each answers for every f64, NaN and infinities included.
#![tactic(auto)]

mod bits;
mod remainder;

ghost use Rattle.std.specs.Prelude.{◌≡◌};
ghost use Rattle.float64.specs.Functions as Functions;

use remainder::remainder;

// Two comparisons: f64::is_finite subtracts first, and takes half as long again in a loop that stops at the first that isn't.
#[tactic(auto, using(crate::proofs::Methods::finite_below, crate::proofs::Methods::finite_unless))]
pub fn is_finite(x: f64) -> bool
    ensures { result ≡ Functions.is_finite x }
{
    x < f64::INFINITY && f64::NEG_INFINITY < x
}

#[tactic(auto, using(crate::proofs::Methods::abs_is))]
pub fn abs(x: f64) -> f64
    ensures { result ≡ Functions.abs x }
{
    x.abs()
}

// A NaN gives way to the other number. Of two equal numbers it is the first, which tells -0 from +0: f64::max leaves that open.
#[tactic(auto, unfolding(crate::specs::Functions::max))]
pub fn max(x: f64, y: f64) -> f64
    ensures { result ≡ Functions.max x y }
{
    if x.is_nan() || x < y { y } else { x }
}

// The first where they are equal or one of them is a NaN. One step of the machine each, where `max` takes more.
pub fn larger(x: f64, other: f64) -> f64
    ensures { result ≡ Functions.larger x other }
{
    if x < other { other } else { x }
}

pub fn lesser(x: f64, other: f64) -> f64
    ensures { result ≡ Functions.lesser x other }
{
    if other < x { other } else { x }
}

// A NaN passes, and so does an x that equals an end: its zero keeps its sign. f64::clamp asks that lo be at most hi, and this of no caller.
#[tactic(auto, unfolding(crate::specs::Functions::clamp))]
pub fn clamp(x: f64, lo: f64, hi: f64) -> f64
    ensures { result ≡ Functions.clamp x lo hi }
{
    if x < lo {
        lo
    } else if hi < x {
        hi
    } else {
        x
    }
}

// The double nearest to the root: a NaN for a NaN and below zero, and a zero keeps its sign.
#[tactic(auto, using(crate::proofs::SquareRoot::root_is))]
pub fn root(x: f64) -> f64
    ensures { result ≡ Functions.root x }
{
    x.sqrt()
}

// The nearest whole number, a half away from zero. The sign stays, that of a zero too.
#[tactic(auto, using(crate::proofs::Methods::round_is))]
pub fn round(x: f64) -> f64
    ensures { result ≡ Functions.round_away x }
{
    x.round()
}

#[tactic(auto, using(crate::proofs::Methods::abs_is), unfolding(crate::specs::Functions::rem_euclid))]
pub fn rem_euclid(x: f64, y: f64) -> f64
    ensures { result ≡ Functions.rem_euclid x y }
{
    let r = remainder(x, y);
    if r < 0.0 { r + y.abs() } else { r }
}
