// The axes of a surface: their counts and flags, by value, the knot domain of each, and a window on it.
#![tactic(auto)]

mod flags;
mod intervals;
mod windows;

pub use flags::shape_of;
pub use intervals::{domain_of, eighth, wrap, wrap_on};
pub use windows::{window_misfits, window_of};

// One axis. A periodic one wraps with its knot domain for a period.
#[derive(Clone, Copy)]
pub struct Counts {
    pub degree: usize,
    pub controls: usize,
    pub periodic: bool,
}

// Where marks may lie: on the whole domain, or from a lowest to a highest parameter of u, and of v.
#[derive(Clone, Copy)]
pub enum Window {
    Whole,
    Within(f64, f64, f64, f64),
}

#[derive(Clone, Copy)]
pub struct Shape {
    pub u: Counts,
    pub v: Counts,
    pub window: Window,
}

// The knot domain of an axis, or a window's part of it. Parameters outside of it wrap where the axis is periodic.
#[derive(Clone, Copy)]
pub struct Interval {
    pub low: f64,
    pub high: f64,
    pub periodic: bool,
}

#[derive(Clone, Copy)]
pub struct Domain {
    pub u: Interval,
    pub v: Interval,
}
