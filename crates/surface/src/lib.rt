// A NURBS surface: its shape by value, beside the knots, controls and weights that a caller lends.
// Control (i, j) stands at i * v.controls + j, three coordinates each.
#![tactic(auto)]

mod axes;
mod checks;
mod jets;

pub use axes::{check_axes, too_large};
pub use checks::check;
pub use jets::{evaluate, surface_jet};
use patch::Jet;

// What the checks answer: the largest weight, by which all are to be divided, or the number of the refusal.
#[derive(Clone, Copy)]
pub enum Checked {
    Scale(f64),
    Refusal(u64),
}

#[derive(Clone, Copy)]
pub enum Evaluation {
    Found(Jet),
    Refusal(u64),
}
