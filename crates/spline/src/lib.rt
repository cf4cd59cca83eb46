// The checks of a B-spline's weights and knots, and where a parameter lies among the knots.
#![tactic(auto)]

mod knots;
mod parameter;
mod weights;

pub use knots::{MAX_DEGREE, check_knots};
pub use parameter::{KnotSide, Snapped, snap, span};
pub use weights::{Weighed, validate_weights};
