// A surface that passed its checks, and its evaluation, with no test for an overflow where the sizes of its numbers rule one out.
#![tactic(auto)]

mod accepting;
mod first_order;

ghost use Rattle.std.specs.Prelude.{◌≡◌};
ghost use Rattle.surface.specs.Surface.{evaluate_by};
ghost use Rattle.surface.specs.Lent.{surface_of, at_entry};
ghost use Rattle.scaled.specs.Accepted.{Accepts};

pub use accepting::accept;
use domain::{Domain, Shape};
use first_order::first_order;
pub use first_order::{LEAST_WEIGHT, sample_values};
use patch::Evaluated;
use surface::surface_jet;

// What the checks accepted: the surface's shape, where marks may lie, and how it is evaluated: by its largest weight, and with no test for an overflow where the sizes of its numbers rule one out.
#[derive(Clone, Copy)]
pub struct Accepted {
    pub shape: Shape,
    pub window: Domain,
    pub largest: f64,
    pub bounded: bool,
}

#[derive(Clone, Copy)]
pub enum Acceptance {
    Accepted(Accepted),
    Refusal(u64),
}

// What `surface_jet` answers.
pub fn scaled_jet(
    accepted: Accepted,
    ku: &[f64],
    kv: &[f64],
    controls: &[f64],
    weights: &[f64],
    u: f64,
    v: f64,
) -> Evaluated
    requires { Accepts (surface_of accepted.shape ku kv controls weights) accepted }
    ensures { result ≡ evaluate_by (at_entry accepted.shape ku kv controls weights) accepted.largest u v }
{
    if accepted.bounded {
        let quick = first_order(accepted, ku, kv, controls, weights, u, v);
        if let Evaluated::Found(_) = quick {
            return quick;
        }
    }
    surface_jet(
        accepted.shape,
        ku,
        kv,
        controls,
        weights,
        accepted.largest,
        u,
        v,
    )
}
