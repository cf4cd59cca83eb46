// The calls that place a mark. Each tests its own input.
#![tactic(auto)]

mod plane;
mod preimage;

ghost use Rattle.std.specs.Prelude.{◌≡◌};
ghost use Rattle.surface.specs.Surface.{refusal_of_surface};
ghost use Rattle.surface.specs.Doubles.{Doubled};
ghost use Rattle.surface.specs.Lent.{at_entry};
ghost use Rattle.inverter.specs.Inverter.{placed};

use chart::{Placing, Terms, invert_checked};
use domain::Shape;
pub use plane::{Frame, invert_plane};
pub use preimage::derivative;
use scaled::{Acceptance, accept};
use vector3::Vector3;

// What a call of one unit answers: the components of a vector along two others; or the number of a refusal and the units taken.
#[derive(Clone, Copy)]
pub enum Components {
    Along(f64, f64),
    Refusal(u64, u64),
}

// The surface point nearest to a mark.
pub fn invert(
    shape: Shape,
    ku: &[f64],
    kv: &[f64],
    controls: &[f64],
    weights: &[f64],
    mark: Vector3,
    terms: Terms,
    budget: u64,
) -> Placing
    ensures value { result ≡ placed (at_entry shape ku kv controls weights) mark terms budget }
    ensures doubled { refusal_of_surface (at_entry shape ku kv controls weights) ≡ 0 → Doubled (at_entry shape ku kv controls weights) }
{
    match accept(shape, ku, kv, controls, weights) {
        Acceptance::Refusal(n) => Placing::Refusal(n, 0),
        Acceptance::Accepted(accepted) => invert_checked(
            accepted, ku, kv, controls, weights, mark, terms, budget,
        ),
    }
}
