// The edges of a surface's domain along which the surface is one point, within a tolerance.
#![tactic(auto)]

mod side;

ghost use Rattle.std.specs.Prelude.{◌≡◌};
ghost use Rattle.surface.specs.Surface.{refusal_of_surface};
ghost use Rattle.surface.specs.Lent.{surface_of, at_entry};
ghost use Rattle.edges.specs.Edges.{edges_of, sound_tolerance, tested, singular};

use domain::{Shape, domain_of};
use float64::is_finite;
use side::{edge, line_of};
use surface::{Checked, check};
use vector3::Vector3;

// The parameter across axis k has the value. The surface lies at larger ones where side is 1, at smaller ones where it is -1.
#[derive(Clone, Copy)]
pub struct Singular {
    pub k: u64,
    pub value: f64,
    pub point: Vector3,
    pub side: f64,
}

#[derive(Clone, Copy)]
pub enum Edge {
    Open,
    Collapsed(Singular),
}

// The edges along u at the lower and upper end of v, then those along v at the ends of u; or the number of a refusal.
#[derive(Clone, Copy)]
pub enum Edges {
    Found(Edge, Edge, Edge, Edge),
    Refusal(u64),
}

pub fn nurbs_singular(
    shape: Shape,
    ku: &[f64],
    kv: &[f64],
    controls: &[f64],
    weights: &[f64],
    tolerance: f64,
) -> Edges
    ensures { result ≡ singular (at_entry shape ku kv controls weights) tolerance }
{
    let checked = check(shape, ku, kv, controls, weights);
    match checked {
        Checked::Refusal(n) => Edges::Refusal(n),
        Checked::Scale(scale) => singular_checked(
            shape, ku, kv, controls, weights, scale, tolerance,
        ),
    }
}

// Check 7. A tolerance of -0 passes.
fn sound_tolerance(tolerance: f64) -> bool
    ensures { result ≡ sound_tolerance tolerance }
{
    is_finite(tolerance) & (0.0 <= tolerance)
}

// Of a surface that passed its checks.
fn singular_checked(
    shape: Shape,
    ku: &[f64],
    kv: &[f64],
    controls: &[f64],
    weights: &[f64],
    scale: f64,
    tolerance: f64,
) -> Edges
    requires { refusal_of_surface (surface_of shape ku kv controls weights) ≡ 0 }
    ensures { result ≡ tested (at_entry shape ku kv controls weights) scale tolerance (sound_tolerance tolerance) }
{
    if !sound_tolerance(tolerance) {
        return Edges::Refusal(7);
    }
    all_edges(shape, ku, kv, controls, weights, scale, tolerance)
}

// The four edges, in the source's order.
fn all_edges(
    shape: Shape,
    ku: &[f64],
    kv: &[f64],
    controls: &[f64],
    weights: &[f64],
    scale: f64,
    tolerance: f64,
) -> Edges
    requires { refusal_of_surface (surface_of shape ku kv controls weights) ≡ 0 }
    ensures { result ≡ edges_of (at_entry shape ku kv controls weights) scale tolerance }
{
    let domain = domain_of(shape, ku, kv);
    let u = domain.u;
    let v = domain.v;
    let a = line_of(0, u, v.low);
    let b = line_of(0, u, v.high);
    let c = line_of(1, v, u.low);
    let d = line_of(1, v, u.high);
    Edges::Found(
        edge(shape, ku, kv, controls, weights, scale, tolerance, a, 1.0),
        edge(shape, ku, kv, controls, weights, scale, tolerance, b, -1.0),
        edge(shape, ku, kv, controls, weights, scale, tolerance, c, 1.0),
        edge(shape, ku, kv, controls, weights, scale, tolerance, d, -1.0),
    )
}
