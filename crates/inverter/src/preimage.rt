// How u and v move as a surface point moves by a vector.
ghost use Rattle.std.specs.Prelude.{◌≡◌};
ghost use Rattle.surface.specs.Surface.{refusal_of_surface, evaluate_by};
ghost use Rattle.surface.specs.Lent.{surface_of, at_entry};
ghost use Rattle.inverter.specs.Preimage.{resolved, moved, moved_from, derived};

use crate::Components;
use domain::Shape;
use patch::{Evaluated, Jet};
use surface::{Checked, check, surface_jet};
use vector3::{Vector3, dot, finite_vector};

// The determinant is held against a and c multiplied, and not as in a run.
fn resolve(a: f64, b: f64, c: f64, r0: f64, r1: f64) -> Components
    ensures { result ≡ resolved a b c r0 r1 }
{
    let det = a * c - b * b;
    if !float64::is_finite(det) || det <= 1.0e-24 * a * c {
        return Components::Refusal(10, 1);
    }
    Components::Along((c * r0 - b * r1) / det, (a * r1 - b * r0) / det)
}

fn moved(d: Vector3, j: Jet) -> Components
    ensures { result ≡ moved d j }
{
    let du = j.u;
    let dv = j.v;
    resolve(
        dot(du, du),
        dot(du, dv),
        dot(dv, dv),
        dot(du, d),
        dot(dv, d),
    )
}

// On a surface that passed its checks.
fn moved_at(
    shape: Shape,
    ku: &[f64],
    kv: &[f64],
    controls: &[f64],
    weights: &[f64],
    scale: f64,
    u: f64,
    v: f64,
    d: Vector3,
) -> Components
    requires { refusal_of_surface (surface_of shape ku kv controls weights) ≡ 0 }
    ensures { result ≡ moved_from d (evaluate_by (at_entry shape ku kv controls weights) scale u v) }
{
    let Evaluated::Found(j) = surface_jet(shape, ku, kv, controls, weights, scale, u, v) else {
        return Components::Refusal(9, 1);
    };
    moved(d, j)
}

// The derivative in u and v of the preimage of a curve that passes a surface point with a tangent, for one unit. Where a number of the answer is a NaN, its payload is free; nothing else is.
pub fn derivative(
    shape: Shape,
    ku: &[f64],
    kv: &[f64],
    controls: &[f64],
    weights: &[f64],
    u: f64,
    v: f64,
    d: Vector3,
    budget: u64,
) -> Components
    ensures { result ≡ derived (at_entry shape ku kv controls weights) u v d budget }
{
    let checked = check(shape, ku, kv, controls, weights);
    match checked {
        Checked::Refusal(n) => Components::Refusal(n, 0),
        Checked::Scale(scale) => {
            if !finite_vector(d) {
                return Components::Refusal(7, 0);
            }
            if budget == 0 {
                return Components::Refusal(8, 0);
            }
            moved_at(shape, ku, kv, controls, weights, scale, u, v, d)
        }
    }
}
