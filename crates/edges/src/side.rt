// One edge: nine samples, held against the middle one.
ghost use Rattle.std.specs.Prelude.{◌≡◌, ◌≤◌};
ghost use Rattle.surface.specs.Surface.{refusal_of_surface, evaluate_by};
ghost use Rattle.surface.specs.Lent.{surface_of, at_entry};
ghost use Rattle.edges.specs.Edges as Edges;

use crate::{Edge, Singular};
use domain::{Interval, Shape, eighth};
use patch::Evaluated;
use surface::surface_jet;
use vector3::{Vector3, distance};

// The domain along axis k, 0 for u and 1 for v, where the parameter across it has the value.
#[derive(Clone, Copy)]
pub struct Line {
    pub k: u64,
    pub along: Interval,
    pub value: f64,
}

pub(crate) fn line_of(k: u64, along: Interval, value: f64) -> Line
    ensures { result ≡ Edges.line k along value }
{
    Line { k, along, value }
}

// The sample with number i, of nine.
fn jet_on(
    shape: Shape,
    ku: &[f64],
    kv: &[f64],
    controls: &[f64],
    weights: &[f64],
    scale: f64,
    line: Line,
    i: usize,
) -> Evaluated
    requires { (refusal_of_surface (surface_of shape ku kv controls weights) ≡ 0) × (i ≤ 8) }
    ensures { result ≡ Edges.jet_on (evaluate_by (at_entry shape ku kv controls weights) scale) line i }
{
    let along = line.along;
    let value = line.value;
    let t = eighth(along.low, along.high, i);
    if line.k == 0 {
        return surface_jet(shape, ku, kv, controls, weights, scale, t, value);
    }
    surface_jet(shape, ku, kv, controls, weights, scale, value, t)
}

fn near(tolerance: f64, point: Vector3, e: Evaluated) -> bool
    ensures { result ≡ Edges.near tolerance point e }
{
    match e {
        Evaluated::Found(jet) => distance(jet.point, point) <= tolerance,
        Evaluated::Refused => false,
    }
}

// Left at the first sample that is refused or too far.
fn all_near(
    shape: Shape,
    ku: &[f64],
    kv: &[f64],
    controls: &[f64],
    weights: &[f64],
    scale: f64,
    tolerance: f64,
    line: Line,
    point: Vector3,
) -> bool
    requires { refusal_of_surface (surface_of shape ku kv controls weights) ≡ 0 }
    ensures { result ≡ Edges.all_near (evaluate_by (at_entry shape ku kv controls weights) scale) line tolerance point 9 0 }
{
    for i in 0..9 {
        let e = jet_on(shape, ku, kv, controls, weights, scale, line, i);
        if !near(tolerance, point, e) {
            return false;
        }
    }
    true
}

pub(crate) fn edge(
    shape: Shape,
    ku: &[f64],
    kv: &[f64],
    controls: &[f64],
    weights: &[f64],
    scale: f64,
    tolerance: f64,
    line: Line,
    side: f64,
) -> Edge
    requires { refusal_of_surface (surface_of shape ku kv controls weights) ≡ 0 }
    ensures { result ≡ Edges.edge_of (evaluate_by (at_entry shape ku kv controls weights) scale) tolerance line side }
{
    let middle = jet_on(shape, ku, kv, controls, weights, scale, line, 4);
    let Evaluated::Found(jet) = middle else {
        return Edge::Open;
    };
    let point = jet.point;
    if !all_near(
        shape, ku, kv, controls, weights, scale, tolerance, line, point,
    ) {
        return Edge::Open;
    }
    Edge::Collapsed(Singular {
        k: line.k,
        value: line.value,
        point,
        side,
    })
}
