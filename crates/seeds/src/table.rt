// The values of the functions at the grid's values, worked out once: those of v for the whole grid, those of u for a row.
ghost use Rattle.std.specs.Prelude.{◌≡◌, true, ◌*◌, ◌≤◌, length, replicate};
ghost use Rattle.float64.specs.Operators.{0·};
ghost use Rattle.spline.specs.Knots.{refusal_of_knots};
ghost use Rattle.basis.specs.Magnitude.{Bounded};
ghost use Rattle.surface.specs.Surface.{evaluate_by};
ghost use Rattle.domain.specs.Intervals.{axis_of};
ghost use Rattle.surface.specs.Lent.{surface_of, at_entry};
ghost use Rattle.seeds.specs.Table.{located, Known, Tabled, NetFor, Starting, Prepared};

use crate::{Located, Node};
use domain::Counts;
use grid::Values;
use net::{sum_over, weigh};
use patch::{Evaluated, point};
use scaled::{Accepted, LEAST_WEIGHT, sample_values};
use surface::surface_jet;

// The values of an axis's functions at t, put into an empty row. One more than where they start; 0 where they are refused, and where an overflow is not ruled out.
pub(crate) fn first_of(
    knots: &[f64],
    counts: Counts,
    bounded: bool,
    t: f64,
    row: &mut [f64; 18],
) -> usize
    requires { (refusal_of_knots (axis_of counts knots.now) ≡ 0) × (bounded ≡ true → Bounded (axis_of counts knots.now)) × (row.old ≡ replicate 18 0·) }
    ensures { Known bounded counts knots.now t result row.new }
{
    if !bounded {
        return 0;
    }
    let place = sample_values(knots, counts, t, row);
    if !place.found {
        return 0;
    }
    place.start + 1
}

// The same of an axis's values, each with its own row.
pub(crate) fn fill_table(
    knots: &[f64],
    counts: Counts,
    bounded: bool,
    values: Values,
    table: &mut [[f64; 18]; 193],
    firsts: &mut [usize; 193],
)
    requires { (refusal_of_knots (axis_of counts knots.now) ≡ 0) × (bounded ≡ true → Bounded (axis_of counts knots.now)) × (values.count ≤ 193) × (table.old ≡ replicate 193 (replicate 18 0·)) × (length firsts.old ≡ 193) }
    ensures { Tabled bounded counts knots.now values.at values.count table.new firsts.new }
{
    let at = values.at;
    let count = values.count;
    for j in 0..count {
        firsts[j] = first_of(knots, counts, bounded, at[j], &mut table[j]);
    }
}

// The net holds the weights of the patch where `weighed` starts in the row, unless it is 0: those of another are put there.
fn reweigh(accepted: Accepted, weights: &[f64], node: Node, net: &mut [f64; 289])
    requires { (length weights.now ≡ accepted.shape.u.controls * accepted.shape.v.controls) × Starting accepted node × NetFor accepted weights.now node.row node.weighed net.old }
    ensures { NetFor accepted weights.now node.row node.column net.new }
{
    if node.weighed != node.column {
        weigh(
            accepted.shape,
            weights,
            accepted.largest,
            node.row - 1,
            node.column - 1,
            net,
        );
    }
}

fn located(e: Evaluated) -> Located
    ensures { result ≡ located e }
{
    match e {
        Evaluated::Found(j) => {
            let p = j.point;
            Located::At(p)
        }
        Evaluated::Refused => Located::Refused,
    }
}

// The surface point at a node, of which us and vs are the functions' values: from these where they start at a row and a column, and the weight sum is large enough.
pub(crate) fn point_at(
    accepted: Accepted,
    ku: &[f64],
    kv: &[f64],
    controls: &[f64],
    weights: &[f64],
    node: Node,
    us: &[f64; 18],
    vs: &[f64; 18],
    net: &mut [f64; 289],
) -> Located
    requires { Prepared accepted (surface_of accepted.shape ku kv controls weights) node us.now vs.now net.old }
    ensures value { result ≡ located (evaluate_by (at_entry accepted.shape ku kv controls weights) accepted.largest node.u node.v) }
    ensures net_for { NetFor accepted weights.now node.row node.column net.new }
{
    if (node.row != 0) & (node.column != 0) {
        reweigh(accepted, weights, node, net);
        let sum = sum_over(
            accepted.shape,
            controls,
            &*net,
            us,
            node.row - 1,
            vs,
            node.column - 1,
        );
        if LEAST_WEIGHT <= sum.w {
            return Located::At(point(sum));
        }
    }
    located(surface_jet(
        accepted.shape,
        ku,
        kv,
        controls,
        weights,
        accepted.largest,
        node.u,
        node.v,
    ))
}
