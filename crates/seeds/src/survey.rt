// The walk of the grid: every u value with every v value is evaluated, and the points nearest to the mark are kept.
ghost use Rattle.std.specs.Prelude.{◌≡◌, ◌≤◌};
ghost use Rattle.vector3.specs.Laws.{Finite};
ghost use Rattle.price.specs.Price.{mapped, spend};
ghost use Rattle.surface.specs.Surface.{evaluate_by};
ghost use Rattle.surface.specs.Lent.{surface_of, at_entry};
ghost use Rattle.scaled.specs.Accepted.{Accepts};
ghost use Rattle.grid.specs.Axis.{listed};
ghost use Rattle.shortlist.specs.FirstSix.{starts_of};
ghost use Rattle.seeds.specs.Grid.{survey};
ghost use Rattle.seeds.specs.Walk.{walked_of};

use crate::table::{fill_table, first_of, point_at};
use crate::{Located, Node, Walked};
use grid::Values;
use scaled::Accepted;
use shortlist::{Shortlist, keep, no_starts, square_of};
use vector3::Vector3;

fn walked(refusal: u64, taken: u64, shortlist: Shortlist) -> Walked
    ensures { result ≡ record { refusal = refusal; taken = taken; starts = shortlist.starts } }
{
    let starts = shortlist.starts;
    Walked {
        refusal,
        taken,
        starts,
    }
}

// Each charge comes before its evaluation. Left open are the starts where an evaluation refused; where no unit was left, the starts, the units taken and the number, which is neither 0 nor 9. The shape is lent from where it stands in `accepted`: a variable of its own would be put together again for each point.
pub fn walk(
    accepted: Accepted,
    ku: &[f64],
    kv: &[f64],
    controls: &[f64],
    weights: &[f64],
    us: Values,
    vs: Values,
    mark: Vector3,
    budget: u64,
) -> Walked
    requires { Accepts (surface_of accepted.shape ku kv controls weights) accepted × (us.count ≤ 193) × (vs.count ≤ 193) × Finite mark }
    ensures { (walked_of result ≡ spend budget (mapped starts_of (survey mark (evaluate_by (at_entry accepted.shape ku kv controls weights) accepted.largest) (listed us) (listed vs)))) × (result.starts.count ≤ 6) }
{
    let bounded = accepted.bounded;
    let u_at = us.at;
    let v_at = vs.at;
    let rows = us.count;
    let columns = vs.count;
    let mut table = [[0.0f64; 18]; 193];
    let mut firsts = [0usize; 193];
    fill_table(kv, accepted.shape.v, bounded, vs, &mut table, &mut firsts);
    let mut net = [0.0f64; 289];
    let mut taken: u64 = 0;
    let mut shortlist = no_starts();
    for i in 0..rows {
        let u = u_at[i];
        let mut values = [0.0f64; 18];
        let row = first_of(ku, accepted.shape.u, bounded, u, &mut values);
        let mut weighed: usize = 0;
        for j in 0..columns {
            if taken == budget {
                return walked(8, taken, shortlist);
            }
            taken += 1;
            let v = v_at[j];
            let column = firsts[j];
            let node = Node {
                u,
                v,
                row,
                column,
                weighed,
            };
            let Located::At(point) = point_at(
                accepted, ku, kv, controls, weights, node, &values, &table[j], &mut net,
            ) else {
                return walked(9, taken, shortlist);
            };
            weighed = column;
            let square = square_of(mark, point);
            let beyond = shortlist.limit <= square;
            if !beyond {
                shortlist = keep(shortlist.starts, square, u, v);
            }
        }
    }
    walked(0, taken, shortlist)
}
