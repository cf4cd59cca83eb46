// How a row ended, and the edges that collapse, written to what the caller lent.
ghost use Rattle.std.specs.Prelude.{◌≡◌, ◌∷◌, ◌+◌, ◌≤◌, length, drop};
ghost use Rattle.row.specs.Row.{number_of, index_of, left_of};
ghost use Rattle.laid.specs.Laid.{first_of, flag_of, edge_at, edges_into};

use edges::{Edge, Edges};
use row::RowEnd;

pub fn lay_ended(ended: RowEnd, budget: &mut [u64], index: &mut [u64]) -> u64
    requires { (1 ≤ length budget.old) × (1 ≤ length index.old) }
    ensures value { result ≡ number_of ended }
    ensures budget_after { budget.new ≡ first_of (left_of ended) budget.old }
    ensures index_after { index.new ≡ first_of (index_of ended) index.old }
{
    match ended {
        RowEnd::Placed(left) => {
            budget[0] = left;
            index[0] = 0;
            0
        }
        RowEnd::Refusal(number, i, left) => {
            budget[0] = left;
            index[0] = i as u64;
            number
        }
    }
}

fn flag_of(edge: Edge) -> u64
    ensures { result ≡ flag_of edge }
{
    match edge {
        Edge::Open => 0,
        Edge::Collapsed(_) => 1,
    }
}

fn lay_flags(a: Edge, b: Edge, c: Edge, d: Edge, collapsed: &mut [u64])
    requires { 4 ≤ length collapsed.old }
    ensures { collapsed.new ≡ flag_of a ∷ (flag_of b ∷ (flag_of c ∷ (flag_of d ∷ drop 4 collapsed.old))) }
{
    collapsed[0] = flag_of(a);
    collapsed[1] = flag_of(b);
    collapsed[2] = flag_of(c);
    collapsed[3] = flag_of(d);
}

fn lay_edge(edge: Edge, i: usize, edges: &mut [f64])
    requires { (i ≤ 15) × (i + 5 ≤ length edges.old) }
    ensures { edges.new ≡ edge_at i edge edges.old }
{
    let Edge::Collapsed(e) = edge else {
        return;
    };
    let point = e.point;
    edges[i] = e.value;
    edges[i + 1] = point.x;
    edges[i + 2] = point.y;
    edges[i + 3] = point.z;
    edges[i + 4] = e.side;
}

fn lay_numbers(a: Edge, b: Edge, c: Edge, d: Edge, edges: &mut [f64])
    requires { 20 ≤ length edges.old }
    ensures { edges.new ≡ edge_at 15 d (edge_at 10 c (edge_at 5 b (edge_at 0 a edges.old))) }
{
    lay_edge(a, 0, edges);
    lay_edge(b, 5, edges);
    lay_edge(c, 10, edges);
    lay_edge(d, 15, edges);
}

pub fn lay_edges(found: Edges, collapsed: &mut [u64], edges: &mut [f64]) -> u64
    requires { (4 ≤ length collapsed.old) × (20 ≤ length edges.old) }
    ensures { record { number = result; collapsed = collapsed.new; edges = edges.new } ≡ edges_into found collapsed.old edges.old }
{
    match found {
        Edges::Refusal(n) => n,
        Edges::Found(a, b, c, d) => {
            lay_flags(a, b, c, d, collapsed);
            lay_numbers(a, b, c, d, edges);
            0
        }
    }
}
