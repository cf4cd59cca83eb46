// The largest price that an inversion on a surface can have, from its shape and its knots alone. Nothing is evaluated and nothing charged.
#![tactic(auto)]

ghost use Rattle.std.specs.Prelude.{◌≡◌, false, ◌≤◌};
ghost use Rattle.surface.specs.Surface.{bare, too_large, refusal_of_axes};
ghost use Rattle.surface.specs.Lent.{bare_at_entry};
ghost use Rattle.quotation.specs.Quote.{grid_size, margin, quoted};

use domain::{Shape, window_of};
use grid::count_values;
use surface::{check_axes, too_large};

// How many points the grid has, and what an inversion takes at most: with that budget it is never short of a unit.
#[derive(Clone, Copy)]
pub struct Costing {
    pub grid: u64,
    pub most: u64,
}

#[derive(Clone, Copy)]
pub enum Quotation {
    Quoted(Costing),
    Refusal(u64),
}

// For an inversion with a hint or without one.
pub fn quote(shape: Shape, ku: &[f64], kv: &[f64], hinted: bool) -> Quotation
    ensures { result ≡ quoted (bare_at_entry shape ku kv) hinted }
{
    if too_large(shape, ku, kv) {
        return Quotation::Refusal(1);
    }
    let refusal = check_axes(shape, ku, kv);
    if refusal != 0 {
        return Quotation::Refusal(refusal);
    }
    let grid = grid_size(shape, ku, kv);
    Quotation::Quoted(Costing {
        grid,
        most: grid + margin(hinted),
    })
}

// The counts of the two axes, in the window where there is one.
fn grid_size(shape: Shape, ku: &[f64], kv: &[f64]) -> u64
    requires { (too_large (bare shape ku.now kv.now) ≡ false) × (refusal_of_axes shape ku.now kv.now ≡ 0) }
    ensures { (result ≡ grid_size (bare_at_entry shape ku kv)) × (result ≤ 37249) }
{
    let window = window_of(shape, ku, kv);
    let u = window.u;
    let v = window.v;
    let size = count_values(ku, u.low, u.high) * count_values(kv, v.low, v.high);
    size as u64
}

// What the runs add to the grid at most: 33 evaluations for each of six starts, and twice as many for a hint, whose run is charged again.
fn margin(hinted: bool) -> u64
    ensures { (result ≡ margin hinted) × (result ≤ 264) }
{
    if hinted {
        return 264;
    }
    198
}
