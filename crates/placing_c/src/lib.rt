// The static library for C and Rust: `placing` under its own names, for a crate is a library or a static library. Each export states what the function that it calls does.
#![tactic(auto)]

ghost use Rattle.std.specs.Prelude.{◌≡◌, length};
ghost use Rattle.domain.specs.Flags.{shape_of};
ghost use Rattle.surface.specs.Lent.{at_entry, bare_at_entry};
ghost use Rattle.lent.specs.Lent.{window_from};
ghost use Rattle.placing.specs.Boundary.{vector, quotes, evaluates, inverts, rows, derives, tells, locates, prints};

// The size of the grid, and what an inversion takes at most: with a hint where `hinted` is 1, and without one where it is 0.
#[unsafe(no_mangle)]
pub extern "C" fn placing_quote(
    du: usize,
    dv: usize,
    nu: usize,
    nv: usize,
    flags: u64,
    ku: &[f64],
    kv: &[f64],
    window: &[f64],
    hinted: u64,
    quoted: &mut [u64],
) -> u64
    ensures { record { number = result; quote = quoted.new } ≡ quotes flags (length window.now) hinted (bare_at_entry (shape_of du dv nu nv flags (window_from window.now)) ku kv) quoted.old }
{
    placing::placing_quote(du, dv, nu, nv, flags, ku, kv, window, hinted, quoted)
}

// Nine numbers: the point, the derivative along u and that along v.
#[unsafe(no_mangle)]
pub extern "C" fn placing_evaluate(
    du: usize,
    dv: usize,
    nu: usize,
    nv: usize,
    flags: u64,
    ku: &[f64],
    kv: &[f64],
    controls: &[f64],
    weights: &[f64],
    window: &[f64],
    u: f64,
    v: f64,
    jet: &mut [f64],
) -> u64
    ensures { record { number = result; jet = jet.new } ≡ evaluates flags (length window.now) (at_entry (shape_of du dv nu nv flags (window_from window.now)) ku kv controls weights) u v jet.old }
{
    placing::placing_evaluate(
        du, dv, nu, nv, flags, ku, kv, controls, weights, window, u, v, jet,
    )
}

// The surface point nearest to the mark (x, y, z). A hint is two numbers or none, a period (pu, pv) one or none. How its run ended, and where that came from, are a byte each.
#[unsafe(no_mangle)]
pub extern "C" fn placing_invert(
    du: usize,
    dv: usize,
    nu: usize,
    nv: usize,
    flags: u64,
    ku: &[f64],
    kv: &[f64],
    controls: &[f64],
    weights: &[f64],
    window: &[f64],
    x: f64,
    y: f64,
    z: f64,
    hint: &[f64],
    tolerance: f64,
    pu: &[f64],
    pv: &[f64],
    budget: &mut [u64],
    pair: &mut [f64],
    ended: &mut [u8],
) -> u64
    ensures { record { number = result; budget = budget.new; pair = pair.new; ended = ended.new } ≡ inverts flags (length window.now) (at_entry (shape_of du dv nu nv flags (window_from window.now)) ku kv controls weights) (vector x y z) hint.now tolerance pu.now pv.now budget.old pair.old ended.old }
{
    placing::placing_invert(
        du, dv, nu, nv, flags, ku, kv, controls, weights, window, x, y, z, hint, tolerance, pu, pv,
        budget, pair, ended,
    )
}

// A row of marks, three coordinates each, for two numbers an answer and two bytes of its end. The index is that of the mark refused, if one was.
#[unsafe(no_mangle)]
pub extern "C" fn placing_row(
    du: usize,
    dv: usize,
    nu: usize,
    nv: usize,
    flags: u64,
    ku: &[f64],
    kv: &[f64],
    controls: &[f64],
    weights: &[f64],
    window: &[f64],
    marks: &[f64],
    hint: &[f64],
    tolerance: f64,
    pu: &[f64],
    pv: &[f64],
    budget: &mut [u64],
    index: &mut [u64],
    answers: &mut [f64],
    ends: &mut [u8],
) -> u64
    ensures { record { number = result; budget = budget.new; index = index.new; answers = answers.new; ends = ends.new } ≡ rows flags (length window.now) (at_entry (shape_of du dv nu nv flags (window_from window.now)) ku kv controls weights) marks.now hint.now tolerance pu.now pv.now budget.old index.old answers.old ends.old }
{
    placing::placing_row(
        du, dv, nu, nv, flags, ku, kv, controls, weights, window, marks, hint, tolerance, pu, pv,
        budget, index, answers, ends,
    )
}

// How u and v move as the surface point at them moves by the vector (x, y, z).
#[unsafe(no_mangle)]
pub extern "C" fn placing_derivative(
    du: usize,
    dv: usize,
    nu: usize,
    nv: usize,
    flags: u64,
    ku: &[f64],
    kv: &[f64],
    controls: &[f64],
    weights: &[f64],
    window: &[f64],
    u: f64,
    v: f64,
    x: f64,
    y: f64,
    z: f64,
    budget: &mut [u64],
    pair: &mut [f64],
) -> u64
    ensures { record { number = result; budget = budget.new; pair = pair.new } ≡ derives flags (length window.now) (at_entry (shape_of du dv nu nv flags (window_from window.now)) ku kv controls weights) u v (vector x y z) budget.old pair.old }
{
    placing::placing_derivative(
        du, dv, nu, nv, flags, ku, kv, controls, weights, window, u, v, x, y, z, budget, pair,
    )
}

// The edges along u at the lower and upper end of v, then those along v at the ends of u: whether each collapses, and five numbers of each that does.
#[unsafe(no_mangle)]
pub extern "C" fn placing_nurbs_singular(
    du: usize,
    dv: usize,
    nu: usize,
    nv: usize,
    flags: u64,
    ku: &[f64],
    kv: &[f64],
    controls: &[f64],
    weights: &[f64],
    window: &[f64],
    tolerance: f64,
    collapsed: &mut [u64],
    edges: &mut [f64],
) -> u64
    ensures { record { number = result; collapsed = collapsed.new; edges = edges.new } ≡ tells flags (length window.now) (at_entry (shape_of du dv nu nv flags (window_from window.now)) ku kv controls weights) tolerance collapsed.old edges.old }
{
    placing::placing_nurbs_singular(
        du, dv, nu, nv, flags, ku, kv, controls, weights, window, tolerance, collapsed, edges,
    )
}

// The coordinates of the mark (x, y, z) in a plane's frame: its origin (ox, oy, oz) and the axes of u and of v.
#[unsafe(no_mangle)]
pub extern "C" fn placing_plane(
    ox: f64,
    oy: f64,
    oz: f64,
    ux: f64,
    uy: f64,
    uz: f64,
    vx: f64,
    vy: f64,
    vz: f64,
    x: f64,
    y: f64,
    z: f64,
    budget: &mut [u64],
    pair: &mut [f64],
) -> u64
    ensures { record { number = result; budget = budget.new; pair = pair.new } ≡ locates (record { origin = vector ox oy oz; x = vector ux uy uz; y = vector vx vy vz }) (vector x y z) budget.old pair.old }
{
    placing::placing_plane(ox, oy, oz, ux, uy, uz, vx, vy, vz, x, y, z, budget, pair)
}

// The printout of a job file, and how many bytes it has. A malformed file is no refusal of the call: it prints `refused 12 at 0`.
#[unsafe(no_mangle)]
pub extern "C" fn placing_job(file: &[u8], printout: &mut [u8], written: &mut [u64]) -> u64
    ensures { record { number = result; printout = printout.new; written = written.new } ≡ prints file.now printout.old written.old }
{
    placing::placing_job(file, printout, written)
}
