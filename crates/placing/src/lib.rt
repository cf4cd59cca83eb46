// The calls for C and Rust, on numbers and lent slices. Each tests every argument, answers the number of its refusal or 0, and writes the rest of its answer to the slices lent for it.
// A surface is lent as the degrees (du, dv) and the counts of controls (nu, nv), the flags (1 where u is periodic, and 2 more where v is), the knots (ku, kv), the controls, the weights and the window: its lowest and highest u, then those of v, or no number for the whole domain.
#![tactic(auto)]

ghost use Rattle.std.specs.Prelude.{◌≡◌, length};
ghost use Rattle.domain.specs.Flags.{shape_of};
ghost use Rattle.surface.specs.Lent.{at_entry, bare_at_entry};
ghost use Rattle.lent.specs.Lent.{window_from};
ghost use Rattle.placing.specs.Boundary.{vector, quotes, evaluates, inverts, rows, derives, tells, locates, prints};

use domain::shape_of;
use edges::nurbs_singular;
use inverter::{Frame, derivative, invert, invert_plane};
use job::{MOST_PRINTED, job};
use laid::{
    answer_of_components, answer_of_placing, lay_answer, lay_edges, lay_end, lay_ended, lay_jet,
    lay_printout, lay_quote,
};
use lent::{
    fits_derivative, fits_edges, fits_inversion, fits_jet, fits_job, fits_quote, fits_row, roomy,
    terms_of, window_from,
};
use quotation::quote;
use row::row;
use surface::evaluate;
use vector3::Vector3;

// Answered, before any other check and with nothing written, where flags are above 3, `hinted` is above 1, a window, a hint or a period has another count of numbers, or a slice is too short for what is to be written. No document gives this number a meaning of its own.
const UNFIT: u64 = 99;

// The size of the grid, and what an inversion takes at most: with a hint where `hinted` is 1, and without one where it is 0.
#[unsafe(no_mangle)]
pub extern "C" fn placing_quote(
    du: usize,
    dv: usize,
    nu: usize,
    nv: usize,
    flags: u64,
    ku: &[f64],
    kv: &[f64],
    window: &[f64],
    hinted: u64,
    quoted: &mut [u64],
) -> u64
    ensures { record { number = result; quote = quoted.new } ≡ quotes flags (length window.now) hinted (bare_at_entry (shape_of du dv nu nv flags (window_from window.now)) ku kv) quoted.old }
{
    if !fits_quote(flags, window.len(), hinted, quoted.len()) {
        return UNFIT;
    }
    let shape = shape_of(du, dv, nu, nv, flags, window_from(window));
    let quotation = quote(shape, ku, kv, hinted == 1);
    lay_quote(quotation, quoted)
}

// Nine numbers: the point, the derivative along u and that along v.
#[unsafe(no_mangle)]
pub extern "C" fn placing_evaluate(
    du: usize,
    dv: usize,
    nu: usize,
    nv: usize,
    flags: u64,
    ku: &[f64],
    kv: &[f64],
    controls: &[f64],
    weights: &[f64],
    window: &[f64],
    u: f64,
    v: f64,
    jet: &mut [f64],
) -> u64
    ensures { record { number = result; jet = jet.new } ≡ evaluates flags (length window.now) (at_entry (shape_of du dv nu nv flags (window_from window.now)) ku kv controls weights) u v jet.old }
{
    if !fits_jet(flags, window.len(), jet.len()) {
        return UNFIT;
    }
    let shape = shape_of(du, dv, nu, nv, flags, window_from(window));
    let found = evaluate(shape, ku, kv, controls, weights, u, v);
    lay_jet(found, jet)
}

// The surface point nearest to the mark (x, y, z). A hint is two numbers or none, a period (pu, pv) one or none. How its run ended, and where that came from, are a byte each.
#[unsafe(no_mangle)]
pub extern "C" fn placing_invert(
    du: usize,
    dv: usize,
    nu: usize,
    nv: usize,
    flags: u64,
    ku: &[f64],
    kv: &[f64],
    controls: &[f64],
    weights: &[f64],
    window: &[f64],
    x: f64,
    y: f64,
    z: f64,
    hint: &[f64],
    tolerance: f64,
    pu: &[f64],
    pv: &[f64],
    budget: &mut [u64],
    pair: &mut [f64],
    ended: &mut [u8],
) -> u64
    ensures { record { number = result; budget = budget.new; pair = pair.new; ended = ended.new } ≡ inverts flags (length window.now) (at_entry (shape_of du dv nu nv flags (window_from window.now)) ku kv controls weights) (vector x y z) hint.now tolerance pu.now pv.now budget.old pair.old ended.old }
{
    if !fits_inversion(
        flags,
        window.len(),
        hint.len(),
        pu.len(),
        pv.len(),
        budget.len(),
        pair.len(),
        ended.len(),
    ) {
        return UNFIT;
    }
    let shape = shape_of(du, dv, nu, nv, flags, window_from(window));
    let mark = Vector3 { x, y, z };
    let terms = terms_of(hint, tolerance, pu, pv);
    let placing = invert(shape, ku, kv, controls, weights, mark, terms, budget[0]);
    lay_end(placing, ended);
    lay_answer(answer_of_placing(placing), budget, pair)
}

// A row of marks, three coordinates each, for two numbers an answer and two bytes of its end. The index is that of the mark refused, if one was.
#[unsafe(no_mangle)]
pub extern "C" fn placing_row(
    du: usize,
    dv: usize,
    nu: usize,
    nv: usize,
    flags: u64,
    ku: &[f64],
    kv: &[f64],
    controls: &[f64],
    weights: &[f64],
    window: &[f64],
    marks: &[f64],
    hint: &[f64],
    tolerance: f64,
    pu: &[f64],
    pv: &[f64],
    budget: &mut [u64],
    index: &mut [u64],
    answers: &mut [f64],
    ends: &mut [u8],
) -> u64
    ensures { record { number = result; budget = budget.new; index = index.new; answers = answers.new; ends = ends.new } ≡ rows flags (length window.now) (at_entry (shape_of du dv nu nv flags (window_from window.now)) ku kv controls weights) marks.now hint.now tolerance pu.now pv.now budget.old index.old answers.old ends.old }
{
    if !fits_row(
        flags,
        window.len(),
        hint.len(),
        pu.len(),
        pv.len(),
        budget.len(),
        index.len(),
    ) {
        return UNFIT;
    }
    let shape = shape_of(du, dv, nu, nv, flags, window_from(window));
    let ended = row(
        shape,
        ku,
        kv,
        controls,
        weights,
        marks,
        terms_of(hint, tolerance, pu, pv),
        budget[0],
        answers,
        ends,
    );
    lay_ended(ended, budget, index)
}

// How u and v move as the surface point at them moves by the vector (x, y, z).
#[unsafe(no_mangle)]
pub extern "C" fn placing_derivative(
    du: usize,
    dv: usize,
    nu: usize,
    nv: usize,
    flags: u64,
    ku: &[f64],
    kv: &[f64],
    controls: &[f64],
    weights: &[f64],
    window: &[f64],
    u: f64,
    v: f64,
    x: f64,
    y: f64,
    z: f64,
    budget: &mut [u64],
    pair: &mut [f64],
) -> u64
    ensures { record { number = result; budget = budget.new; pair = pair.new } ≡ derives flags (length window.now) (at_entry (shape_of du dv nu nv flags (window_from window.now)) ku kv controls weights) u v (vector x y z) budget.old pair.old }
{
    if !fits_derivative(flags, window.len(), budget.len(), pair.len()) {
        return UNFIT;
    }
    let shape = shape_of(du, dv, nu, nv, flags, window_from(window));
    let d = Vector3 { x, y, z };
    let components = derivative(shape, ku, kv, controls, weights, u, v, d, budget[0]);
    lay_answer(answer_of_components(components), budget, pair)
}

// The edges along u at the lower and upper end of v, then those along v at the ends of u: whether each collapses, and five numbers of each that does.
#[unsafe(no_mangle)]
pub extern "C" fn placing_nurbs_singular(
    du: usize,
    dv: usize,
    nu: usize,
    nv: usize,
    flags: u64,
    ku: &[f64],
    kv: &[f64],
    controls: &[f64],
    weights: &[f64],
    window: &[f64],
    tolerance: f64,
    collapsed: &mut [u64],
    edges: &mut [f64],
) -> u64
    ensures { record { number = result; collapsed = collapsed.new; edges = edges.new } ≡ tells flags (length window.now) (at_entry (shape_of du dv nu nv flags (window_from window.now)) ku kv controls weights) tolerance collapsed.old edges.old }
{
    if !fits_edges(flags, window.len(), collapsed.len(), edges.len()) {
        return UNFIT;
    }
    let shape = shape_of(du, dv, nu, nv, flags, window_from(window));
    let found = nurbs_singular(shape, ku, kv, controls, weights, tolerance);
    lay_edges(found, collapsed, edges)
}

// The coordinates of the mark (x, y, z) in a plane's frame: its origin (ox, oy, oz) and the axes of u and of v.
#[unsafe(no_mangle)]
pub extern "C" fn placing_plane(
    ox: f64,
    oy: f64,
    oz: f64,
    ux: f64,
    uy: f64,
    uz: f64,
    vx: f64,
    vy: f64,
    vz: f64,
    x: f64,
    y: f64,
    z: f64,
    budget: &mut [u64],
    pair: &mut [f64],
) -> u64
    ensures { record { number = result; budget = budget.new; pair = pair.new } ≡ locates (record { origin = vector ox oy oz; x = vector ux uy uz; y = vector vx vy vz }) (vector x y z) budget.old pair.old }
{
    if !roomy(budget.len(), pair.len()) {
        return UNFIT;
    }
    let frame = Frame {
        origin: Vector3 {
            x: ox,
            y: oy,
            z: oz,
        },
        x: Vector3 {
            x: ux,
            y: uy,
            z: uz,
        },
        y: Vector3 {
            x: vx,
            y: vy,
            z: vz,
        },
    };
    let mark = Vector3 { x, y, z };
    let components = invert_plane(frame, mark, budget[0]);
    lay_answer(answer_of_components(components), budget, pair)
}

// The printout of a job file, and how many bytes it has. A malformed file is no refusal of the call: it prints `refused 12 at 0`.
#[unsafe(no_mangle)]
pub extern "C" fn placing_job(file: &[u8], printout: &mut [u8], written: &mut [u64]) -> u64
    ensures { record { number = result; printout = printout.new; written = written.new } ≡ prints file.now printout.old written.old }
{
    if !fits_job(printout.len(), written.len()) {
        return UNFIT;
    }
    let mut text = [0u8; MOST_PRINTED];
    let count = job(file, &mut text);
    lay_printout(&text[..count], printout, written)
}
