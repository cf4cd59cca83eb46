// A job whose numbers are decoded.
ghost use Rattle.std.specs.Prelude.{◌≡◌, ◌+◌, ◌≤◌, length, take};
ghost use Rattle.digits.specs.Text.{Put};
ghost use Rattle.surface.specs.Lent.{surface_of, at_entry};
ghost use Rattle.scaled.specs.Accepted.{Accepts};
ghost use Rattle.row.specs.Row.{rowed};
ghost use Rattle.row_step.specs.StepLaws.{Unshifted};
ghost use Rattle.job_format.specs.Format.{header_size, terms_size};
ghost use Rattle.job_format.specs.Offsets.{Fits, count, floats_at, job_at};
ghost use Rattle.job.specs.Printout.{most_printed, row_lines, job_lines};
ghost use Rattle.job.specs.Turns.{queue_at, marks_of, Roomy};

use crate::marks::{Queue, print_marks};
use chart::{Period, Terms, sound_terms};
use domain::Shape;
use inversion::Hint;
use job_format::{HEADER_SIZE, TERMS_SIZE, controls, knots, number_at, size_of};
use job_lines::{put_marks, put_refusal};
use row_step::Progress;
use scaled::{Acceptance, Accepted, accept};

// The surface's numbers are at the front of those lent.
pub(crate) fn print_decoded(
    bytes: &[u8],
    shape: Shape,
    marks: usize,
    numbers: &[f64; 4096],
    out: &mut [u8],
) -> usize
    requires { Fits (length bytes.now) shape marks × (take (count shape) numbers.now ≡ floats_at (count shape) bytes.now header_size) × (length out.old ≡ most_printed) }
    ensures put { Put 0 (job_lines (job_at shape marks bytes.now)) out.old out.new result }
    ensures upper_bound { result ≤ most_printed }
{
    print_numbers(bytes, shape, marks, numbers, out)
}

fn print_numbers(bytes: &[u8], shape: Shape, marks: usize, numbers: &[f64], out: &mut [u8]) -> usize
    requires { Fits (length bytes.now) shape marks × (length numbers.now ≡ 4096) × (take (count shape) numbers.now ≡ floats_at (count shape) bytes.now header_size) × (length out.old ≡ most_printed) }
    ensures put { Put 0 (job_lines (job_at shape marks bytes.now)) out.old out.new result }
    ensures upper_bound { result ≤ most_printed }
{
    let u = shape.u;
    let v = shape.v;
    let window = shape.window;
    let total = controls(shape);
    let ku_end = knots(u);
    let kv_end = ku_end + knots(v);
    let controls_end = kv_end + 3 * total;
    let weights_end = controls_end + total;
    let surface_end = HEADER_SIZE + 8 * weights_end + size_of(window);
    let queue = queue_at(bytes, surface_end, marks);
    let from = put_marks(out, 0, marks);
    print_row(
        shape,
        &numbers[..ku_end],
        &numbers[ku_end..kv_end],
        &numbers[kv_end..controls_end],
        &numbers[controls_end..weights_end],
        queue,
        bytes,
        out,
        from,
    )
}

// The record of the terms starts at index `at`: a tolerance and a budget, with no first hint and no periods.
fn queue_at(bytes: &[u8], at: usize, marks: usize) -> Queue
    requires { at + terms_size ≤ length bytes.now }
    ensures { result ≡ queue_at bytes.now at marks }
{
    let terms = Terms {
        hint: Hint::Nothing,
        tolerance: number_at(bytes, at + 2),
        u: Period::Free,
        v: Period::Free,
    };
    let progress = Progress {
        terms,
        left: words::word_at(bytes, at + 10),
    };
    Queue {
        progress,
        first: at + TERMS_SIZE,
        count: marks,
    }
}

// The lines after the first.
fn print_row(
    shape: Shape,
    ku: &[f64],
    kv: &[f64],
    controls: &[f64],
    weights: &[f64],
    queue: Queue,
    bytes: &[u8],
    out: &mut [u8],
    from: usize,
) -> usize
    requires { Unshifted queue.progress.terms × Roomy queue (length bytes.now) from (length out.old) }
    ensures { Put from (row_lines (rowed (at_entry shape ku kv controls weights) (marks_of queue bytes.now) queue.progress.terms queue.progress.left)) out.old out.new result }
{
    match accept(shape, ku, kv, controls, weights) {
        Acceptance::Refusal(n) => put_refusal(out, from, n, 0),
        Acceptance::Accepted(accepted) => print_checked(
            accepted, ku, kv, controls, weights, queue, bytes, out, from,
        ),
    }
}

// On a surface that passed its checks.
fn print_checked(
    accepted: Accepted,
    ku: &[f64],
    kv: &[f64],
    controls: &[f64],
    weights: &[f64],
    queue: Queue,
    bytes: &[u8],
    out: &mut [u8],
    from: usize,
) -> usize
    requires { Accepts (surface_of accepted.shape ku kv controls weights) accepted × Unshifted queue.progress.terms × Roomy queue (length bytes.now) from (length out.old) }
    ensures { Put from (row_lines (rowed (at_entry accepted.shape ku kv controls weights) (marks_of queue bytes.now) queue.progress.terms queue.progress.left)) out.old out.new result }
{
    let progress = queue.progress;
    if !sound_terms(progress.terms) {
        return put_refusal(out, from, 7, 0);
    }
    print_marks(accepted, ku, kv, controls, weights, queue, bytes, out, from)
}
