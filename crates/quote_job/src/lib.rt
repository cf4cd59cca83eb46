// From a job file's bytes to what its quote prints, in lent buffers. Of the file only the surface counts.
#![tactic(auto)]

mod lines;

ghost use Rattle.std.specs.Prelude.{◌≡◌, ◌++◌, ◌+◌, ◌*◌, ◌≤◌, length, drop};
ghost use Rattle.digits.specs.Text.{Put};
ghost use Rattle.surface.specs.Lent.{at_entry};
ghost use Rattle.job_format.specs.Format.{most_bytes, header_size};
ghost use Rattle.job_format.specs.Offsets.{count, surface_at};
ghost use Rattle.quote_job.specs.QuotePrintout.{most_quoted, surface_in, quote_lines, quote_printout};

use domain::Shape;
use job_format::{HEADER_SIZE, Layout, controls, decode, knots, layout_of};
use job_lines::put_refusal;
use lines::put_quotes;
use quotation::quote;
use surface::{Checked, check};

// Room for three lines of at most 27 bytes, and so for the one of a refusal, of at most 57.
pub const MOST_QUOTED: usize = 81;

// Prints into the front of the buffer and answers how many bytes.
pub fn print_quote(bytes: &[u8], out: &mut [u8; MOST_QUOTED]) -> usize
    ensures out_after { out.new ≡ quote_printout bytes.now ++ drop result out.old }
    ensures value { (result ≡ length (quote_printout bytes.now)) × (result ≤ most_quoted) }
{
    let layout = layout_of(bytes);
    match layout {
        Layout::Malformed => put_refusal(out, 0, 12, 0),
        Layout::WellFormed(shape, _) => print_shape(bytes, shape, out),
    }
}

// The surface of this shape, whose numbers follow the header.
fn print_shape(bytes: &[u8], shape: Shape, out: &mut [u8; MOST_QUOTED]) -> usize
    requires { (header_size + 8 * count shape ≤ length bytes.now) × (length bytes.now ≤ most_bytes) }
    ensures put { Put 0 (quote_lines (surface_at shape bytes.now)) out.old out.new result }
    ensures upper_bound { result ≤ most_quoted }
{
    let u = shape.u;
    let v = shape.v;
    let mut numbers = [0.0f64; 4096];
    decode(
        bytes,
        HEADER_SIZE,
        knots(u) + knots(v) + 4 * controls(shape),
        &mut numbers,
    );
    print_decoded(shape, &numbers, out)
}

// The surface's numbers are at the front of those lent.
fn print_decoded(shape: Shape, numbers: &[f64; 4096], out: &mut [u8]) -> usize
    requires { (count shape ≤ 4096) × (length out.old ≡ most_quoted) }
    ensures { Put 0 (quote_lines (surface_in shape numbers.now)) out.old out.new result }
{
    print_numbers(shape, numbers, out)
}

fn print_numbers(shape: Shape, numbers: &[f64], out: &mut [u8]) -> usize
    requires { (count shape ≤ 4096) × (length numbers.now ≡ 4096) × (length out.old ≡ most_quoted) }
    ensures { Put 0 (quote_lines (surface_in shape numbers.now)) out.old out.new result }
{
    let u = shape.u;
    let v = shape.v;
    let total = controls(shape);
    let ku_end = knots(u);
    let kv_end = ku_end + knots(v);
    let controls_end = kv_end + 3 * total;
    let weights_end = controls_end + total;
    print_surface(
        shape,
        &numbers[..ku_end],
        &numbers[ku_end..kv_end],
        &numbers[kv_end..controls_end],
        &numbers[controls_end..weights_end],
        out,
    )
}

fn print_surface(
    shape: Shape,
    ku: &[f64],
    kv: &[f64],
    controls: &[f64],
    weights: &[f64],
    out: &mut [u8],
) -> usize
    requires { length out.old ≡ most_quoted }
    ensures { Put 0 (quote_lines (at_entry shape ku kv controls weights)) out.old out.new result }
{
    match check(shape, ku, kv, controls, weights) {
        Checked::Refusal(n) => put_refusal(out, 0, n, 0),
        Checked::Scale(_) => {
            let first = quote(shape, ku, kv, false);
            let later = quote(shape, ku, kv, true);
            put_quotes(out, first, later)
        }
    }
}
