// From a job file's bytes to its printout's, in lent buffers.
#![tactic(auto)]

mod marks;
mod surfaces;

ghost use Rattle.std.specs.Prelude.{◌≡◌, ◌++◌, ◌≤◌, length, drop};
ghost use Rattle.digits.specs.Text.{Put};
ghost use Rattle.job_format.specs.Offsets.{Fits, job_at};
ghost use Rattle.job.specs.Printout.{most_printed, job_lines, printout};

use domain::Shape;
use job_format::{HEADER_SIZE, Layout, controls, decode, knots, layout_of};
use job_lines::put_refusal;
use surfaces::print_decoded;

// Room for every printout: a job file has at most 1,258 marks, and no line is longer than 57 bytes.
pub const MOST_PRINTED: usize = 72_704;

// Prints into the front of the buffer and answers how many bytes.
pub fn job(bytes: &[u8], out: &mut [u8; MOST_PRINTED]) -> usize
    ensures out_after { out.new ≡ printout bytes.now ++ drop result out.old }
    ensures value { (result ≡ length (printout bytes.now)) × (result ≤ most_printed) }
{
    let layout = layout_of(bytes);
    match layout {
        Layout::Malformed => put_refusal(out, 0, 12, 0),
        Layout::WellFormed(shape, marks) => print_job(bytes, shape, marks, out),
    }
}

fn print_job(bytes: &[u8], shape: Shape, marks: usize, out: &mut [u8; MOST_PRINTED]) -> usize
    requires { Fits (length bytes.now) shape marks }
    ensures put { Put 0 (job_lines (job_at shape marks bytes.now)) out.old out.new result }
    ensures upper_bound { result ≤ most_printed }
{
    let u = shape.u;
    let v = shape.v;
    let mut numbers = [0.0f64; 4096];
    decode(
        bytes,
        HEADER_SIZE,
        knots(u) + knots(v) + 4 * controls(shape),
        &mut numbers,
    );
    print_decoded(bytes, shape, marks, &numbers, out)
}
