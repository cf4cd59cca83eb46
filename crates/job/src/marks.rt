// The marks of a job, one after another, on a surface that passed its checks.
ghost use Rattle.std.specs.Prelude.{◌+◌, ◌≤◌, length};
ghost use Rattle.digits.specs.Text.{Put};
ghost use Rattle.surface.specs.Lent.{surface_of, at_entry};
ghost use Rattle.scaled.specs.Accepted.{Accepts};
ghost use Rattle.row.specs.Row.{in_turn};
ghost use Rattle.row_step.specs.StepLaws.{Prints, Unshifted};
ghost use Rattle.job_lines.specs.Lines.{longest_line};
ghost use Rattle.job.specs.Printout.{row_lines};
ghost use Rattle.job.specs.Turns.{Roomy, marks_of, step_line};

use job_format::{MARK_SIZE, mark_at};
use job_lines::{put_pair, put_refusal};
use newton::ending_number;
use row_step::{Progress, Stepped, step};
use scaled::Accepted;

// What is carried to the first mark, where its record starts, and how many marks there are.
#[derive(Clone, Copy)]
pub(crate) struct Queue {
    pub progress: Progress,
    pub first: usize,
    pub count: usize,
}

pub(crate) fn print_marks(
    accepted: Accepted,
    ku: &[f64],
    kv: &[f64],
    controls: &[f64],
    weights: &[f64],
    queue: Queue,
    bytes: &[u8],
    out: &mut [u8],
    from: usize,
) -> usize
    requires { Accepts (surface_of accepted.shape ku kv controls weights) accepted × Unshifted queue.progress.terms × Roomy queue (length bytes.now) from (length out.old) }
    ensures { Put from (row_lines (in_turn (at_entry accepted.shape ku kv controls weights) 0 (marks_of queue bytes.now) queue.progress)) out.old out.new result }
{
    let first = queue.first;
    let mut progress = queue.progress;
    let mut at = from;
    for i in 0..queue.count {
        let mark = mark_at(bytes, first + MARK_SIZE * i);
        let stepped = step(accepted, ku, kv, controls, weights, mark, progress);
        at = put_step(out, at, i, stepped);
        let Stepped::Placed(_, next) = stepped else {
            return at;
        };
        progress = next;
    }
    at
}

// The line of mark number i.
fn put_step(out: &mut [u8], at: usize, i: usize, stepped: Stepped) -> usize
    requires { (at + longest_line ≤ length out.old) × Prints stepped }
    ensures put { Put at (step_line i stepped) out.old out.new result }
    ensures upper_bound { result ≤ at + longest_line }
{
    match stepped {
        Stepped::Placed(choice, next) => {
            let end = choice.end;
            let ending = end.ending;
            let number = ending_number(ending);
            put_pair(out, at, end.at.u, end.at.v, next.left, number)
        }
        Stepped::Refusal(number, _) => put_refusal(out, at, number, i),
    }
}
