// The marks of a row, one after another.
ghost use Rattle.std.specs.Prelude.{◌≡◌, false, ◌+◌, ◌*◌, ◌≤◌, length};
ghost use Rattle.surface.specs.Lent.{surface_of, at_entry};
ghost use Rattle.scaled.specs.Accepted.{Accepts};
ghost use Rattle.row_step.specs.Step.{stepped};
ghost use Rattle.row.specs.Row.{marks_of, misfit, in_turn, u_of, v_of, end_of, origin_of, leaving};
ghost use Rattle.row.specs.Turns.{mark_at, fronted};

use crate::RowEnd;
use newton::ending_number;
use row_step::{Progress, Stepped, step};
use scaled::Accepted;
use vector3::Vector3;

pub(crate) fn misfit(coordinates: usize, numbers: usize, bytes: usize) -> bool
    ensures { result ≡ misfit coordinates numbers bytes }
{
    (coordinates % 3 != 0) | (numbers < 2 * (coordinates / 3)) | (bytes < 2 * (coordinates / 3))
}

pub(crate) fn place_marks(
    accepted: Accepted,
    ku: &[f64],
    kv: &[f64],
    controls: &[f64],
    weights: &[f64],
    marks: &[f64],
    first: Progress,
    answers: &mut [f64],
    ends: &mut [u8],
) -> RowEnd
    requires { Accepts (surface_of accepted.shape ku kv controls weights) accepted × (misfit (length marks.now) (length answers.old) (length ends.old) ≡ false) }
    ensures { record { ended = result; answers = answers.new; ends = ends.new } ≡ leaving (in_turn (at_entry accepted.shape ku kv controls weights) 0 (marks_of marks.now) first) answers.old ends.old }
{
    let mut progress = first;
    for i in 0..marks.len() / 3 {
        let at = 2 * i;
        let mark = mark_at(marks, i);
        match place_mark(
            accepted,
            ku,
            kv,
            controls,
            weights,
            mark,
            progress,
            &mut answers[at..],
            &mut ends[at..],
        ) {
            Stepped::Refusal(number, left) => return RowEnd::Refusal(number, i, left),
            Stepped::Placed(_, next) => progress = next,
        }
    }
    RowEnd::Placed(progress.left)
}

fn mark_at(marks: &[f64], i: usize) -> Vector3
    requires { 3 * i + 3 ≤ length marks.now }
    ensures { result ≡ mark_at marks.now i }
{
    Vector3 {
        x: marks[3 * i],
        y: marks[3 * i + 1],
        z: marks[3 * i + 2],
    }
}

// A pair is written at the front of the rest of the answers, its end and origin at that of the rest of the ends.
fn place_mark(
    accepted: Accepted,
    ku: &[f64],
    kv: &[f64],
    controls: &[f64],
    weights: &[f64],
    mark: Vector3,
    progress: Progress,
    answers: &mut [f64],
    ends: &mut [u8],
) -> Stepped
    requires { Accepts (surface_of accepted.shape ku kv controls weights) accepted × (2 ≤ length answers.old) × (2 ≤ length ends.old) }
    ensures value { result ≡ stepped (at_entry accepted.shape ku kv controls weights) mark progress }
    ensures answers_after { answers.new ≡ fronted u_of v_of result answers.old }
    ensures ends_after { ends.new ≡ fronted end_of origin_of result ends.old }
{
    let stepped = step(accepted, ku, kv, controls, weights, mark, progress);
    let Stepped::Placed(choice, _) = stepped else {
        return stepped;
    };
    let end = choice.end;
    let ending = end.ending;
    answers[0] = end.at.u;
    answers[1] = end.at.v;
    ends[0] = ending_number(ending);
    ends[1] = choice.origin;
    stepped
}
