// A row of marks on one surface: an answer within the tolerance is the hint of the next mark, and one budget serves all.
#![tactic(auto)]

mod marks;

ghost use Rattle.std.specs.Prelude.{◌≡◌, false, length};
ghost use Rattle.surface.specs.Lent.{surface_of, at_entry};
ghost use Rattle.scaled.specs.Accepted.{Accepts};
ghost use Rattle.row.specs.Row.{marks_of, misfit, rowed, row_into, leaving};

use chart::{Terms, sound_terms};
use domain::Shape;
use marks::{misfit, place_marks};
use row_step::Progress;
use scaled::{Acceptance, Accepted, accept};

// Every mark was placed, with the budget left; or the number of a refusal, the index of its mark and the budget left.
#[derive(Clone, Copy)]
pub enum RowEnd {
    Placed(u64),
    Refusal(u64, usize, u64),
}

// Three coordinates a mark; two numbers an answer, and two bytes of how it ended.
pub fn row(
    shape: Shape,
    ku: &[f64],
    kv: &[f64],
    controls: &[f64],
    weights: &[f64],
    marks: &[f64],
    terms: Terms,
    budget: u64,
    answers: &mut [f64],
    ends: &mut [u8],
) -> RowEnd
    ensures { record { ended = result; answers = answers.new; ends = ends.new } ≡ leaving (row_into (at_entry shape ku kv controls weights) marks.now (length answers.old) (length ends.old) terms budget) answers.old ends.old }
{
    if misfit(marks.len(), answers.len(), ends.len()) {
        return RowEnd::Refusal(11, 0, budget);
    }
    match accept(shape, ku, kv, controls, weights) {
        Acceptance::Refusal(n) => RowEnd::Refusal(n, 0, budget),
        Acceptance::Accepted(accepted) => row_checked(
            accepted, ku, kv, controls, weights, marks, terms, budget, answers, ends,
        ),
    }
}

// On a surface that passed its checks, with room for every answer.
fn row_checked(
    accepted: Accepted,
    ku: &[f64],
    kv: &[f64],
    controls: &[f64],
    weights: &[f64],
    marks: &[f64],
    terms: Terms,
    budget: u64,
    answers: &mut [f64],
    ends: &mut [u8],
) -> RowEnd
    requires { Accepts (surface_of accepted.shape ku kv controls weights) accepted × (misfit (length marks.now) (length answers.old) (length ends.old) ≡ false) }
    ensures { record { ended = result; answers = answers.new; ends = ends.new } ≡ leaving (rowed (at_entry accepted.shape ku kv controls weights) (marks_of marks.now) terms budget) answers.old ends.old }
{
    if !sound_terms(terms) {
        return RowEnd::Refusal(7, 0, budget);
    }
    let first = Progress {
        terms,
        left: budget,
    };
    place_marks(
        accepted, ku, kv, controls, weights, marks, first, answers, ends,
    )
}
