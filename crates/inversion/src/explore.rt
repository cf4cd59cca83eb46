// The grid over both axes, and the search from the starts in it.
ghost use Rattle.std.specs.Prelude.{◌≡◌, ◌≤◌};
ghost use Rattle.vector3.specs.Laws.{Finite};
ghost use Rattle.price.specs.Price.{after, spend};
ghost use Rattle.surface.specs.Lent.{surface_of, at_entry};
ghost use Rattle.scaled.specs.Accepted.{Accepts};
ghost use Rattle.inversion.specs.Inversion.{explored_on, answer_of};

use crate::search::search;
use crate::{Answer, Lead};
use grid::axis_values;
use scaled::Accepted;
use seeds::walk;
use vector3::Vector3;

// The units of the hint's run were taken before, and are charged again at the end.
pub(crate) fn explore(
    accepted: Accepted,
    ku: &[f64],
    kv: &[f64],
    controls: &[f64],
    weights: &[f64],
    mark: Vector3,
    lead: Lead,
    budget: u64,
) -> Answer
    requires { Accepts (surface_of accepted.shape ku kv controls weights) accepted × Finite mark × (lead.taken ≤ budget) }
    ensures { result ≡ answer_of (spend budget (after lead.taken (explored_on (at_entry accepted.shape ku kv controls weights) accepted.largest mark lead.best lead.again))) }
{
    let best = lead.best;
    let u = accepted.shape.u;
    let v = accepted.shape.v;
    let window = accepted.window;
    let us = axis_values(ku, u.degree, u.controls, window.u.low, window.u.high);
    let vs = axis_values(kv, v.degree, v.controls, window.v.low, window.v.high);
    let left = budget - lead.taken;
    let walked = walk(accepted, ku, kv, controls, weights, us, vs, mark, left);
    if walked.refusal == 0 {
        let starts = walked.starts;
        let found = Lead {
            best,
            taken: lead.taken + walked.taken,
            again: lead.again,
        };
        return search(
            accepted, ku, kv, controls, weights, mark, starts, found, budget,
        );
    }
    if walked.refusal == 9 {
        return Answer::Refused(lead.taken + walked.taken);
    }
    Answer::Spent
}
