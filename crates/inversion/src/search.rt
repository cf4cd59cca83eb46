// The runs from the starts, and the nearest of their ends.
ghost use Rattle.std.specs.Prelude.{◌≡◌, [], ◌≤◌};
ghost use Rattle.price.specs.Price.{after, spend};
ghost use Rattle.surface.specs.Surface.{evaluate_by};
ghost use Rattle.surface.specs.Lent.{surface_of, at_entry};
ghost use Rattle.scaled.specs.Accepted.{Accepts};
ghost use Rattle.shortlist.specs.Insert.{starts_in};
ghost use Rattle.inversion.specs.Inversion.{led, choose, searched, kept, answer_of};

use crate::{Answer, Best, Choice, Lead};
use newton::{Outcome, run};
use scaled::Accepted;
use shortlist::Starts;
use vector3::Vector3;

// Of two ends as far the earlier is kept.
fn keep(best: Best, choice: Choice) -> Best
    ensures { result ≡ kept best choice }
{
    let Best::At(nearest) = best else {
        return Best::At(choice);
    };
    if choice.end.at.distance < nearest.end.at.distance {
        return Best::At(choice);
    }
    Best::At(nearest)
}

// What is kept, for so many units more.
fn conclude(best: Best, taken: u64, more: u64, budget: u64) -> Answer
    requires { taken ≤ budget }
    ensures { result ≡ answer_of (spend budget (after taken (choose more (led best [])))) }
{
    let Best::At(choice) = best else {
        return Answer::Refused(taken);
    };
    if budget - taken < more {
        return Answer::Spent;
    }
    Answer::Chosen(choice, taken + more)
}

// A run from each start.
pub(crate) fn search(
    accepted: Accepted,
    ku: &[f64],
    kv: &[f64],
    controls: &[f64],
    weights: &[f64],
    mark: Vector3,
    starts: Starts,
    lead: Lead,
    budget: u64,
) -> Answer
    requires { Accepts (surface_of accepted.shape ku kv controls weights) accepted × (starts.count ≤ 6) × (lead.taken ≤ budget) }
    ensures { result ≡ answer_of (spend budget (after lead.taken (searched accepted.window mark (evaluate_by (at_entry accepted.shape ku kv controls weights) accepted.largest) lead.best lead.again 1 (starts_in starts)))) }
{
    let at = starts.at;
    let mut best = lead.best;
    let mut taken = lead.taken;
    for i in 0..starts.count {
        let start = at[i];
        let left = budget - taken;
        match run(
            accepted, ku, kv, controls, weights, mark, start.u, start.v, left,
        ) {
            Outcome::Spent => return Answer::Spent,
            Outcome::Refused(units) => return Answer::Refused(taken + units),
            Outcome::Ended(finished, units) => {
                let end = finished.end;
                let origin = (i + 1) as u8;
                best = keep(best, Choice { end, origin });
                taken += units;
            }
        }
    }
    conclude(best, taken, lead.again, budget)
}
