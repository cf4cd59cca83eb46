// The inversion of a surface that passed its checks: the parameters of the surface point nearest to a mark.
#![tactic(auto)]

mod explore;
mod search;

ghost use Rattle.std.specs.Prelude.{◌≡◌};
ghost use Rattle.vector3.specs.Laws.{Finite};
ghost use Rattle.price.specs.Price.{spend};
ghost use Rattle.surface.specs.Lent.{surface_of, at_entry};
ghost use Rattle.scaled.specs.Accepted.{Accepts};
ghost use Rattle.inversion.specs.Inversion.{within, inversion_by, answer_of};

use explore::explore;
use newton::{End, Outcome, run};
use scaled::Accepted;
use vector3::Vector3;

#[derive(Clone, Copy)]
pub enum Hint {
    Nothing,
    At(f64, f64),
}

// The run that is chosen: its end, and where it came from, 0 for the hint, 1 to 6 for the place of its start among the starts.
#[derive(Clone, Copy)]
pub struct Choice {
    pub end: End,
    pub origin: u8,
}

// The nearest so far.
#[derive(Clone, Copy)]
pub enum Best {
    Nothing,
    At(Choice),
}

// By what a budget makes of it: the choice and the units taken; refused after so many; or no unit was left.
#[derive(Clone, Copy)]
pub enum Answer {
    Chosen(Choice, u64),
    Refused(u64),
    Spent,
}

// What was done before: the nearest so far, the units taken, and those of the hint's run, which are charged again at the end.
#[derive(Clone, Copy)]
pub struct Lead {
    pub best: Best,
    pub taken: u64,
    pub again: u64,
}

// The test by which a hint's run is taken, and by which a mark of a row leads the next.
pub fn within(end: End, tolerance: f64) -> bool
    ensures { result ≡ within end tolerance }
{
    end.at.distance <= tolerance
}

// Unless the run from the hint ends within the tolerance, the grid is explored.
pub fn invert_nurbs(
    accepted: Accepted,
    ku: &[f64],
    kv: &[f64],
    controls: &[f64],
    weights: &[f64],
    mark: Vector3,
    hint: Hint,
    tolerance: f64,
    budget: u64,
) -> Answer
    requires { Accepts (surface_of accepted.shape ku kv controls weights) accepted × Finite mark }
    ensures { result ≡ answer_of (spend budget (inversion_by (at_entry accepted.shape ku kv controls weights) accepted.largest mark hint tolerance)) }
{
    let Hint::At(u, v) = hint else {
        let lead = Lead {
            best: Best::Nothing,
            taken: 0,
            again: 0,
        };
        return explore(accepted, ku, kv, controls, weights, mark, lead, budget);
    };
    match run(accepted, ku, kv, controls, weights, mark, u, v, budget) {
        Outcome::Spent => Answer::Spent,
        Outcome::Refused(taken) => Answer::Refused(taken),
        Outcome::Ended(finished, taken) => {
            let end = finished.end;
            let choice = Choice { end, origin: 0 };
            if within(end, tolerance) {
                return Answer::Chosen(choice, taken);
            }
            let lead = Lead {
                best: Best::At(choice),
                taken,
                again: taken,
            };
            explore(accepted, ku, kv, controls, weights, mark, lead, budget)
        }
    }
}
