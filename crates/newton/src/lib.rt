// One run of Gauss-Newton: from a start towards the surface point nearest to a mark.
#![tactic(auto)]

mod measure;
mod number;
mod round;

ghost use Rattle.std.specs.Prelude.{◌≡◌, ◌≤◌};
ghost use Rattle.price.specs.Price.{spend};
ghost use Rattle.surface.specs.Surface.{evaluate_by};
ghost use Rattle.surface.specs.Lent.{surface_of, at_entry};
ghost use Rattle.scaled.specs.Accepted.{Accepts};
ghost use Rattle.newton.specs.Run as Run;

use measure::measure;
pub use number::ending_number;
use patch::{Evaluated, Jet};
use round::{clamp_into, ended, round};
use scaled::{Accepted, scaled_jet};
use vector3::Vector3;

// A point's distance from the mark, and the roots that were taken up to it, its own included.
#[derive(Clone, Copy)]
pub struct Measured {
    pub distance: f64,
    pub roots: u64,
}

// A pair that a run evaluated, with its distance from the mark.
#[derive(Clone, Copy)]
pub struct Iterate {
    pub u: f64,
    pub v: f64,
    pub distance: f64,
}

// How a run ended: the next pair was the same, the next point was further, the last step was small, the pair was singular after a nudge, or no round was left.
#[derive(Clone, Copy)]
pub enum Ending {
    Unchanged,
    Further,
    SmallStep,
    SecondSingular,
    AllRounds,
}

// Where a run ended, and how.
#[derive(Clone, Copy)]
pub struct End {
    pub at: Iterate,
    pub ending: Ending,
}

// A run that came to an end, and the distance roots that it took.
#[derive(Clone, Copy)]
pub struct Finished {
    pub end: End,
    pub roots: u64,
}

// What a run holds from round to round: the pair, the jet there, whether it was nudged, and the distance roots that it took.
#[derive(Clone, Copy)]
pub struct Held {
    pub at: Iterate,
    pub jet: Jet,
    pub nudged: bool,
    pub roots: u64,
}

// The step from a pair, where the determinant is not too small.
#[derive(Clone, Copy)]
pub enum Step {
    Singular,
    By(f64, f64),
}

// What a round does: it ends the run, or evaluates at a pair, which may be the nudge.
#[derive(Clone, Copy)]
pub enum Plan {
    Halt(Ending),
    Probe(bool, f64, f64),
}

// What came of the evaluation: the run keeps its pair, or moves to the next one and is over, or goes on from there.
#[derive(Clone, Copy)]
pub enum Verdict {
    Further,
    Last,
    Onward,
}

// By what a budget makes of it: the end with its roots, and the units taken; refused after so many; or no unit was left.
#[derive(Clone, Copy)]
pub enum Outcome {
    Ended(Finished, u64),
    Refused(u64),
    Spent,
}

// A round by what the budget makes of it: the run is over, or goes on.
#[derive(Clone, Copy)]
pub enum Turn {
    Over(Outcome),
    Onto(Held),
}

// At most 32, after the evaluation at the start.
fn rounds(
    accepted: Accepted,
    ku: &[f64],
    kv: &[f64],
    controls: &[f64],
    weights: &[f64],
    mark: Vector3,
    start: Held,
    budget: u64,
) -> Outcome
    requires { Accepts (surface_of accepted.shape ku kv controls weights) accepted × (1 ≤ budget) × (start.roots ≡ 1) }
    ensures { result ≡ Run.outcome_of (spend budget (Run.rounds accepted.window mark (evaluate_by (at_entry accepted.shape ku kv controls weights) accepted.largest) 32 1 start)) }
{
    let mut held = start;
    let mut taken: u64 = 1;
    loop {
        if taken == 33 {
            break ended(held.at, Ending::AllRounds, held.roots, taken);
        }
        match round(
            accepted, ku, kv, controls, weights, mark, held, taken, budget,
        ) {
            Turn::Over(outcome) => break outcome,
            Turn::Onto(next) => held = next,
        }
        taken += 1;
    }
}

// Clamps its start, evaluates there, then goes its rounds. Each evaluation takes a unit, before it is made.
pub fn run(
    accepted: Accepted,
    ku: &[f64],
    kv: &[f64],
    controls: &[f64],
    weights: &[f64],
    mark: Vector3,
    u: f64,
    v: f64,
    budget: u64,
) -> Outcome
    requires { Accepts (surface_of accepted.shape ku kv controls weights) accepted }
    ensures { result ≡ Run.outcome_of (spend budget (Run.finished accepted.window mark (evaluate_by (at_entry accepted.shape ku kv controls weights) accepted.largest) u v)) }
{
    if budget == 0 {
        return Outcome::Spent;
    }
    let window = accepted.window;
    let u = clamp_into(window.u, u);
    let v = clamp_into(window.v, v);
    let Evaluated::Found(jet) = scaled_jet(accepted, ku, kv, controls, weights, u, v) else {
        return Outcome::Refused(1);
    };
    let measured = measure(mark, jet, 0);
    let at = Iterate {
        u,
        v,
        distance: measured.distance,
    };
    let start = Held {
        at,
        jet,
        nudged: false,
        roots: measured.roots,
    };
    rounds(accepted, ku, kv, controls, weights, mark, start, budget)
}
