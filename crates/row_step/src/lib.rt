// One mark of a row, and what it hands on to the next.
#![tactic(auto)]

ghost use Rattle.std.specs.Prelude.{◌≡◌};
ghost use Rattle.surface.specs.Lent.{surface_of, at_entry};
ghost use Rattle.scaled.specs.Accepted.{Accepts};
ghost use Rattle.row_step.specs.Step.{with_hint, led_by, stepped};

use chart::{Placing, Terms, invert_checked};
use inversion::{Choice, Hint, within};
use scaled::Accepted;
use vector3::Vector3;

// What a row carries from mark to mark: the terms, with the next mark's hint, and the budget left.
#[derive(Clone, Copy)]
pub struct Progress {
    pub terms: Terms,
    pub left: u64,
}

// One mark: its answer, and what is carried on; or the number of a refusal and the budget left.
#[derive(Clone, Copy)]
pub enum Stepped {
    Placed(Choice, Progress),
    Refusal(u64, u64),
}

fn with_hint(terms: Terms, hint: Hint) -> Terms
    ensures { result ≡ with_hint terms hint }
{
    let u = terms.u;
    let v = terms.v;
    Terms {
        hint,
        tolerance: terms.tolerance,
        u,
        v,
    }
}

// A lost mark does not lead the next. The distance is that before the shift by periods, which moves the pair alone.
fn led_by(terms: Terms, choice: Choice) -> Terms
    ensures { result ≡ led_by terms choice }
{
    let end = choice.end;
    if within(end, terms.tolerance) {
        return with_hint(terms, Hint::At(end.at.u, end.at.v));
    }
    with_hint(terms, Hint::Nothing)
}

pub fn step(
    accepted: Accepted,
    ku: &[f64],
    kv: &[f64],
    controls: &[f64],
    weights: &[f64],
    mark: Vector3,
    progress: Progress,
) -> Stepped
    requires { Accepts (surface_of accepted.shape ku kv controls weights) accepted }
    ensures { result ≡ stepped (at_entry accepted.shape ku kv controls weights) mark progress }
{
    let terms = progress.terms;
    let left = progress.left;
    match invert_checked(accepted, ku, kv, controls, weights, mark, terms, left) {
        Placing::Refusal(number, taken) => Stepped::Refusal(number, left - taken),
        Placing::Pair(choice, taken) => Stepped::Placed(
            choice,
            Progress {
                terms: led_by(terms, choice),
                left: left - taken,
            },
        ),
    }
}
