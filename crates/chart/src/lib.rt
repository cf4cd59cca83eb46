// A mark on the chart of a surface that passed its checks: check 7, the search, and the shift of its answer by periods.
#![tactic(auto)]

mod search;

ghost use Rattle.std.specs.Prelude.{◌≡◌};
ghost use Rattle.surface.specs.Lent.{surface_of, at_entry};
ghost use Rattle.scaled.specs.Accepted.{Accepts};
ghost use Rattle.chart.specs.Chart.{sound_search, placing_of, placed_by};

use inversion::{Answer, Choice, Hint, invert_nurbs};
use scaled::Accepted;
pub use search::{nearest, sound_terms};
use search::{sound, turned};
use vector3::Vector3;

// The period of a chart's axis, which the surface's own flag says nothing of.
#[derive(Clone, Copy)]
pub enum Period {
    Free,
    Every(f64),
}

// What a search is given besides the mark: a hint, a tolerance, and the periods of u and v.
#[derive(Clone, Copy)]
pub struct Terms {
    pub hint: Hint,
    pub tolerance: f64,
    pub u: Period,
    pub v: Period,
}

// The pair that a call answers, with its distance, how its run ended and where that came from, and the units taken; or the number of a refusal and the units taken.
#[derive(Clone, Copy)]
pub enum Placing {
    Pair(Choice, u64),
    Refusal(u64, u64),
}

// The surface point nearest to a mark.
pub fn invert_checked(
    accepted: Accepted,
    ku: &[f64],
    kv: &[f64],
    controls: &[f64],
    weights: &[f64],
    mark: Vector3,
    terms: Terms,
    budget: u64,
) -> Placing
    requires { Accepts (surface_of accepted.shape ku kv controls weights) accepted }
    ensures { result ≡ placed_by (at_entry accepted.shape ku kv controls weights) accepted.largest mark terms budget (sound_search mark terms) }
{
    if !sound(mark, terms) {
        return Placing::Refusal(7, 0);
    }
    let hint = terms.hint;
    let answer = invert_nurbs(
        accepted,
        ku,
        kv,
        controls,
        weights,
        mark,
        hint,
        terms.tolerance,
        budget,
    );
    placing_of(budget, terms, answer)
}

// 9 where an evaluation refused, 8 where no unit was left: then all are taken.
fn placing_of(budget: u64, terms: Terms, answer: Answer) -> Placing
    ensures { result ≡ placing_of budget terms answer }
{
    match answer {
        Answer::Chosen(choice, taken) => Placing::Pair(turned(terms, choice), taken),
        Answer::Refused(taken) => Placing::Refusal(9, taken),
        Answer::Spent => Placing::Refusal(8, budget),
    }
}
