// One round: where to evaluate next, and what came of it.
ghost use Rattle.std.specs.Prelude.{◌≡◌, ◌≤◌};
ghost use Rattle.surface.specs.Surface.{evaluate_by};
ghost use Rattle.surface.specs.Lent.{surface_of, at_entry};
ghost use Rattle.scaled.specs.Accepted.{Accepts};
ghost use Rattle.newton.specs.declared.Outcome.TheVariants.{Ended};
ghost use Rattle.newton.specs.Run as Run;

use crate::measure::measure;
use crate::{End, Ending, Finished, Held, Iterate, Outcome, Plan, Step, Turn, Verdict};
use domain::{Domain, Interval};
use float64::{abs, clamp, is_finite, max};
use patch::{Evaluated, Jet};
use scaled::{Accepted, scaled_jet};
use vector3::{Vector3, dot, sub};

// The negation comes before the division.
#[tactic(auto, unfolding(crate::specs::Run::solve))]
fn solve(a: f64, b: f64, c: f64, g0: f64, g1: f64) -> Step
    ensures { result ≡ Run.solve a b c g0 g1 }
{
    let det = a * c - b * b;
    let m = max(a, c);
    if !is_finite(det) || det <= 1.0e-24 * m * m {
        return Step::Singular;
    }
    Step::By(-(c * g0 - b * g1) / det, -(a * g1 - b * g0) / det)
}

fn step_of(mark: Vector3, j: Jet) -> Step
    ensures { result ≡ Run.step_of mark j }
{
    let du = j.u;
    let dv = j.v;
    let r = sub(j.point, mark);
    solve(
        dot(du, du),
        dot(du, dv),
        dot(dv, dv),
        dot(du, r),
        dot(dv, r),
    )
}

pub(crate) fn clamp_into(i: Interval, t: f64) -> f64
    ensures { result ≡ Run.clamp_into i t }
{
    if i.periodic {
        return t;
    }
    clamp(t, i.low, i.high)
}

fn inward(i: Interval, t: f64) -> f64
    ensures { result ≡ Run.inward i t }
{
    t + 1.0e-6 * (0.5 * (i.low + i.high) - t)
}

fn is_small_step(d: Domain, from: Iterate, to: Iterate) -> bool
    ensures { result ≡ Run.is_small_step d from to }
{
    let span = max(d.u.high - d.u.low, d.v.high - d.v.low);
    max(abs(to.u - from.u), abs(to.v - from.v)) <= span * 1.0e-15
}

fn nudge(d: Domain, nudged: bool, from: Iterate) -> Plan
    ensures { result ≡ Run.nudged d nudged from }
{
    if nudged {
        return Plan::Halt(Ending::SecondSingular);
    }
    let u = inward(d.u, from.u);
    let v = inward(d.v, from.v);
    Plan::Probe(true, clamp_into(d.u, u), clamp_into(d.v, v))
}

fn moved(from: Iterate, u: f64, v: f64) -> Plan
    ensures { result ≡ Run.moved from u v }
{
    if u == from.u && v == from.v {
        return Plan::Halt(Ending::Unchanged);
    }
    Plan::Probe(false, u, v)
}

fn plan_from(d: Domain, mark: Vector3, held: Held) -> Plan
    ensures { result ≡ Run.plan d mark held }
{
    let from = held.at;
    let Step::By(s, t) = step_of(mark, held.jet) else {
        return nudge(d, held.nudged, from);
    };
    moved(
        from,
        clamp_into(d.u, from.u + s),
        clamp_into(d.v, from.v + t),
    )
}

// A nudge is taken with no test of distance. An equal distance is no further.
fn judge(d: Domain, from: Iterate, nudge: bool, to: Iterate) -> Verdict
    ensures { result ≡ Run.judge d from nudge to }
{
    if nudge {
        return Verdict::Onward;
    }
    if from.distance < to.distance {
        return Verdict::Further;
    }
    if is_small_step(d, from, to) {
        return Verdict::Last;
    }
    Verdict::Onward
}

// The run is over, after so many roots and evaluations.
pub(crate) fn ended(at: Iterate, ending: Ending, roots: u64, taken: u64) -> Outcome
    ensures { result ≡ Ended (Run.finish at ending roots) taken }
{
    let end = End { at, ending };
    Outcome::Ended(Finished { end, roots }, taken)
}

// Takes a unit where it evaluates, before it does.
pub(crate) fn round(
    accepted: Accepted,
    ku: &[f64],
    kv: &[f64],
    controls: &[f64],
    weights: &[f64],
    mark: Vector3,
    held: Held,
    taken: u64,
    budget: u64,
) -> Turn
    requires { Accepts (surface_of accepted.shape ku kv controls weights) accepted × (taken ≤ budget) × (held.roots ≤ 32) }
    ensures { result ≡ Run.turn_of budget taken (Run.round accepted.window mark (evaluate_by (at_entry accepted.shape ku kv controls weights) accepted.largest) taken held) }
{
    let window = accepted.window;
    let here = held.at;
    match plan_from(window, mark, held) {
        Plan::Halt(ending) => Turn::Over(ended(here, ending, held.roots, taken)),
        Plan::Probe(nudge, u, v) => {
            if taken == budget {
                return Turn::Over(Outcome::Spent);
            }
            let units = taken + 1;
            let Evaluated::Found(jet) = scaled_jet(accepted, ku, kv, controls, weights, u, v) else {
                return Turn::Over(Outcome::Refused(units));
            };
            let measured = measure(mark, jet, held.roots);
            let there = Iterate {
                u,
                v,
                distance: measured.distance,
            };
            match judge(window, here, nudge, there) {
                Verdict::Further => Turn::Over(ended(here, Ending::Further, measured.roots, units)),
                Verdict::Last => Turn::Over(ended(there, Ending::SmallStep, measured.roots, units)),
                Verdict::Onward => Turn::Onto(Held {
                    at: there,
                    jet,
                    nudged: held.nudged | nudge,
                    roots: measured.roots,
                }),
            }
        }
    }
}
