// Weights, and an axis of knots.
ghost use Rattle.std.specs.Prelude.{◌≡◌, ◌+◌, ◌≤◌, length};
ghost use Rattle.spline.specs.Knots.{axis, refusal_of_knots};

use crate::kinds;
use answers::{is_answer, is_refusal};
use basis::{Basis, basis_on_side};
use cursor::{Cursor, lend};
use spline::{KnotSide, Snapped, Weighed};
use tally::{Comparison, one_answer};

// The refusals that are not check_knots's own.
const REFUSED_WEIGHTS: u64 = 4;

const REFUSED_PARAMETER: u64 = 9;

pub fn of_weights(words: &[u64], numbers: &[f64]) -> Comparison
    requires { length numbers.now ≡ length words.now }
{
    let weights = Cursor::start().numbers(words);
    let c = weights.next;
    let at = c.at;
    if !c.sound {
        return Comparison::Unread;
    }
    let answer = &words[at..];
    match spline::validate_weights(lend(numbers, weights)) {
        Weighed::Scale(max) => {
            let found = [max];
            one_answer(is_answer(answer, &found))
        }
        Weighed::Refused => one_answer(is_refusal(answer, REFUSED_WEIGHTS)),
    }
}

pub fn of_axis(kind: u64, words: &[u64], numbers: &[f64]) -> Comparison
    requires { length numbers.now ≡ length words.now }
{
    let degree = Cursor::start().word(words);
    let c = degree.next;
    let controls = c.word(words);
    let c = controls.next;
    let knots = c.numbers(words);
    let c = knots.next;
    let at = c.at;
    if !c.sound {
        return Comparison::Unread;
    }
    asked(
        kind,
        lend(numbers, knots),
        degree.value as usize,
        controls.value as usize,
        &words[at..],
    )
}

// The parameter, but for the knots alone; then the side, for a span and a basis; then the answer.
fn asked(kind: u64, knots: &[f64], degree: usize, controls: usize, words: &[u64]) -> Comparison {
    let at: usize = match kind {
        kinds::KNOTS => 0,
        kinds::SNAP => 1,
        _ => 2,
    };
    if words.len() < at {
        return Comparison::Unread;
    }
    let u = Cursor::start().word(words);
    let c = u.next;
    let side = c.word(words);
    one_answer(axis_agrees(
        kind,
        knots,
        degree,
        controls,
        words::float(u.value),
        side_of(side.value),
        &words[at..],
    ))
}

fn side_of(side: u64) -> KnotSide {
    if side == 0 {
        return KnotSide::Left;
    }
    KnotSide::Right
}

fn axis_agrees(
    kind: u64,
    knots: &[f64],
    degree: usize,
    controls: usize,
    u: f64,
    side: KnotSide,
    answer: &[u64],
) -> bool {
    let refusal = spline::check_knots(knots, degree, controls);
    if refusal != 0 {
        return is_refusal(answer, refusal);
    }
    let domain = domain_of(knots, degree, controls);
    if kind == kinds::KNOTS {
        let ends = [domain.low, domain.high];
        return is_answer(answer, &ends);
    }
    if kind == kinds::BASIS {
        let basis = basis_on_side(knots, degree, controls, u, side);
        return is_basis(answer, basis, degree + 1);
    }
    let Snapped::At(t) = spline::snap(domain.low, domain.high, u) else {
        return is_refusal(answer, REFUSED_PARAMETER);
    };
    if kind == kinds::SNAP {
        let found = [t];
        return is_answer(answer, &found);
    }
    is_index(answer, spline::span(knots, degree, controls, t, side))
}

#[derive(Drop)]
struct Domain {
    low: f64,
    high: f64,
}

// The ends of the domain of knots that are accepted, whose degree is at most 16.
fn domain_of(knots: &[f64], degree: usize, controls: usize) -> Domain
    requires { refusal_of_knots (axis degree controls knots.now) ≡ 0 }
    ensures { degree ≤ 16 }
{
    let low = knots[degree];
    let high = knots[controls];
    Domain { low, high }
}

fn is_index(answer: &[u64], index: usize) -> bool {
    if answer.len() != 2 {
        return false;
    }
    answer[0] == 0 && answer[1] == index as u64
}

// The answer has the start, the count of functions, and three rows of as many numbers.
fn is_basis(answer: &[u64], basis: Basis, count: usize) -> bool
    requires { count ≤ 18 }
{
    if !basis.found {
        return is_refusal(answer, REFUSED_PARAMETER);
    }
    if answer.len() != 3 + 3 * count {
        return false;
    }
    let told = answer[0] == 0 && answer[1] == basis.start as u64 && answer[2] == count as u64;
    told && has_row(answer, 3, &basis.values, count)
        && has_row(answer, 3 + count, &basis.firsts, count)
        && has_row(answer, 3 + 2 * count, &basis.seconds, count)
}

// Whether the first `count` numbers of a row stand from index `at` on.
fn has_row(answer: &[u64], at: usize, row: &[f64; 18], count: usize) -> bool
    requires { (count ≤ 18) × (at + count ≤ length answer.now) }
{
    let row: &[f64] = row;
    let end = at + count;
    answers::same_list(&row[0..count], &answer[at..end])
}
