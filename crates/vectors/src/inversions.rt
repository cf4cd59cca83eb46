// Inversions of a surface and of a plane, the shift by a period, and the derivative.
ghost use Rattle.std.specs.Prelude.{◌+◌, ◌≤◌, length};
ghost use Rattle.surface_records.specs.Surfaces.{Inside};

use chart::Placing;
use cursor::lend;
use inversion::Choice;
use inverter::{Components, Frame};
use newton::ending_number;
use search_records::terms_at;
use surface_records::Lent;
use tally::{Comparison, one_answer};
use vector3::Vector3;
use words::float;

// A value, a hint and a period.
pub fn of_nearest(words: &[u64]) -> Comparison {
    if words.len() < 3 {
        return Comparison::Unread;
    }
    let shifted = [chart::nearest(float(words[0]), float(words[1]), float(words[2]))];
    one_answer(answers::same_list(&shifted, &words[3..]))
}

// The frame's origin and two axes, the mark and the budget.
pub fn of_plane(words: &[u64]) -> Comparison {
    if words.len() < 13 {
        return Comparison::Unread;
    }
    let frame = Frame {
        origin: vector_at(words, 0),
        x: vector_at(words, 3),
        y: vector_at(words, 6),
    };
    let budget = words[12];
    let local = inverter::invert_plane(frame, vector_at(words, 9), budget);
    one_answer(is_components(local, budget, &words[13..]))
}

// The mark, the search and the budget.
pub fn of_invert(lent: Lent, numbers: &[f64], words: &[u64]) -> Comparison
    requires { Inside (length numbers.now) lent }
{
    if words.len() < 12 {
        return Comparison::Unread;
    }
    let mark = vector_at(words, 0);
    let terms = terms_at(&words[3..]);
    let budget = words[11];
    let placing = inverter::invert(
        lent.shape,
        lend(numbers, lent.ku),
        lend(numbers, lent.kv),
        lend(numbers, lent.controls),
        lend(numbers, lent.weights),
        mark,
        terms,
        budget,
    );
    one_answer(is_placing(placing, budget, &words[12..]))
}

// A pair, a vector and the budget.
pub fn of_derivative(lent: Lent, numbers: &[f64], words: &[u64]) -> Comparison
    requires { Inside (length numbers.now) lent }
{
    if words.len() < 6 {
        return Comparison::Unread;
    }
    let u = float(words[0]);
    let v = float(words[1]);
    let d = vector_at(words, 2);
    let budget = words[5];
    let moved = inverter::derivative(
        lent.shape,
        lend(numbers, lent.ku),
        lend(numbers, lent.kv),
        lend(numbers, lent.controls),
        lend(numbers, lent.weights),
        u,
        v,
        d,
        budget,
    );
    one_answer(is_components(moved, budget, &words[6..]))
}

fn vector_at(words: &[u64], at: usize) -> Vector3
    requires { at + 3 ≤ length words.now }
{
    Vector3 {
        x: float(words[at]),
        y: float(words[at + 1]),
        z: float(words[at + 2]),
    }
}

fn is_placing(placing: Placing, budget: u64, answer: &[u64]) -> bool {
    match placing {
        Placing::Pair(choice, taken) => is_choice(choice, taken, budget, answer),
        Placing::Refusal(number, taken) => is_refused(number, taken, budget, answer),
    }
}

// 0, the units left, then a pair, its end and its origin.
fn is_choice(choice: Choice, taken: u64, budget: u64, answer: &[u64]) -> bool {
    if answer.len() != 6 {
        return false;
    }
    let end = choice.end;
    let ending = end.ending;
    is_spent(0, taken, budget, answer)
        && answers::same(end.at.u, answer[2])
        && answers::same(end.at.v, answer[3])
        && answer[4] == ending_number(ending) as u64
        && answer[5] == choice.origin as u64
}

fn is_components(components: Components, budget: u64, answer: &[u64]) -> bool {
    match components {
        Components::Along(a, b) => is_pair(a, b, 1, budget, answer),
        Components::Refusal(number, taken) => is_refused(number, taken, budget, answer),
    }
}

// 0, the units left, then two numbers.
fn is_pair(a: f64, b: f64, taken: u64, budget: u64, answer: &[u64]) -> bool {
    if answer.len() != 4 {
        return false;
    }
    let pair = [a, b];
    is_spent(0, taken, budget, answer) && answers::same_list(&pair, &answer[2..])
}

// The refusal's number, then the units left.
fn is_refused(number: u64, taken: u64, budget: u64, answer: &[u64]) -> bool {
    if answer.len() != 2 {
        return false;
    }
    is_spent(number, taken, budget, answer)
}

fn is_spent(number: u64, taken: u64, budget: u64, answer: &[u64]) -> bool
    requires { 2 ≤ length answer.now }
{
    if budget < taken {
        return false;
    }
    answer[0] == number && answer[1] == budget - taken
}
