// Rust's own methods of f64.
use crate::kinds;
use tally::{Comparison, one_answer};
use words::float;

// Three arguments, those that the method doesn't take among them, then the answer.
pub fn of_float(kind: u64, words: &[u64]) -> Comparison {
    if words.len() != 4 {
        return Comparison::Unread;
    }
    let x = float(words[0]);
    if kind == kinds::IS_FINITE {
        return one_answer(words[3] == float64::is_finite(x) as u64);
    }
    let found = result(kind, x, float(words[1]), float(words[2]));
    one_answer(answers::same(found, words[3]))
}

fn result(kind: u64, x: f64, y: f64, z: f64) -> f64 {
    match kind {
        kinds::ABS => float64::abs(x),
        kinds::MAX => float64::max(x, y),
        kinds::CLAMP => float64::clamp(x, y, z),
        kinds::ROOT => float64::root(x),
        kinds::ROUND => float64::round(x),
        _ => float64::rem_euclid(x, y),
    }
}
