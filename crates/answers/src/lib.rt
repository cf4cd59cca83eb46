// Stored answers: words that hold the bits of floats.
#![tactic(auto)]

ghost use Rattle.std.specs.Prelude.{◌≡◌};
ghost use Rattle.std.specs.List.{list_all, zip};
ghost use Rattle.answers.specs.Stored.{same_bits, same_pair, same_list, is_refusal, is_answer};

use words::is_nan;

// Whether x has these bits, or is a NaN where they are a NaN's.
#[tactic(auto, unfolding(crate::specs::Stored::same_bits))]
pub fn same(x: f64, bits: u64) -> bool
    ensures { result ≡ same_bits x bits }
{
    if x.is_nan() {
        is_nan(bits)
    } else {
        x.to_bits() == bits
    }
}

// The same of each number and its word. Lists of different lengths differ.
pub fn same_list(numbers: &[f64], words: &[u64]) -> bool
    ensures { result ≡ same_list numbers.now words.now }
{
    numbers.len() == words.len() && same_pairs(numbers, words)
}

// As far as both lists go.
fn same_pairs(numbers: &[f64], words: &[u64]) -> bool
    ensures { result ≡ list_all same_pair (zip numbers.now words.now) }
{
    numbers.iter().zip(words).all(|(x, bits)| same(*x, *bits))
}

// Whether an answer is this refusal's number, and nothing after it.
#[tactic(auto, unfolding(crate::specs::Stored::is_refusal))]
pub fn is_refusal(answer: &[u64], number: u64) -> bool
    ensures { result ≡ is_refusal number answer.now }
{
    match answer {
        [only] => *only == number,
        _ => false,
    }
}

// Whether an answer is 0, for no refusal, then these numbers.
#[tactic(auto, unfolding(crate::specs::Stored::is_answer))]
pub fn is_answer(answer: &[u64], numbers: &[f64]) -> bool
    ensures { result ≡ is_answer numbers.now answer.now }
{
    match answer {
        [0, found @ ..] => same_list(numbers, found),
        _ => false,
    }
}
