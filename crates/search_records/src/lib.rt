// The part of a record that holds a search's terms.
#![tactic(auto)]

ghost use Rattle.std.specs.Prelude.{◌≡◌, ◌≤◌, length};
ghost use Rattle.search_records.specs.Search.{hint_by, period_by, terms_at};

use chart::{Period, Terms};
use inversion::Hint;
use words::float;

// The hint, the tolerance, a period for u and for v, each but the tolerance with a word that says whether it is there.
pub fn terms_at(words: &[u64]) -> Terms
    requires { 8 ≤ length words.now }
    ensures { result ≡ terms_at words.now }
{
    let hint = hint_of(words[0], float(words[1]), float(words[2]));
    let u = period_of(words[4], float(words[5]));
    let v = period_of(words[6], float(words[7]));
    Terms {
        hint,
        tolerance: float(words[3]),
        u,
        v,
    }
}

fn hint_of(given: u64, u: f64, v: f64) -> Hint
    ensures { result ≡ hint_by given u v }
{
    if given == 0 {
        return Hint::Nothing;
    }
    Hint::At(u, v)
}

fn period_of(given: u64, period: f64) -> Period
    ensures { result ≡ period_by given period }
{
    if given == 0 {
        return Period::Free;
    }
    Period::Every(period)
}
