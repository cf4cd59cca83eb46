// The wrap of a periodic axis, and the evaluation of a surface.
ghost use Rattle.std.specs.Prelude.{◌≡◌, length};
ghost use Rattle.surface_records.specs.Surfaces.{Inside};

use answers::{is_answer, is_refusal};
use cursor::{Cursor, lend};
use domain::{Interval, Shape};
use surface::{Checked, Evaluation};
use surface_records::Lent;
use tally::{Comparison, one_answer};
use words::float;

// Both ends of the domain, and the parameter. The source wraps on an axis of degree 1 with this domain, whose knots may be refused.
pub fn of_wrap(words: &[u64]) -> Comparison {
    if words.len() < 3 {
        return Comparison::Unread;
    }
    let low = float(words[0]);
    let high = float(words[1]);
    let knots = [low, low, high, high];
    let refusal = spline::check_knots(&knots, 1, 2);
    if refusal != 0 {
        return one_answer(is_refusal(&words[3..], refusal));
    }
    let domain = Interval {
        low,
        high,
        periodic: true,
    };
    let wrapped = [domain::wrap(domain, float(words[2]))];
    one_answer(is_answer(&words[3..], &wrapped))
}

// A count of pairs, and these; then a refusal's number, or 0 and the answers of the pairs.
pub fn of_evaluate(lent: Lent, numbers: &[f64], words: &[u64], asked: &[f64]) -> Comparison
    requires { Inside (length numbers.now) lent × (length asked.now ≡ length words.now) }
{
    if words.len() < 1 {
        return Comparison::Unread;
    }
    let count = words[0] as usize;
    if (words.len() - 1) / 2 < count {
        return Comparison::Unread;
    }
    let at = 1 + 2 * count;
    let pairs = &asked[1..at];
    let answer = &words[at..];
    let shape = lent.shape;
    let ku = lend(numbers, lent.ku);
    let kv = lend(numbers, lent.kv);
    let controls = lend(numbers, lent.controls);
    let weights = lend(numbers, lent.weights);
    let number = refusal_of(surface::check(shape, ku, kv, controls, weights));
    if number != 0 || count == 0 {
        return one_answer(is_refusal(answer, number));
    }
    let first = Cursor::start().word(answer);
    if first.value != 0 {
        return one_answer(false);
    }
    pairs_outcome(shape, ku, kv, controls, weights, pairs, answer, first.next)
}

fn refusal_of(checked: Checked) -> u64 {
    match checked {
        Checked::Scale(_) => 0,
        Checked::Refusal(number) => number,
    }
}

// The answers of the pairs stand one after the other, from the cursor to the end.
fn pairs_outcome(
    shape: Shape,
    ku: &[f64],
    kv: &[f64],
    controls: &[f64],
    weights: &[f64],
    pairs: &[f64],
    answer: &[u64],
    start: Cursor,
) -> Comparison {
    let mut c = start;
    let mut agree: u64 = 0;
    let mut differ: u64 = 0;
    for i in 0..pairs.len() / 2 {
        let u = pairs[2 * i];
        let v = pairs[2 * i + 1];
        let found = surface::evaluate(shape, ku, kv, controls, weights, u, v);
        let compared = compare(found, answer, c);
        c = compared.next;
        if compared.same {
            agree += 1;
        } else {
            differ += 1;
        }
    }
    if c.sound && c.at == answer.len() {
        return Comparison::Answers { agree, differ };
    }
    Comparison::Unread
}

#[derive(Drop)]
struct Compared {
    same: bool,
    next: Cursor,
}

// A pair's answer is a refusal's number, or 0 and nine numbers.
fn compare(found: Evaluation, answer: &[u64], c: Cursor) -> Compared {
    let number = c.word(answer);
    let c = number.next;
    if number.value != 0 {
        return Compared {
            same: is_refused(found, number.value),
            next: c,
        };
    }
    let jet = c.take(answer, 9);
    let from = jet.from;
    let to = jet.to;
    let next = jet.next;
    Compared {
        same: is_jet(found, &answer[from..to]),
        next,
    }
}

fn is_refused(found: Evaluation, number: u64) -> bool {
    match found {
        Evaluation::Found(_) => false,
        Evaluation::Refusal(n) => n == number,
    }
}

fn is_jet(found: Evaluation, words: &[u64]) -> bool {
    let Evaluation::Found(j) = found else {
        return false;
    };
    let p = j.point;
    let u = j.u;
    let v = j.v;
    let numbers = [p.x, p.y, p.z, u.x, u.y, u.z, v.x, v.y, v.z];
    answers::same_list(&numbers, words)
}
