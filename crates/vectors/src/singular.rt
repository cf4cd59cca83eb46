// The edges of a surface that are one point.
ghost use Rattle.std.specs.Prelude.{◌≤◌, length};
ghost use Rattle.surface_records.specs.Surfaces.{Inside};

use answers::same_list;
use cursor::lend;
use edges::{Edge, Edges, Singular};
use surface_records::Lent;
use tally::{Comparison, one_answer};
use words::float;

// The tolerance.
pub fn of_singular(lent: Lent, numbers: &[f64], words: &[u64]) -> Comparison
    requires { Inside (length numbers.now) lent }
{
    if words.len() < 1 {
        return Comparison::Unread;
    }
    let answer = &words[1..];
    let found = edges::nurbs_singular(
        lent.shape,
        lend(numbers, lent.ku),
        lend(numbers, lent.kv),
        lend(numbers, lent.controls),
        lend(numbers, lent.weights),
        float(words[0]),
    );
    match found {
        Edges::Refusal(number) => one_answer(answers::is_refusal(answer, number)),
        Edges::Found(a, b, c, d) => one_answer(is_found(a, b, c, d, answer)),
    }
}

// How far the stored answer agrees.
#[derive(Drop)]
struct Match {
    same: bool,
    at: usize,
}

// 0 for no refusal, the count of the edges, and of each its axis, value, point and side.
fn is_found(a: Edge, b: Edge, c: Edge, d: Edge, answer: &[u64]) -> bool {
    if answer.len() < 2 {
        return false;
    }
    let m = Match { same: true, at: 2 };
    let m = after(m, a, answer);
    let m = after(m, b, answer);
    let m = after(m, c, answer);
    let m = after(m, d, answer);
    let count = (answer.len() - 2) / 6;
    m.same && m.at == answer.len() && answer[0] == 0 && answer[1] == count as u64
}

fn after(m: Match, edge: Edge, answer: &[u64]) -> Match {
    let Edge::Collapsed(s) = edge else {
        return m;
    };
    let at = m.at;
    if answer.len() < 6 {
        return Match { same: false, at };
    }
    if answer.len() - 6 < at {
        return Match { same: false, at };
    }
    Match {
        same: m.same && is_singular(s, &answer[at..]),
        at: at + 6,
    }
}

fn is_singular(s: Singular, answer: &[u64]) -> bool
    requires { 6 ≤ length answer.now }
{
    let point = s.point;
    let numbers = [s.value, point.x, point.y, point.z, s.side];
    answer[0] == s.k && same_list(&numbers, &answer[1..6])
}
