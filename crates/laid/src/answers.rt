// An answer, written to what the caller lent.
ghost use Rattle.std.specs.Prelude.{◌≡◌, ◌≤◌, length, get_or};
ghost use Rattle.laid.specs.Laid.{quote_into, jet_into, answer_of_placing, answer_of_components, end_into, taken_of, answer_into, printout_into};

use chart::Placing;
use digits::put;
use inverter::Components;
use newton::ending_number;
use quotation::Quotation;
use surface::Evaluation;

// Two numbers and the units taken; or the number of a refusal and the units taken.
#[derive(Clone, Copy)]
pub enum Answer {
    Pair(f64, f64, u64),
    Refusal(u64, u64),
}

pub fn lay_quote(quotation: Quotation, quote: &mut [u64]) -> u64
    requires { 2 ≤ length quote.old }
    ensures { record { number = result; quote = quote.new } ≡ quote_into quotation quote.old }
{
    match quotation {
        Quotation::Refusal(n) => n,
        Quotation::Quoted(q) => {
            quote[0] = q.grid;
            quote[1] = q.most;
            0
        }
    }
}

pub fn lay_jet(found: Evaluation, jet: &mut [f64]) -> u64
    requires { 9 ≤ length jet.old }
    ensures { record { number = result; jet = jet.new } ≡ jet_into found jet.old }
{
    match found {
        Evaluation::Refusal(n) => n,
        Evaluation::Found(j) => {
            jet[0] = j.point.x;
            jet[1] = j.point.y;
            jet[2] = j.point.z;
            jet[3] = j.u.x;
            jet[4] = j.u.y;
            jet[5] = j.u.z;
            jet[6] = j.v.x;
            jet[7] = j.v.y;
            jet[8] = j.v.z;
            0
        }
    }
}

// The pair alone.
pub fn answer_of_placing(placing: Placing) -> Answer
    ensures { result ≡ answer_of_placing placing }
{
    match placing {
        Placing::Pair(choice, taken) => {
            let at = choice.end.at;
            Answer::Pair(at.u, at.v, taken)
        }
        Placing::Refusal(number, taken) => Answer::Refusal(number, taken),
    }
}

// Components are answered for one unit.
pub fn answer_of_components(components: Components) -> Answer
    ensures { result ≡ answer_of_components components }
{
    match components {
        Components::Along(a, b) => Answer::Pair(a, b, 1),
        Components::Refusal(number, taken) => Answer::Refusal(number, taken),
    }
}

// How the run ended, and where it came from.
pub fn lay_end(placing: Placing, ended: &mut [u8])
    requires { 2 ≤ length ended.old }
    ensures { ended.new ≡ end_into placing ended.old }
{
    let Placing::Pair(choice, _) = placing else {
        return;
    };
    let end = choice.end;
    let ending = end.ending;
    ended[0] = ending_number(ending);
    ended[1] = choice.origin;
}

// The units taken are in the budget.
pub fn lay_answer(answer: Answer, budget: &mut [u64], pair: &mut [f64]) -> u64
    requires { (1 ≤ length budget.old) × (2 ≤ length pair.old) × (taken_of answer ≤ get_or budget.old 0 0) }
    ensures { record { number = result; budget = budget.new; pair = pair.new } ≡ answer_into answer budget.old pair.old }
{
    match answer {
        Answer::Pair(a, b, taken) => {
            budget[0] = budget[0] - taken;
            pair[0] = a;
            pair[1] = b;
            0
        }
        Answer::Refusal(number, taken) => {
            budget[0] = budget[0] - taken;
            number
        }
    }
}

pub fn lay_printout(text: &[u8], printout: &mut [u8], written: &mut [u64]) -> u64
    requires { (length text.now ≤ length printout.old) × (1 ≤ length written.old) }
    ensures { record { number = result; printout = printout.new; written = written.new } ≡ printout_into text.now printout.old written.old }
{
    put(printout, 0, text);
    written[0] = text.len() as u64;
    0
}
