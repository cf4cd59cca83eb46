// The lines of a quote, put into the front of a lent buffer. Each call answers where the next text goes.
ghost use Rattle.std.specs.Prelude.{◌≡◌, ◌+◌, ◌≤◌, length};
ghost use Rattle.digits.specs.Text.{Put};
ghost use Rattle.quotation.specs.declared.Quotation.TheVariants.{Quoted};
ghost use Rattle.quote_job.specs.QuotePrintout.{most_quoted, count_line, cost_lines, quote_text};

use digits::{put, put_decimal};
use job_lines::put_refusal;
use quotation::{Costing, Quotation};

// Of an inversion without a hint, as a row's first is, and of one with a hint, as each later one is.
pub(crate) fn put_quotes(out: &mut [u8], first: Quotation, later: Quotation) -> usize
    requires { length out.old ≡ most_quoted }
    ensures { Put 0 (quote_text first later) out.old out.new result }
{
    match first {
        Quotation::Refusal(n) => put_refusal(out, 0, n, 0),
        Quotation::Quoted(costing) => put_with_later(out, costing, later),
    }
}

fn put_with_later(out: &mut [u8], first: Costing, later: Quotation) -> usize
    requires { length out.old ≡ most_quoted }
    ensures { Put 0 (quote_text (Quoted first) later) out.old out.new result }
{
    match later {
        Quotation::Refusal(n) => put_refusal(out, 0, n, 0),
        Quotation::Quoted(costing) => put_costs(out, first.grid, first.most, costing.most),
    }
}

fn put_costs(out: &mut [u8], grid: u64, first: u64, later: u64) -> usize
    requires { length out.old ≡ most_quoted }
    ensures { Put 0 (cost_lines grid first later) out.old out.new result }
{
    let after_grid = put_count(out, 0, b"grid ", grid);
    let after_first = put_count(out, after_grid, b"first ", first);
    put_count(out, after_first, b"later ", later)
}

// A line of a word and a count.
fn put_count(out: &mut [u8], at: usize, word: &[u8], n: u64) -> usize
    requires { at + length word.now + 21 ≤ length out.old }
    ensures put { Put at (count_line word.now n) out.old out.new result }
    ensures upper_bound { result ≤ at + length word.now + 21 }
{
    let after_word = put(out, at, word);
    let after_count = put_decimal(out, after_word, n);
    put(out, after_count, b"\n")
}
