// The lines of a printout, put into a lent buffer from an index on. Each call answers where the next line goes.
#![tactic(auto)]

ghost use Rattle.std.specs.Prelude.{◌≡◌, false, ◌+◌, ◌≤◌, ◌<◌, length};
ghost use Rattle.std.specs.Float.Ieee.{is_nan};
ghost use Rattle.digits.specs.Text.{Put};
ghost use Rattle.job_lines.specs.Lines.{longest_first, longest_line, marks_line, end_text, pair_line, refused_line};

use digits::{put, put_decimal, put_hex};

pub fn put_marks(out: &mut [u8], at: usize, marks: usize) -> usize
    requires { at + longest_first ≤ length out.old }
    ensures put { Put at (marks_line marks) out.old out.new result }
    ensures upper_bound { result ≤ at + longest_first }
{
    let after_word = put(out, at, b"marks ");
    let after_count = put_decimal(out, after_word, marks as u64);
    put(out, after_count, b"\n")
}

// Of a pair that is no NaN, with an end of one digit.
pub fn put_pair(out: &mut [u8], at: usize, u: f64, v: f64, left: u64, end: u8) -> usize
    requires { (at + longest_line ≤ length out.old) × (is_nan u ≡ false) × (is_nan v ≡ false) × (end < 10) }
    ensures put { Put at (pair_line u v left end) out.old out.new result }
    ensures upper_bound { result ≤ at + longest_line }
{
    let after_u = put_hex(out, at, f64::to_bits(u));
    let before_v = put(out, after_u, b" ");
    let after_v = put_hex(out, before_v, f64::to_bits(v));
    let before_left = put(out, after_v, b" ");
    let after_left = put_decimal(out, before_left, left);
    put_end(out, after_left, end)
}

// A space before the digit, and a newline after it.
fn put_end(out: &mut [u8], at: usize, end: u8) -> usize
    requires { (at + 3 ≤ length out.old) × (end < 10) }
    ensures put { Put at (end_text end) out.old out.new result }
    ensures value { result ≡ at + 3 }
{
    let after_space = put(out, at, b" ");
    let digit = [48 + end];
    let after_digit = put(out, after_space, &digit);
    put(out, after_digit, b"\n")
}

pub fn put_refusal(out: &mut [u8], at: usize, number: u64, index: usize) -> usize
    requires { at + longest_line ≤ length out.old }
    ensures put { Put at (refused_line number index) out.old out.new result }
    ensures upper_bound { result ≤ at + longest_line }
{
    let after_word = put(out, at, b"refused ");
    let after_number = put_decimal(out, after_word, number);
    let before_index = put(out, after_number, b" at ");
    let after_index = put_decimal(out, before_index, index as u64);
    put(out, after_index, b"\n")
}
