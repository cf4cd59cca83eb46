// Replays stored answers of the Rust, from standard input, and prints for each call how many of them the port gives.
#![tactic(auto)]

mod floats;
mod inversions;
mod jobs;
mod kinds;
mod lent;
mod rows;
mod singular;
mod splines;
mod surfaces;

ghost use Rattle.std.specs.Prelude.{◌≡◌, ◌*◌, ◌≤◌, length};

use replay::{Input, MOST_RECORDS, MOST_WORDS};
use std::io::Read;
use tally::{Comparison, Pass, Tally, print_line, print_unread};

// The bytes of a record's words have room here.
const MOST_BYTES: usize = 65536;

fn main(rt: HostRuntime) {
    let mut reader = rt.stdin();
    let tally = replay_all(&mut reader);
    print_line(&rt, b"is_finite", tally, kinds::IS_FINITE);
    print_line(&rt, b"abs", tally, kinds::ABS);
    print_line(&rt, b"max", tally, kinds::MAX);
    print_line(&rt, b"clamp", tally, kinds::CLAMP);
    print_line(&rt, b"root", tally, kinds::ROOT);
    print_line(&rt, b"round", tally, kinds::ROUND);
    print_line(&rt, b"rem_euclid", tally, kinds::REM_EUCLID);
    print_line(&rt, b"weights", tally, kinds::WEIGHTS);
    print_line(&rt, b"knots", tally, kinds::KNOTS);
    print_line(&rt, b"snap", tally, kinds::SNAP);
    print_line(&rt, b"span", tally, kinds::SPAN);
    print_line(&rt, b"basis", tally, kinds::BASIS);
    print_line(&rt, b"wrap", tally, kinds::WRAP);
    print_line(&rt, b"evaluate", tally, kinds::EVALUATE);
    print_line(&rt, b"nearest", tally, kinds::NEAREST);
    print_line(&rt, b"invert", tally, kinds::INVERT);
    print_line(&rt, b"plane", tally, kinds::PLANE);
    print_line(&rt, b"derivative", tally, kinds::DERIVATIVE);
    print_line(&rt, b"nurbs_singular", tally, kinds::NURBS_SINGULAR);
    print_line(&rt, b"row", tally, kinds::ROW);
    print_line(&rt, b"job", tally, kinds::JOB);
    print_unread(&rt, tally);
}

fn replay_all<S: Read>(reader: &mut S) -> Tally {
    let mut tally = Tally::new();
    for n in 0..MOST_RECORDS {
        let turn = one_record(reader, tally);
        tally = turn.tally;
        if !turn.more {
            return tally;
        }
    }
    tally
}

fn one_record<S: Read>(reader: &mut S, tally: Tally) -> Pass {
    let mut bytes = [0u8; MOST_BYTES];
    let mut words = [0u64; MOST_WORDS];
    let mut numbers = [0.0f64; MOST_WORDS];
    let next = replay::next_record(reader, &mut bytes, &mut words, &mut numbers);
    let input = next.input;
    let count = next.count;
    let size = 8 * count;
    // A row's buffers are lent from copies, so that the record's numbers and bytes stay as they are.
    let mut copy = numbers;
    let mut ends = bytes;
    match input {
        Input::Record => Pass {
            tally: tally.with(
                next.kind,
                outcome(
                    next.kind,
                    &words[..count],
                    &bytes[..size],
                    &numbers[..count],
                    &mut copy[..count],
                    &mut ends[..size],
                ),
            ),
            more: true,
        },
        Input::End => Pass { tally, more: false },
        Input::Short | Input::Long => Pass {
            tally: tally.with(0, Comparison::Unread),
            more: false,
        },
    }
}

fn outcome(
    kind: u64,
    words: &[u64],
    bytes: &[u8],
    numbers: &[f64],
    copy: &mut [f64],
    ends: &mut [u8],
) -> Comparison
    requires { (length bytes.now ≡ 8 * length words.now) × (length words.now ≤ 4094) × (length numbers.now ≡ length words.now) × (length copy.old ≡ length words.now) × (length ends.old ≡ 8 * length words.now) }
{
    match kind {
        kinds::WEIGHTS => splines::of_weights(words, numbers),
        kinds::KNOTS..=kinds::BASIS => splines::of_axis(kind, words, numbers),
        kinds::WRAP => surfaces::of_wrap(words),
        kinds::NEAREST => inversions::of_nearest(words),
        kinds::PLANE => inversions::of_plane(words),
        kinds::JOB => jobs::of_job(words, bytes),
        kinds::IS_FINITE..=kinds::REM_EUCLID => floats::of_float(kind, words),
        _ => lent::of_surface(kind, words, bytes, numbers, copy, ends),
    }
}
