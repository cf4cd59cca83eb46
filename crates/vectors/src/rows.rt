// Rows of marks, with the whole of both buffers after each.
ghost use Rattle.std.specs.Prelude.{◌≡◌, ◌*◌, ◌≤◌, length};
ghost use Rattle.surface_records.specs.Surfaces.{Inside};

use crate::jobs::words_for;
use answers::same_list;
use chart::Terms;
use cursor::{Cursor, lend};
use row::RowEnd;
use search_records::terms_at;
use surface_records::Lent;
use tally::{Comparison, one_answer};

// The marks, then the rest of what is asked. The two buffers are lent from copies of the record's numbers and bytes.
pub fn of_row(
    lent: Lent,
    numbers: &[f64],
    words: &[u64],
    bytes: &[u8],
    asked: &[f64],
    copy: &mut [f64],
    ends: &mut [u8],
) -> Comparison
    requires { Inside (length numbers.now) lent × (length words.now ≤ 4094) × (length bytes.now ≡ 8 * length words.now) × (length asked.now ≡ length words.now) × (length copy.old ≡ length words.now) × (length ends.old ≡ 8 * length words.now) }
{
    let marks = Cursor::start().numbers(words);
    let c = marks.next;
    let at = c.at;
    if !c.sound {
        return Comparison::Unread;
    }
    let marks = lend(asked, marks);
    with_marks(
        lent,
        numbers,
        marks,
        &words[at..],
        &bytes[8 * at..],
        &mut copy[at..],
        &mut ends[8 * at..],
    )
}

// The search, the budget and the answer buffer.
fn with_marks(
    lent: Lent,
    numbers: &[f64],
    marks: &[f64],
    words: &[u64],
    bytes: &[u8],
    copy: &mut [f64],
    ends: &mut [u8],
) -> Comparison
    requires { Inside (length numbers.now) lent × (length words.now ≤ 4094) × (length bytes.now ≡ 8 * length words.now) × (length copy.old ≡ length words.now) × (length ends.old ≡ 8 * length words.now) }
{
    if words.len() < 9 {
        return Comparison::Unread;
    }
    let terms = terms_at(words);
    let start = Cursor { at: 9, sound: true };
    let buffer = start.numbers(words);
    let from = buffer.from;
    let to = buffer.to;
    let c = buffer.next;
    let at = c.at;
    if !c.sound {
        return Comparison::Unread;
    }
    with_answers(
        lent,
        numbers,
        marks,
        terms,
        words[8],
        &words[at..],
        &bytes[8 * at..],
        &mut copy[from..to],
        &mut ends[8 * at..],
    )
}

// The buffer of ends: how many bytes, and these, the last word filled up; then the answer.
fn with_answers(
    lent: Lent,
    numbers: &[f64],
    marks: &[f64],
    terms: Terms,
    budget: u64,
    words: &[u64],
    bytes: &[u8],
    buffer: &mut [f64],
    ends: &mut [u8],
) -> Comparison
    requires { Inside (length numbers.now) lent × (length words.now ≤ 4094) × (length bytes.now ≡ 8 * length words.now) × (length ends.old ≡ 8 * length words.now) }
{
    if words.len() < 1 {
        return Comparison::Unread;
    }
    let count = words[0] as usize;
    let filled = words_for(count);
    if words.len() - 1 < filled {
        return Comparison::Unread;
    }
    let at = 1 + filled;
    row_outcome(
        lent,
        numbers,
        marks,
        terms,
        budget,
        buffer,
        &mut ends[8..8 + count],
        &words[at..],
        &bytes[8 * at..],
    )
}

// The answer, by its words and by its bytes: how the row ended, and both buffers.
fn row_outcome(
    lent: Lent,
    numbers: &[f64],
    marks: &[f64],
    terms: Terms,
    budget: u64,
    buffer: &mut [f64],
    ends: &mut [u8],
    words: &[u64],
    bytes: &[u8],
) -> Comparison
    requires { Inside (length numbers.now) lent × (length bytes.now ≡ 8 * length words.now) }
{
    if words.len() < 3 {
        return Comparison::Unread;
    }
    if words.len() - 3 < buffer.len() {
        return Comparison::Unread;
    }
    let pairs = 3 + buffer.len();
    if words.len() - pairs != words_for(ends.len()) {
        return Comparison::Unread;
    }
    let answers = &words[3..pairs];
    let told = &bytes[8 * pairs..];
    let ended = row::row(
        lent.shape,
        lend(numbers, lent.ku),
        lend(numbers, lent.kv),
        lend(numbers, lent.controls),
        lend(numbers, lent.weights),
        marks,
        terms,
        budget,
        buffer,
        ends,
    );
    one_answer(
        is_ended(ended, words[0], words[1], words[2])
            && same_list(buffer, answers)
            && begins(told, ends),
    )
}

// Whether these are the first bytes, and those that fill the last word are not looked at.
fn begins(bytes: &[u8], ends: &[u8]) -> bool {
    if bytes.len() < ends.len() {
        return false;
    }
    &bytes[0..ends.len()] == ends
}

// The refusal's number, or 0; the index of its mark; the units left.
fn is_ended(ended: RowEnd, number: u64, index: u64, left: u64) -> bool {
    match ended {
        RowEnd::Placed(units) => number == 0 && index == 0 && units == left,
        RowEnd::Refusal(n, i, units) => number == n && index == i as u64 && units == left,
    }
}
