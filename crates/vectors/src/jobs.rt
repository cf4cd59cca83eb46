// Job files, well-formed and damaged, with their printouts.
ghost use Rattle.std.specs.Prelude.{◌≡◌, ◌*◌, ◌≤◌, length};

use job::MOST_PRINTED;
use tally::{Comparison, one_answer};

// The file, then its printout: of each how many bytes, and these, the last word filled up.
pub fn of_job(words: &[u64], bytes: &[u8]) -> Comparison
    requires { (length words.now ≤ 4094) × (length bytes.now ≡ 8 * length words.now) }
{
    if words.len() < 1 {
        return Comparison::Unread;
    }
    let size = words[0] as usize;
    let filled = words_for(size);
    if words.len() - 1 <= filled {
        return Comparison::Unread;
    }
    let at = 1 + filled;
    let printed = words[at] as usize;
    if words_for(printed) != words.len() - 1 - at {
        return Comparison::Unread;
    }
    let from = 8 + 8 * at;
    one_answer(prints(&bytes[8..8 + size], &bytes[from..from + printed]))
}

// How many words hold so many bytes.
pub fn words_for(count: usize) -> usize
    ensures { count ≤ 8 * result }
{
    count / 8 + (count % 8 + 7) / 8
}

fn prints(file: &[u8], printout: &[u8]) -> bool {
    let mut out = [0u8; MOST_PRINTED];
    let n = job::job(file, &mut out);
    begins(&out, n, printout)
}

// Whether the first n bytes are the printout.
fn begins(out: &[u8; MOST_PRINTED], n: usize, printout: &[u8]) -> bool
    requires { n ≤ 72704 }
{
    let out: &[u8] = out;
    &out[0..n] == printout
}
