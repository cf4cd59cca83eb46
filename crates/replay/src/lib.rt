// A record of stored answers, from standard input: its kind, the count of the words that follow, and these.
#![tactic(auto)]

ghost use Rattle.std.specs.Prelude.{◌≡◌, ◌≤◌, length};
ghost use Rattle.replay.specs.Records.{Decoded, Held};

use std::io::Read;

// A record has at most 4,096 words, its kind and its count among them.
pub const MOST_WORDS: usize = 4094;

// An input may go on for ever, and no program here does.
pub const MOST_RECORDS: u64 = 65536;

// What stands next in the input.
#[derive(Clone, Copy)]
pub enum Input {
    Record,
    // A record that is cut off.
    Short,
    // A record of more than MOST_WORDS.
    Long,
    End,
}

// Without a record the kind and the count of words are 0.
#[derive(Clone, Copy)]
pub struct Next {
    pub input: Input,
    pub kind: u64,
    pub count: usize,
}

fn no_record(input: Input) -> Next
    ensures { result.count ≡ 0 }
{
    Next {
        input,
        kind: 0,
        count: 0,
    }
}

// Reads the next record. Its words come to stand from index 0 on, as bytes, as they are and as floats.
pub fn next_record<S: Read>(
    reader: &mut S,
    bytes: &mut [u8],
    words: &mut [u64],
    numbers: &mut [f64],
) -> Next
    requires { (length bytes.old ≡ 65536) × (length words.old ≡ 4094) × (length numbers.old ≡ 4094) }
    ensures { Held bytes.new result.count words.new numbers.new }
{
    let mut head = [0u8; 16];
    let got = read_full(reader, &mut head);
    if got == 0 {
        return no_record(Input::End);
    }
    if got < 16 {
        return no_record(Input::Short);
    }
    let kind = words::word_at(&head, 0);
    let count = words::word_at(&head, 8);
    if 4094 < count {
        return no_record(Input::Long);
    }
    let count = count as usize;
    let got = read_full(reader, &mut bytes[..8 * count]);
    if got < 8 * count {
        return no_record(Input::Short);
    }
    decode(bytes, count, words, numbers);
    Next {
        input: Input::Record,
        kind,
        count,
    }
}

// Reads until the buffer is full, the input ends or a read fails, and returns how many bytes came to stand at the start of the buffer.
fn read_full<S: Read>(reader: &mut S, buf: &mut [u8]) -> usize
    ensures { result ≤ length buf.new }
{
    let mut done = 0;
    while done < buf.len() {
        match reader.read(&mut buf[done..]) {
            Ok(0) => return done,
            Ok(n) => done += n,
            Err(_) => return done,
        }
    }
    done
}

fn decode(bytes: &[u8], count: usize, words: &mut [u64], numbers: &mut [f64])
    requires { (count ≤ 4094) × (length bytes.now ≡ 65536) × (length words.old ≡ 4094) × (length numbers.old ≡ 4094) }
    ensures { Decoded bytes.now count words.new numbers.new }
{
    for i in 0..count {
        let word = words::word_at(bytes, 8 * i);
        words[i] = word;
        numbers[i] = words::float(word);
    }
}
