// A cursor over the words of a record. Each take tests that the record holds what is taken.
#![tactic(auto)]

ghost use Rattle.std.specs.Prelude.{◌≡◌, true, ◌-◌, ◌≤◌, length, take, drop};
ghost use Rattle.cursor.specs.Cursors.{Within, nothing, taken, word_at, numbers_at};

// Not sound from the first take on that the record doesn't hold.
#[derive(Clone, Copy)]
pub struct Cursor {
    pub at: usize,
    pub sound: bool,
}

// The words from one index up to another. None where the cursor is not sound.
#[derive(Clone, Copy)]
pub struct Part {
    pub from: usize,
    pub to: usize,
    pub next: Cursor,
}

// 0 where the cursor is not sound.
#[derive(Clone, Copy)]
pub struct Word {
    pub value: u64,
    pub next: Cursor,
}

fn nothing() -> Part
    ensures { result ≡ nothing }
{
    Part {
        from: 0,
        to: 0,
        next: Cursor {
            at: 0,
            sound: false,
        },
    }
}

impl Cursor {
    pub fn start() -> Self
        ensures { (result.at ≡ 0) × (result.sound ≡ true) }
    {
        Cursor { at: 0, sound: true }
    }

    // The next `count` words.
    pub fn take(self, words: &[u64], count: u64) -> Part
        ensures value { result ≡ taken count (length words.now) self }
        ensures within { Within (length words.now) result }
    {
        let at = self.at;
        let count = count as usize;
        if !self.sound {
            return nothing();
        }
        if words.len() < at {
            return nothing();
        }
        if words.len() - at < count {
            return nothing();
        }
        let to = at + count;
        Part {
            from: at,
            to,
            next: Cursor {
                at: to,
                sound: true,
            },
        }
    }

    pub fn word(self, words: &[u64]) -> Word
        ensures value { result ≡ word_at words.now self }
        ensures at_in_bounds { result.next.at ≤ length words.now }
    {
        let part = self.take(words, 1);
        let from = part.from;
        let next = part.next;
        if from < part.to {
            return Word {
                value: words[from],
                next,
            };
        }
        Word { value: 0, next }
    }

    // A count, then as many words.
    pub fn numbers(self, words: &[u64]) -> Part
        ensures value { result ≡ numbers_at words.now self }
        ensures within { Within (length words.now) result }
    {
        let count = self.word(words);
        let next = count.next;
        next.take(words, count.value)
    }
}

// The numbers of a part.
pub fn lend(numbers: &[f64], p: Part) -> &[f64]
    requires { Within (length numbers.now) p }
    ensures { result.now ≡ take (p.to - p.from) (drop p.from numbers.now) }
{
    let from = p.from;
    let to = p.to;
    &numbers[from..to]
}
