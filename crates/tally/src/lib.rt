// How many of the stored answers the port gives, by kind.
#![tactic(auto)]

ghost use Rattle.std.specs.Prelude.{◌≡◌, ◌<◌, if◌then◌else◌};
ghost use Rattle.tally.specs.Tallies.{empty, one_unread, tallied};

// One more than the last kind of a record.
const KINDS: usize = 22;

// How many answers of a record agree, and how many differ.
#[derive(Clone, Copy)]
pub enum Comparison {
    Answers { agree: u64, differ: u64 },
    // The record doesn't hold what its counts say.
    Unread,
}

// At index k the answers of the records of kind k.
#[derive(Clone, Copy)]
pub struct Tally {
    pub agree: [u64; KINDS],
    pub differ: [u64; KINDS],
    pub unread: u64,
}

// A tally with one record more, and whether there may be another.
#[derive(Clone, Copy)]
pub struct Pass {
    pub tally: Tally,
    pub more: bool,
}

pub fn one_answer(agrees: bool) -> Comparison
    ensures { result ≡ (if agrees then Comparison.Answers 1 0 else Comparison.Answers 0 1) }
{
    if agrees {
        return Comparison::Answers {
            agree: 1,
            differ: 0,
        };
    }
    Comparison::Answers {
        agree: 0,
        differ: 1,
    }
}

impl Tally {
    pub fn new() -> Self
        ensures { result ≡ empty }
    {
        Tally {
            agree: [0u64; KINDS],
            differ: [0u64; KINDS],
            unread: 0,
        }
    }

    // A record more. One of a kind that is none is not read. No sum wraps: it would take 2^52 records.
    #[tactic(auto, unfolding(crate::specs::Tallies::tallied))]
    pub fn with(mut self, kind: u64, outcome: Comparison) -> Self
        ensures { result ≡ tallied kind outcome self }
    {
        let Comparison::Answers { agree, differ } = outcome else {
            return self.one_unread();
        };
        if 21 < kind {
            return self.one_unread();
        }
        let k = kind as usize;
        self.agree[k] = self.agree[k].wrapping_add(agree);
        self.differ[k] = self.differ[k].wrapping_add(differ);
        self
    }

    fn one_unread(mut self) -> Self
        ensures { result ≡ one_unread self }
    {
        self.unread = self.unread.wrapping_add(1);
        self
    }
}

// What cannot be written is left out.
pub fn print_line<R: Print>(rt: &R, name: &[u8], tally: Tally, kind: u64)
    requires { kind < 22 }
{
    let k = kind as usize;
    let agree = tally.agree[k];
    let differ = tally.differ[k];
    let _ = rt.write_all(name);
    let _ = println!(rt; " {agree} agree, {differ} differ");
}

pub fn print_unread<R: Print>(rt: &R, tally: Tally) {
    let unread = tally.unread;
    let _ = println!(rt; "{unread} records not read");
}
