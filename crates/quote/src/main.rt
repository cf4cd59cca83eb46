// Reads a job file from standard input and writes its quote.
#![tactic(auto)]

ghost use Rattle.quote_job.specs.QuotePrintout.{quote_printout};

use job_format::MOST_BYTES;
use quote_job::{MOST_QUOTED, print_quote};
use reading::{Program, run};

// One byte more than a job file may have.
const ROOM: usize = MOST_BYTES + 1;

struct Quote;

impl Program<MOST_QUOTED> for Quote {
    ghost printed = { quote_printout };

    const ABOUT: &'static str = "quote 0.5.0\nusage: quote < JOB";

    const CUT: &'static str = "the quote is not whole";

    fn print(&self, file: &[u8], out: &mut [u8; MOST_QUOTED]) -> usize {
        print_quote(file, out)
    }
}

fn main(rt: HostRuntime) {
    let mut bytes = [0u8; ROOM];
    let mut out = [0u8; MOST_QUOTED];
    run(&rt, &mut rt.stdin(), &mut bytes, &mut out, &Quote);
}
