// Reads a job file from standard input and writes its printout.
#![tactic(auto)]

ghost use Rattle.job.specs.Printout.{printout};

use job::MOST_PRINTED;
use job_format::MOST_BYTES;
use reading::{Program, run};

// One byte more than a job file may have.
const ROOM: usize = MOST_BYTES + 1;

struct Place;

impl Program<MOST_PRINTED> for Place {
    ghost printed = { printout };

    const ABOUT: &'static str = "place 0.5.0\nusage: place < JOB > PRINTOUT";

    const CUT: &'static str = "the printout is not whole";

    fn print(&self, file: &[u8], out: &mut [u8; MOST_PRINTED]) -> usize {
        job::job(file, out)
    }
}

fn main(rt: HostRuntime) {
    let mut bytes = [0u8; ROOM];
    let mut out = [0u8; MOST_PRINTED];
    run(&rt, &mut rt.stdin(), &mut bytes, &mut out, &Place);
}
