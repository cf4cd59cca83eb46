// A program that reads a job file and writes what it makes of it.
ghost use Rattle.std.specs.Prelude.{◌≡◌, ◌⊎◌, ◌≤◌, List, ℕ, take};
ghost use Rattle.std.specs.Io.{StartsWith};
ghost use Rattle.reading.specs.Texts.{TextOfFront};

use crate::read_rest;
use failure::fail;
use std::env::{Env, FillError};
use std::io::Read;

// What a program makes of a job file: a text of at most N bytes.
pub trait Program<const N: usize> {
    ghost printed: { List ℕ → List ℕ };

    // Its version and its use.
    const ABOUT: &'static str;

    // That what it wrote is not whole.
    const CUT: &'static str;

    // Prints into the front of the buffer and answers how many bytes.
    fn print(&self, file: &[u8], out: &mut [u8; N]) -> usize
        ensures value { take result out.new ≡ printed file.now }
        ensures upper_bound { result ≤ N };
}

// With any argument the program reads nothing, tells its version, and what it is lent stays; else the buffer begins with the text of what was read.
pub fn run<const N: usize, P: Program<N>, R: Env + Print + Eprint, S: Read>(
    rt: &R,
    reader: &mut S,
    bytes: &mut [u8],
    out: &mut [u8; N],
    program: &P,
)
    ensures { (bytes.new ≡ bytes.old × out.new ≡ out.old) ⊎ TextOfFront P.printed bytes.new out.new }
{
    if has_argument(rt) {
        let _ = rt.eprintln(P::ABOUT);
        return;
    }
    let got = read_rest(rt, reader, bytes, 0);
    print(rt, program, &bytes[..got], out);
}

fn has_argument<R: Env>(rt: &R) -> bool {
    let mut start = [0u8; 1];
    match rt.arg(1, &mut start) {
        Ok(_) | Err(FillError::TooLong) => true,
        Err(FillError::NotPresent) => false,
    }
}

fn print<const N: usize, P: Program<N>, R: Print + Eprint>(
    rt: &R,
    program: &P,
    file: &[u8],
    out: &mut [u8; N],
)
    ensures { StartsWith out.new (P.printed file.now) }
{
    let n = program.print(file, out);
    write::<N, P, R>(rt, file, &out[..n]);
}

// The program's exit status doesn't tell it: that the text is not whole is told on standard error.
fn write<const N: usize, P: Program<N>, R: Print + Eprint>(rt: &R, file: &[u8], printed: &[u8])
    requires { printed.now ≡ P.printed file.now }
{
    if let Err(error) = rt.write_all(printed) {
        fail(rt, P::CUT, error);
    }
}
