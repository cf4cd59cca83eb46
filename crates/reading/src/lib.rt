// A job file, read from standard input, and what a program makes of it.
#![tactic(auto)]

mod program;

ghost use Rattle.std.specs.Prelude.{◌≡◌, ◌⊎◌, ◌+◌, ◌^◌, ◌≤◌, ◌<◌, length, take, IfOk};
ghost use Rattle.std.specs.Counts.{IsPrefixLen};
ghost use Rattle.reading.specs.Reads.{Onward, after_read};

use failure::fail;
pub use program::{Program, run};
use std::io::{self, ErrorKind, Read};

// How many bytes are there at the input's end, or when there is no more room; those that were there before stay. A read that fails leaves none: what came before it is cut off, and standard error has the cause.
pub fn read_rest<R: Eprint, S: Read>(rt: &R, reader: &mut S, bytes: &mut [u8], from: usize) -> usize
    requires { from ≤ length bytes.old }
    ensures bytes_unchanged { take from bytes.new ≡ take from bytes.old }
    ensures prefix_len { IsPrefixLen result bytes.new }
    ensures fact { (result ≡ 0) ⊎ (from ≤ result) }
{
    let mut have = from;
    for _ in 0..u64::MAX {
        match read_on(reader, bytes, have) {
            Ok(Some(n)) => have = n,
            Ok(None) => return have,
            Err(error) => {
                fail(rt, "the job could not be read", error);
                return 0;
            }
        }
    }
    0
}

// One read, past the bytes that are there, which stay. None at the input's end, and where there is no more room.
fn read_on<S: Read>(reader: &mut S, bytes: &mut [u8], have: usize) -> io::Result<Option<usize>>
    requires { have ≤ length bytes.old }
    ensures bytes_unchanged { take have bytes.new ≡ take have bytes.old }
    ensures onward { Onward have (length bytes.old) result }
{
    if have == bytes.len() {
        return Ok(None);
    }
    after(have, reader.read(&mut bytes[have..]))
}

// What a read's answer makes of the bytes that are there: so many are there now, as many as before where the read was interrupted.
#[tactic(auto, unfolding(crate::specs::Reads::after_read, crate::specs::Reads::after_error))]
fn after(have: usize, read: io::Result<usize>) -> io::Result<Option<usize>>
    requires { IfOk read (λ more. have + more < 2 ^ 64) }
    ensures { result ≡ after_read have read }
{
    match read {
        Ok(0) => Ok(None),
        Ok(more) => Ok(Some(have + more)),
        Err(error) => match error.kind() {
            ErrorKind::Interrupted => Ok(Some(have)),
            _ => Err(error),
        },
    }
}

#[cfg(test)]
mod tests {
    use super::*;
    use std::fmt::Display;

    // Gives a byte a read, and at every second read an interruption; after `left` bytes the end, or a failure.
    #[derive(Drop)]
    struct Slow {
        left: u8,
        interrupts: bool,
        fails: bool,
    }

    impl Read for Slow {
        fn read(&mut self, buf: &mut [u8]) -> io::Result<usize> {
            if self.interrupts {
                self.interrupts = false;
                return Err(io::Error::from(ErrorKind::Interrupted));
            }
            self.interrupts = true;
            if self.left == 0 {
                if self.fails {
                    return Err(io::Error::from(ErrorKind::Other));
                }
                return Ok(0);
            }
            if buf.len() == 0 {
                return Ok(0);
            }
            self.left -= 1;
            buf[0] = self.left;
            Ok(1)
        }
    }

    // What fails is not told.
    #[derive(Drop)]
    struct Silent;

    impl Eprint for Silent {
        fn eprint<D: Display + Drop>(&self, _value: D) -> io::Result<()> {
            Ok(())
        }

        fn eprintln<D: Display + Drop>(&self, _value: D) -> io::Result<()> {
            Ok(())
        }
    }

    #[test]
    fn interrupted_reads_are_made_again(rt: HostRuntime) {
        let mut bytes = [9u8; 8];
        let mut slow = Slow {
            left: 3,
            interrupts: true,
            fails: false,
        };
        assert_eq!(rt; read_rest(&Silent, &mut slow, &mut bytes, 2), 5);
        assert_eq!(rt; bytes, [9, 9, 2, 1, 0, 9, 9, 9]);
    }

    #[test]
    fn no_more_is_read_than_there_is_room_for(rt: HostRuntime) {
        let mut bytes = [9u8; 4];
        let mut slow = Slow {
            left: 30,
            interrupts: true,
            fails: true,
        };
        assert_eq!(rt; read_rest(&Silent, &mut slow, &mut bytes, 1), 4);
        assert_eq!(rt; bytes, [9, 29, 28, 27]);
    }

    #[test]
    fn a_failed_read_leaves_none(rt: HostRuntime) {
        let mut bytes = [9u8; 8];
        let mut slow = Slow {
            left: 3,
            interrupts: true,
            fails: true,
        };
        assert_eq!(rt; read_rest(&Silent, &mut slow, &mut bytes, 2), 0);
    }
}
