// Tells on standard error that something failed, and why.
#![tactic(auto)]

ghost use Rattle.std.specs.Prelude.{◌≤◌, length};

use std::fmt::{Display, Formatter};
use std::io::Write;
use std::{fmt, io, str};

// The longest text of a cause that is told whole.
const ROOM: usize = 256;

// What stands between the system's words for an error and its number.
const BEFORE_NUMBER: &str = " (os error ";

// Why it failed: the system's words for an error of the system, without its number.
#[derive(Drop)]
struct Cause(io::Error);

impl Display for Cause {
    fn fmt<W: fmt::Write>(&self, f: &mut Formatter<W>) -> fmt::Result {
        let mut text = [0u8; ROOM];
        let n = write_cause(&self.0, &mut text);
        f.write_str(words(&text[..n]))
    }
}

// Writes the error's text at the start of `text`, as far as it has room, and returns how long it is.
// A buffer of bytes with a count of its own: std's InlineText would end a text that it cuts in three dots.
fn write_cause(error: &io::Error, text: &mut [u8]) -> usize
    ensures { result ≤ length text.new }
{
    let most = text.len();
    let mut rest = &mut text[..];
    let _ = write!(rest, "{error}");
    most.saturating_sub(rest.len())
}

// The text up to the system's number.
fn words(text: &[u8]) -> &str {
    let Ok(all) = str::from_utf8(text) else {
        return "";
    };
    match all.rsplit_once(BEFORE_NUMBER) {
        Some((words, _)) => words,
        None => all,
    }
}

// A line on standard error: what failed, and why. Where that cannot be written either, nothing tells.
pub fn fail<R: Eprint>(rt: &R, what: &str, error: io::Error) {
    let cause = Cause(error);
    let _ = eprintln!(rt; "{what}: {cause}");
}

#[cfg(test)]
mod tests {
    use super::*;

    #[test]
    fn the_system_s_number_is_cut_off(rt: HostRuntime) -> io::Result<()> {
        let cause = Cause(io::Error::from_raw_os_error(21));
        let told = format!(in rt.alloc(); "{cause}")?;
        assert_eq!(rt; told.as_str(), "Is a directory");
        Ok(())
    }

    #[test]
    fn words_of_the_library_stay(rt: HostRuntime) -> io::Result<()> {
        let cause = Cause(io::Error::new(io::ErrorKind::WriteZero, "nothing was taken"));
        let told = format!(in rt.alloc(); "{cause}")?;
        assert_eq!(rt; told.as_str(), "nothing was taken");
        Ok(())
    }
}
