// Why something failed, in the system's words.
ghost use Rattle.std.specs.Prelude.{◌≤◌, length};

use crate::text::{put, put_all};
use std::fmt;
use std::fmt::Write;
use std::io::Error;

// How many bytes the longest words have, with the colon and the blank before them.
const LONGEST: usize = 302;

// The end of an error's line: a colon, the words, and the line's end, in a buffer that holds the longest of them.
#[derive(Drop)]
pub struct Reason {
    bytes: [u8; 303],
    at: usize,
}

impl Reason {
    pub fn line(&self) -> &[u8] {
        self.bytes.get(..self.at).unwrap_or(&self.bytes)
    }
}

impl fmt::Write for Reason {
    fn write_str(&mut self, s: &str) -> fmt::Result {
        let at = self.at;
        self.at = put_all(&mut self.bytes[..LONGEST], at, s.as_bytes());
        Ok(())
    }
}

// Where words end without the number in brackets behind them, as in `No such file or directory (os error 2)`.
fn end_of(words: &[u8]) -> usize
    ensures { result ≤ length words.now }
{
    match words.iter().rposition(|b| *b == b'(') {
        Some(at) => at.saturating_sub(1),
        None => words.len(),
    }
}

// The line's end of an error. The number that the system's words have behind them is left out.
pub fn reason_of(why: Error) -> Reason {
    let mut r = Reason {
        bytes: [0; 303],
        at: 0,
    };
    let _ = write!(r, ": {why}");
    if why.raw_os_error().is_some() {
        let end = end_of(r.line());
        r.at = end;
    }
    let end = r.at;
    r.at = put(&mut r.bytes, end, b'\n');
    r
}
