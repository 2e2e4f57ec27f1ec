// A program's words: options before or after at most one name of an input.
use std::env::{Env, FillError};

// Where the input is: on standard input, or in the file that an argument names.
#[derive(Clone, Copy)]
pub enum Named {
    Standard,
    Argument(usize),
}

// What the words ask for: the program's work on an input, with its own option or without, or its help.
#[derive(Clone, Copy)]
pub enum Asked {
    Work { input: Named, own: bool },
    Help,
}

// What is wrong with words: they are none of the usage's, or no buffer holds one of them.
#[derive(Clone, Copy, PartialEq, Eq)]
pub enum WrongWords {
    Usage,
    TooLong,
}

// A single word.
#[derive(Clone, Copy)]
enum Word {
    Help,
    Own,
    Dash,
    Unknown,
    Name,
}

fn word_of(word: &[u8], own: &[u8]) -> Word {
    match word {
        [b'-'] => Word::Dash,
        [b'-', ..] if word == own => Word::Own,
        b"--help" => Word::Help,
        [b'-', ..] => Word::Unknown,
        _ => Word::Name,
    }
}

// The words of the program, read in order. `own` is the one option that it has beside `--help`; empty if it has none.
pub fn read(rt: &HostRuntime, own: &[u8]) -> Result<Asked, WrongWords> {
    let mut space = io::buffer();
    let mut input = None;
    let mut chosen = false;
    for i in 1..usize::MAX {
        let n = match rt.arg(i, &mut space) {
            Ok(n) => n,
            Err(FillError::NotPresent) => break,
            Err(FillError::TooLong) => return Err(WrongWords::TooLong),
        };
        match word_of(&space[..n], own) {
            Word::Help => return Ok(Asked::Help),
            Word::Own => chosen = true,
            Word::Dash if input.is_none() => input = Some(Named::Standard),
            Word::Name if input.is_none() => input = Some(Named::Argument(i)),
            _ => return Err(WrongWords::Usage),
        }
    }
    Ok(Asked::Work {
        input: input.unwrap_or(Named::Standard),
        own: chosen,
    })
}
