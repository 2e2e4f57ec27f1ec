// What all programs share: their words, an input that is read in blocks, an output that is written in whole lines and records, and failing.
// A program lends its buffers, and keeps the loop over its blocks itself.
#![tactic(auto)]

ghost use Rattle.std.specs.Prelude.{◌≡◌, length, IsOk};
ghost use Rattle.std.specs.Io.{ReadsAtMost};
ghost use Rattle.console.specs.declared.Failure.TheVariants.{Output};

use asked::{Asked, Named, WrongWords};
use books::Ledger;
use reason::reason_of;
use std::env::Env;
use std::fs::File;
use std::io::{Error, Print, Read, Result, Stdin};
use text::{flush, put, put_all};

mod asked;
mod reason;
pub mod text;

// The system's numbers of two errors: of a word that no buffer holds, and of a name that is no text, which std opens no file by.
const NAME_TOO_LONG: i32 = 36;

const ILLEGAL_BYTES: i32 = 84;

// Where an input is read from: standard input, or a file that was opened.
#[derive(Drop)]
pub enum Source {
    Standard(Stdin),
    Opened(File),
}

impl Source {
    // Reads once, as much as is there and the buffer holds. No bytes: the input has ended.
    pub fn read_block(&mut self, buf: &mut [u8]) -> Result<usize>
        ensures { ReadsAtMost result buf.new }
    {
        match self {
            Source::Standard(s) => s.read(buf),
            Source::Opened(f) => f.read(buf),
        }
    }
}

// A program's input: where it is read from, its name, and whether the program's own option was given.
#[derive(Drop)]
pub struct Input<'a> {
    pub source: Source,
    pub name: &'a [u8],
    pub own: bool,
}

// What ended a program's work early, and why: a read that failed, or a write.
#[derive(Drop)]
pub enum Failure {
    Input(Error),
    Output(Error),
}

// What a program passes on by `?` is a failed write; a failed read is told apart where it is read.
impl From<Error> for Failure {
    ghost from_gives = { λ why failure. failure ≡ Output why };

    fn from(why: Error) -> Failure {
        Failure::Output(why)
    }
}

// A program: its name, the one option that it has beside `--help`, empty if it has none, its usage and the help behind it, each of one
// line or more, with each line's end.
#[derive(Clone, Copy)]
pub struct Program<'a> {
    pub name: &'a [u8],
    pub own: &'a [u8],
    pub usage: &'a [u8],
    pub help: &'a [u8],
}

impl<'a> Program<'a> {
    // Says on standard error what failed, and why: the line of an error begins with the program's name.
    pub fn fail(&self, rt: &HostRuntime, what: &[u8], why: Error) {
        let reason = reason_of(why);
        let to = rt.stderr();
        let _ = to.write_all(self.name);
        let _ = to.write_all(b": ");
        let _ = to.write_all(what);
        let _ = to.write_all(reason.line());
    }

    // Says that a write failed.
    pub fn fail_output(&self, rt: &HostRuntime, why: Error) {
        self.fail(rt, b"standard output", why);
    }

    // Says what ended the work on an input of such a name.
    pub fn tell(&self, rt: &HostRuntime, input: &[u8], failure: Failure) {
        match failure {
            Failure::Input(error) => self.fail(rt, input, error),
            Failure::Output(error) => self.fail_output(rt, error),
        }
    }

    // Opens what the words name, and keeps a file's name in `space`.
    fn open<'b>(
        &self,
        rt: &HostRuntime,
        named: Named,
        own: bool,
        space: &'b mut [u8],
    ) -> Option<Input<'b>> {
        let Named::Argument(i) = named else {
            return Some(Input {
                source: Source::Standard(rt.stdin()),
                name: b"standard input",
                own,
            });
        };
        let n = rt.arg(i, space).unwrap_or(0);
        let name = &space[..n];
        match open_named(rt, name) {
            Ok(file) => Some(Input {
                source: Source::Opened(file),
                name,
                own,
            }),
            Err(why) => {
                self.fail(rt, name, why);
                None
            }
        }
    }

    // Writes the usage line and the help behind it.
    fn print_help(&self, rt: &HostRuntime) -> Result<()> {
        rt.write_all(self.usage)?;
        rt.write_all(self.help)
    }

    // Reads the program's words and opens its input, whose name it keeps in `space`. Help goes to standard output; wrong words are answered by
    // the usage line. In both cases there is no input to work on.
    pub fn start<'b>(&self, rt: &HostRuntime, space: &'b mut [u8]) -> Option<Input<'b>> {
        match asked::read(rt, self.own) {
            Ok(Asked::Work { input, own }) => return self.open(rt, input, own, space),
            Ok(Asked::Help) => {
                if let Err(why) = self.print_help(rt) {
                    self.fail_output(rt, why);
                }
            }
            Err(WrongWords::Usage) => {
                let _ = rt.stderr().write_all(self.usage);
            }
            Err(WrongWords::TooLong) => {
                self.fail(rt, b"a word", Error::from_raw_os_error(NAME_TOO_LONG));
            }
        }
        None
    }
}

// Opens the file of a name.
fn open_named(rt: &HostRuntime, name: &[u8]) -> Result<File> {
    match str::from_utf8(name) {
        Ok(path) => File::open(rt, path),
        Err(_) => Err(Error::from_raw_os_error(ILLEGAL_BYTES)),
    }
}

// Writes a line, a name of at most 100 bytes and a number in decimal, in one write.
fn print_line(rt: &HostRuntime, name: &[u8], number: u64) -> Result<()> {
    let mut digits = [0; 20];
    let k = io::decimal(number, &mut digits);
    let mut line = [0; 128];
    let named = put_all(&mut line, 0, name);
    let spaced = put(&mut line, named, b' ');
    let counted = put_all(&mut line, spaced, &digits[..k]);
    let mut end = put(&mut line, counted, b'\n');
    flush(rt, &line, &mut end)
}

// Writes a line for each number, behind its name: bytes of any kind, at most 100, behind which there is room for any number and the line's end.
// What has no room is left out. Where there is no line to write, none is, and that goes well.
pub fn print_lines_of_bytes(rt: &HostRuntime, lines: &[(&[u8], u64)]) -> Result<()>
    ensures { length lines.now ≡ 0 → IsOk result }
{
    for (name, number) in lines {
        print_line(rt, name, *number)?;
    }
    Ok(())
}

// The same for names that are texts, of any length: no buffer bounds them.
pub fn print_lines(rt: &HostRuntime, lines: &[(&str, u64)]) -> Result<()>
    ensures { length lines.now ≡ 0 → IsOk result }
{
    for (name, number) in lines {
        println!(rt; "{name} {number}")?;
    }
    Ok(())
}

// Writes a ledger, 01's nine lines, and tells whether that went well.
pub fn print_ledger(rt: &HostRuntime, l: Ledger) -> Result<()> {
    print_lines_of_bytes(
        rt,
        &[
            (b"openings", l.openings),
            (b"frames", l.frames),
            (b"runts", l.runts),
            (b"checksums", l.checksums),
            (b"giants", l.giants),
            (b"escaped", l.escaped),
            (b"broken", l.broken),
            (b"noise", l.noise),
            (b"open", l.unfinished),
        ],
    )
}
