// Text in an output buffer. A function is lent a buffer and a place in it, puts bytes there and gives the place behind them; a method of `Output`
// does the same behind what stands in it. What has no place in the buffer is left out, and a caller makes room first (`with_room`).
ghost use Rattle.std.specs.Prelude.{◌≡◌, ◌<◌};
ghost use Rattle.io.specs.Digits.{hex_digit_ascii};
ghost use Rattle.console.specs.Room.{Roomy};
ghost use Rattle.console.specs.Text.{output, put_byte, put_bytes, hex_of, hexes_of, emptied};

use std::io::{Error, ErrorKind, Print, Result};

// A buffer, and the place in it where the next byte goes.
#[derive(Drop)]
pub struct Output {
    pub bytes: [u8; 65536],
    pub at: usize,
}

// Puts a byte at a place, if the place is there, and gives the next.
pub fn put(bytes: &mut [u8], at: usize, b: u8) -> usize
    ensures { output bytes.new result ≡ put_byte (output bytes.old at) b }
{
    if at < bytes.len() {
        bytes[at] = b;
        return at + 1;
    }
    at
}

// Puts a byte at a place as two hex digits, and gives the next.
fn put_pair(bytes: &mut [u8], at: usize, b: u8) -> usize
    ensures { output bytes.new result ≡ put_bytes (output bytes.old at) (hex_of b) }
{
    let next = put(bytes, at, digit(b / 16));
    put(bytes, next, digit(b % 16))
}

// Puts bytes, one after another.
pub fn put_all(bytes: &mut [u8], at: usize, s: &[u8]) -> usize
    ensures { output bytes.new result ≡ put_bytes (output bytes.old at) s.now }
{
    let mut next = at;
    for b in s {
        next = put(bytes, next, *b);
    }
    next
}

// Puts bytes in hex, two digits each.
pub fn put_hex(bytes: &mut [u8], at: usize, s: &[u8]) -> usize
    ensures { output bytes.new result ≡ put_bytes (output bytes.old at) (hexes_of s.now) }
{
    let mut next = at;
    for b in s {
        next = put_pair(bytes, next, *b);
    }
    next
}

// Writes what stands in a buffer before a place, all of it or not well. The buffer is free then.
pub fn flush(rt: &HostRuntime, bytes: &[u8], at: &mut usize) -> Result<()>
    ensures { at.new ≡ 0 }
{
    let end = *at;
    *at = 0;
    match bytes.get(..end) {
        Some(text) => rt.write_all(text),
        None => Err(Error::from(ErrorKind::InvalidInput)),
    }
}

// Sees that there is room for so many bytes more behind a place: where there is none, what stands before it is written.
pub fn with_room(rt: &HostRuntime, bytes: &[u8], at: &mut usize, need: usize) -> Result<()>
    ensures { Roomy bytes.now at.new need }
{
    if *at <= bytes.len() && need <= bytes.len() - *at {
        return Ok(());
    }
    flush(rt, bytes, at)
}

impl Output {
    // Puts a byte at the place, if the place is there, and goes on to the next.
    pub fn put(&mut self, b: u8)
        ensures { self.new ≡ put_byte self.old b }
    {
        self.at = put(&mut self.bytes, self.at, b);
    }

    // Puts bytes, one after another.
    pub fn put_all(&mut self, s: &[u8])
        ensures { self.new ≡ put_bytes self.old s.now }
    {
        self.at = put_all(&mut self.bytes, self.at, s);
    }

    // Puts bytes in hex, two digits each.
    pub fn put_hex(&mut self, s: &[u8])
        ensures { self.new ≡ put_bytes self.old (hexes_of s.now) }
    {
        self.at = put_hex(&mut self.bytes, self.at, s);
    }

    // Writes what stands in the buffer, all of it or not well. The buffer is free then.
    pub fn flush(&mut self, rt: &HostRuntime) -> Result<()>
        ensures { self.new ≡ emptied self.old }
    {
        flush(rt, &self.bytes, &mut self.at)
    }

    // Sees that there is room for so many bytes more: where there is none, what stands in the buffer is written.
    pub fn with_room(&mut self, rt: &HostRuntime, need: usize) -> Result<()>
        ensures room { Roomy self.new.bytes self.new.at need }
        ensures bytes { self.new.bytes ≡ self.old.bytes }
    {
        with_room(rt, &self.bytes, &mut self.at, need)
    }
}

// The hex digit of a number below 16.
fn digit(n: u8) -> u8
    requires { n < 16 }
    ensures { result ≡ hex_digit_ascii n }
{
    if n < 10 { 48 + n } else { 87 + n }
}
