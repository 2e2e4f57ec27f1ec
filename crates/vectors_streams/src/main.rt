// Replays the streams of data/streams, a line in hexadecimal each, on a fresh receiver, byte by byte. Prints for each sound frame its
// address, type, payload length and the check of its payload, and then the ledger's nine numbers. A line that starts with # is passed on.
// What the Rust makes of the same streams is the file `stdout`; tools/oracle writes both.
#![tactic(auto)]

ghost use Rattle.std.specs.Prelude.{◌<◌, IfSome};

use address::Address;
use link_receive::{Answer, Receiver};
use std::fs::File;
use std::io::{Print, Read, Result};

// How many bytes of a file are read.
const MOST: u64 = 65536;

// What a hexadecimal digit stands for.
fn digit(b: u8) -> Option<u8>
    ensures { IfSome result (λ d. d < 16) }
{
    match b {
        b'0'..=b'9' => Some(b - b'0'),
        b'a'..=b'f' => Some(b - b'a' + 10),
        _ => None,
    }
}

// The 16 bits of an address that stood on the line.
fn address_number(a: Address) -> u16 {
    match a {
        Address::From(id) => id.0 | 0x8000,
        Address::To(id) => id.0,
    }
}

// A step's frame, if it hands one out; its payload stands in the body.
fn frame(rt: &HostRuntime, a: Answer, body: &[u8]) -> Result<()> {
    let Ok(Some(head)) = a else {
        return Ok(());
    };
    let number = address_number(head.address);
    let kind = head.frame_type.0;
    let len = head.len;
    let check = crc::crc(link_receive::payload(body, len));
    print!(rt; "{number} {kind} {len} {check} | ")
}

fn ledger(rt: &HostRuntime, r: Receiver) -> Result<()> {
    let t = r.tallies;
    let open = link_receive::open_frames(r.state);
    println!(rt;
        "{} {} {} {} {} {} {} {} {open}",
        t.openings, t.frames, t.runts, t.checksums, t.giants, t.escaped, t.broken, t.noise
    )
}

// A line's stream. A byte that is no digit does not count, nor does a last digit without a second one.
fn stream(rt: &HostRuntime, line: &[u8]) -> Result<()> {
    let mut r = Receiver::new();
    let mut first = None;
    for d in line.iter().filter_map(|b| digit(*b)) {
        match first.take() {
            None => first = Some(d),
            Some(high) => {
                let s = r.push_u8(high << 4 | d);
                r = s.next;
                frame(rt, s.answer, &r.body)?;
            }
        }
    }
    ledger(rt, r)
}

fn main(rt: HostRuntime) -> Result<()> {
    let path = "streams";
    let opened = match File::open(&rt, path) {
        Ok(opened) => opened,
        Err(why) => return eprintln!(rt; "{path}: {why}"),
    };
    let mut text = Vec::new(rt.alloc());
    opened.take(MOST).read_to_end(&mut text)?;
    for line in text.split_inclusive(|b| *b == b'\n') {
        if line.starts_with(b"#") {
            rt.write_all(line.strip_suffix(b"\n").unwrap_or(line))?;
            rt.write_all(b"\n")?;
        } else {
            stream(&rt, line)?;
        }
    }
    Ok(())
}
