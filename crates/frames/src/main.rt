// Reads an input to its end and prints a line for each sound frame, in order: From or To, gateway in four hex digits, type in four hex
// digits, payload in hex, or - if it has none. The lines of what a read brought are written before the next read.
#![tactic(auto)]

use address::Address;
use console::text::Output;
use console::{Failure, Program, Source};
use link::Type;
use link_feed::lending::feed_from;
use link_receive::{Answer, Receiver};

const FRAMES: Program<'static> = Program {
    name: b"frames",
    own: b"",
    usage: b"usage: frames [FILE]\n",
    help: b"Prints a line for each sound frame of FILE. No FILE, or -, is standard input.\n",
};

// The longest line: `From`, three blanks, eight digits, 500 more for a payload of 250 bytes, and the line's end.
const LONGEST: usize = 516;

// The receiver, ten numbers and a body, which are all 0 while it is fresh, and the lines that are to be written. A receiver that is handed on by
// value copies body and tallies for each frame.
#[derive(Drop)]
struct Printer {
    numbers: [u64; Receiver::NUMBERS],
    body: [u8; Receiver::ROOM],
    out: Output,
}

// Puts a frame's line.
fn put_frame(out: &mut Output, address: Address, frame_type: Type, payload: &[u8]) {
    if address.is_from() {
        out.put_all(b"From ");
    } else {
        out.put_all(b"To ");
    }
    out.put_hex(&address.gateway().0.to_be_bytes());
    out.put(b' ');
    out.put_hex(&frame_type.0.to_be_bytes());
    out.put(b' ');
    if payload.is_empty() {
        out.put(b'-');
    } else {
        out.put_hex(payload);
    }
    out.put(b'\n');
}

impl Printer {
    // Puts the line of the frame that was handed out, if one was, with the payload in the body.
    fn put_answer(&mut self, rt: &HostRuntime, answer: Answer) -> Result<(), Failure> {
        let Ok(Some(head)) = answer else {
            return Ok(());
        };
        self.out.with_room(rt, LONGEST)?;
        let payload = link_receive::payload(&self.body, head.len);
        put_frame(&mut self.out, head.address, head.frame_type, payload);
        Ok(())
    }

    // Feeds a block to its end, and writes a line for each frame.
    fn print_block(&mut self, rt: &HostRuntime, s: &[u8]) -> Result<(), Failure> {
        let mut i = 0;
        while i < s.len() {
            let f = feed_from(&mut self.numbers, &mut self.body, s, i);
            self.put_answer(rt, f.answer)?;
            if f.at <= i {
                break;
            }
            i = f.at;
        }
        self.out.flush(rt)?;
        Ok(())
    }
}

// Reads blocks to the input's end, and prints their frames.
fn print_all(rt: &HostRuntime, source: &mut Source) -> Result<(), Failure> {
    let mut buf = io::large_buffer();
    let mut printer = Printer {
        numbers: [0; Receiver::NUMBERS],
        body: [0; Receiver::ROOM],
        out: Output {
            bytes: io::large_buffer(),
            at: 0,
        },
    };
    for _ in 0..u64::MAX {
        match source.read_block(&mut buf) {
            Ok(0) => break,
            Ok(n) => printer.print_block(rt, &buf[..n])?,
            Err(why) => return Err(Failure::Input(why)),
        }
    }
    Ok(())
}

fn main(rt: HostRuntime) {
    let mut space = io::buffer();
    let Some(mut input) = FRAMES.start(&rt, &mut space) else {
        return;
    };
    if let Err(failure) = print_all(&rt, &mut input.source) {
        FRAMES.tell(&rt, input.name, failure);
    }
}
