// Reads a capture to its end, and writes its event log: the records of all events, in order, those of what a read brought before the next
// read. With `--ledger` it prints the link ledger's nine lines instead, and then the 33 transport counters.
#![tactic(auto)]

use blocks::Capture;
use console::text::Output;
use console::{Failure, Program, Source};
use counters::print_counters;
use link_receive::Receiver;
use link_receive::numbered::receiver_at;

mod blocks;
mod counters;

const EVENTS: Program<'static> = Program {
    name: b"events",
    own: b"--ledger",
    usage: b"usage: events [FILE] [--ledger]\n",
    help: b"Writes the event log of FILE; with --ledger, prints its ledger and its counters. No FILE, or -, is standard input.\n",
};

// Prints the ledger of all that was read, and the counters, where no log is asked for.
fn print_books(rt: &HostRuntime, capture: &Capture) -> Result<(), Failure> {
    if capture.log {
        return Ok(());
    }
    if let Ok(l) = books::told(receiver_at(capture.numbers, capture.body)) {
        console::print_ledger(rt, l)?;
        print_counters(rt, &capture.transport.counters)?;
    }
    Ok(())
}

// Takes blocks to the input's end.
fn read_all(rt: &HostRuntime, source: &mut Source, log: bool) -> Result<(), Failure> {
    let mut buf = io::large_buffer();
    let mut capture = Capture {
        numbers: [0; Receiver::NUMBERS],
        body: [0; Receiver::ROOM],
        transport: transport_receiver::Receiver::new(),
        out: Output {
            bytes: io::large_buffer(),
            at: 0,
        },
        log,
    };
    for turn in 0..u64::MAX {
        match source.read_block(&mut buf) {
            Ok(0) => return print_books(rt, &capture),
            Ok(n) => capture.take_block(rt, &buf[..n])?,
            Err(why) => {
                if turn > 0 {
                    print_books(rt, &capture)?;
                }
                return Err(Failure::Input(why));
            }
        }
    }
    Ok(())
}

fn main(rt: HostRuntime) {
    let mut space = io::buffer();
    let Some(mut input) = EVENTS.start(&rt, &mut space) else {
        return;
    };
    let log = !input.own;
    if let Err(failure) = read_all(&rt, &mut input.source, log) {
        EVENTS.tell(&rt, input.name, failure);
    }
}
