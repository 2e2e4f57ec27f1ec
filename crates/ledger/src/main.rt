// Reads an input to its end, and prints its ledger: 01's nine lines. Of an input that fails on the way it prints the ledger of what came,
// and says so.
#![tactic(auto)]

use console::{Failure, Program, Source};
use link_receive::Receiver;

const LEDGER: Program<'static> = Program {
    name: b"ledger",
    own: b"",
    usage: b"usage: ledger [FILE]\n",
    help: b"Prints the ledger of FILE, nine counts. No FILE, or -, is standard input.\n",
};

// Prints the ledger, and tells whether that went well.
fn print(rt: &HostRuntime, r: Receiver) -> Result<(), Failure> {
    let Ok(l) = books::told(r) else {
        return Ok(());
    };
    console::print_ledger(rt, l)?;
    Ok(())
}

// Takes blocks to the input's end.
fn read_all(rt: &HostRuntime, source: &mut Source) -> Result<(), Failure> {
    let mut buf = io::large_buffer();
    let mut r = Receiver::new();
    for turn in 0..u64::MAX {
        match source.read_block(&mut buf) {
            Ok(0) => return print(rt, r),
            Ok(n) => r = books::absorb(r, &buf[..n]).next,
            Err(why) => {
                if turn > 0 {
                    print(rt, r)?;
                }
                return Err(Failure::Input(why));
            }
        }
    }
    Ok(())
}

fn main(rt: HostRuntime) {
    let mut space = io::buffer();
    let Some(mut input) = LEDGER.start(&rt, &mut space) else {
        return;
    };
    if let Err(failure) = read_all(&rt, &mut input.source) {
        LEDGER.tell(&rt, input.name, failure);
    }
}
