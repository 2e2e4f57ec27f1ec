// The frames of a capture: each goes through the transport step, and its records, if a log is asked for, to the output.
use address::Address;
use console::Failure;
use console::text::Output;
use link_feed::lending::feed_from;
use link_receive::{Answer, Receiver};
use transport_receiver::POOL;

// The room that a step's records are given: `answer-fits` of crates/event_log says that 512 bytes hold them.
const ROOM: usize = 1024;

// The receivers of both layers, and the records that are to be written. `log` says whether any are. The link's receiver is ten numbers and a
// body, which are all 0 while it is fresh: one that is handed on by value copies body and tallies for each frame.
#[derive(Drop)]
pub struct Capture {
    pub numbers: [u64; Receiver::NUMBERS],
    pub body: [u8; Receiver::ROOM],
    pub transport: transport_receiver::Receiver,
    pub out: Output,
    pub log: bool,
}

// Puts the records of an answer.
fn put_records(
    rt: &HostRuntime,
    out: &mut Output,
    cpayloads: &[u8; POOL],
    address: Address,
    payload: &[u8],
    answer: transport_receiver::Answer,
) -> Result<(), Failure> {
    out.with_room(rt, ROOM)?;
    let at = out.at;
    if let Ok(n) = event_log::write(&mut out.bytes[at..], cpayloads, address, payload, answer) {
        out.at = at + n;
    }
    Ok(())
}

impl Capture {
    // Takes the frame that was handed out, if one was, with the payload in the body: the transport step, and its records.
    fn take_answer(&mut self, rt: &HostRuntime, answer: Answer) -> Result<(), Failure> {
        let Ok(Some(head)) = answer else {
            return Ok(());
        };
        let payload = link_receive::payload(&self.body, head.len);
        let told = self.transport.step(head.address, head.frame_type, payload);
        if self.log {
            let stored = &self.transport.commands.payloads;
            put_records(rt, &mut self.out, stored, head.address, payload, told)?;
        }
        Ok(())
    }

    // Feeds a block to its end, takes its frames and writes their records. `frames` has a loop like it: one for both would be given what is done
    // with a frame as a closure, of which it could promise nothing.
    pub fn take_block(&mut self, rt: &HostRuntime, s: &[u8]) -> Result<(), Failure> {
        let mut i = 0;
        while i < s.len() {
            let f = feed_from(&mut self.numbers, &mut self.body, s, i);
            self.take_answer(rt, f.answer)?;
            if f.at <= i {
                break;
            }
            i = f.at;
        }
        self.out.flush(rt)?;
        Ok(())
    }
}
