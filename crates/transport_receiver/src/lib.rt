// The transport receiver (transport/receiver.rs): what a sound frame means.
// The state is three tables of fixed size and 33 counters, held as arrays of numbers; specs/State.antt says what the arrays mean.
// What each frame type does to them is in crates/receive_frames, crates/command_frames and crates/plain_frames.
// `step_in` is lent the arrays, as C lends them; `Receiver::step` is the same over its own.
#![tactic(auto)]

ghost use Rattle.std.specs.Prelude.{◌≡◌};
ghost use Rattle.tables.specs.Keys.{over_of};
ghost use Rattle.answers.specs.Stored.{kept_limit};
ghost use Rattle.transport_receiver.specs.State.{frame_of, state_of, fresh};
ghost use Rattle.transport_receiver.specs.Step.{step_of, reset_of};
ghost use Rattle.transport_receiver.specs.Handed.{told, told_reset};
ghost use Rattle.transport_receiver.specs.Lent.{arrays, stepped, handled_in, step_in, request_payload, reset_answer, counters_after, was_reset, reset_in};

use address::Address;
use answers::barred;
use answers::entries::STRIDE;
pub use answers::entries::{KEPT_LIMIT, POOL};
pub use answers::{Accepted, Answer, Refusal, counters};
use command_frames::{command_request, command_response};
use link::Type;
use plain_frames::untabled;
use receive_frames::{receive_request, receive_response};

// 32 places for what is stored of gateways: their keys, and the values. A key of 0 is a free place, here and in `Commands`.
#[derive(Drop)]
pub struct Table<T> {
    pub keys: [u32; 32],
    pub values: [T; 32],
}

// 64 waiting commands: keys of gateway and sequence, packet types, payload lengths, and a part of the pool for each payload.
#[derive(Drop)]
pub struct Commands {
    pub keys: [u32; 64],
    pub types: [u8; 64],
    pub lengths: [u16; 64],
    pub payloads: [u8; POOL],
}

// The state: three tables and the counters, as arrays of numbers (`state_of` of specs/State.antt says what they mean).
#[derive(Drop)]
pub struct Receiver {
    // The packet numbers, and the last command sequences.
    pub numbers: Table<u16>,
    pub sequences: Table<u8>,
    pub commands: Commands,
    // The counters, each at its place of `counters`.
    pub counters: [u64; 33],
}

// The reset's refusal, 12: a held command's length is over its limit.
#[derive(Clone, Copy, PartialEq, Eq)]
pub struct OverLimit;

// A frame that 12, 13 and 32 do not refuse, by its type.
#[tactic(auto, unfolding(crate::specs::Lent::handled_in))]
fn handled(
    nkeys: &mut [u32; 32],
    numbers: &mut [u16; 32],
    skeys: &mut [u32; 32],
    sequences: &mut [u8; 32],
    ckeys: &mut [u32; 64],
    ctypes: &mut [u8; 64],
    clengths: &mut [u16; 64],
    cpayloads: &mut [u8; POOL],
    counters: &mut [u64; 33],
    address: Address,
    frame_type: Type,
    payload: &[u8],
) -> Answer
    ensures { stepped result (arrays nkeys.new numbers.new skeys.new sequences.new ckeys.new ctypes.new clengths.new cpayloads.new counters.new) ≡ handled_in (arrays nkeys.old numbers.old skeys.old sequences.old ckeys.old ctypes.old clengths.old cpayloads.old counters.old) (frame_of address frame_type payload.now) }
{
    match frame_type {
        Type::RECEIVE_REQUEST => receive_request(nkeys, numbers, counters, address, payload),
        Type::RECEIVE_RESPONSE => receive_response(nkeys, numbers, counters, address, payload),
        Type::COMMAND_REQUEST => command_request(
            skeys, sequences, ckeys, ctypes, clengths, cpayloads, counters, address, payload,
        ),
        Type::COMMAND_RESPONSE => {
            command_response(ckeys, ctypes, clengths, counters, address, payload)
        }
        _ => untabled(counters, address, frame_type, payload),
    }
}

// One frame, over a state that is lent, array by array: so C lends it, and a struct of them would be a copy.
#[tactic(auto, unfolding(crate::specs::Lent::step_in))]
pub fn step_in(
    nkeys: &mut [u32; 32],
    numbers: &mut [u16; 32],
    skeys: &mut [u32; 32],
    sequences: &mut [u8; 32],
    ckeys: &mut [u32; 64],
    ctypes: &mut [u8; 64],
    clengths: &mut [u16; 64],
    cpayloads: &mut [u8; POOL],
    counters: &mut [u64; 33],
    address: Address,
    frame_type: Type,
    payload: &[u8],
) -> Answer
    ensures exactly { stepped result (arrays nkeys.new numbers.new skeys.new sequences.new ckeys.new ctypes.new clengths.new cpayloads.new counters.new) ≡ step_in (arrays nkeys.old numbers.old skeys.old sequences.old ckeys.old ctypes.old clengths.old cpayloads.old counters.old) (frame_of address frame_type payload.now) }
    ensures means { told (frame_of address frame_type payload.now) (stepped result (arrays nkeys.new numbers.new skeys.new sequences.new ckeys.new ctypes.new clengths.new cpayloads.new counters.new)) ≡ step_of (state_of (arrays nkeys.old numbers.old skeys.old sequences.old ckeys.old ctypes.old clengths.old cpayloads.old counters.old)) (frame_of address frame_type payload.now) }
{
    if tables::over(ckeys, clengths, KEPT_LIMIT) {
        return Err(Refusal::OverLimit);
    }
    barred(address, payload)?;
    handled(
        nkeys, numbers, skeys, sequences, ckeys, ctypes, clengths, cpayloads, counters, address,
        frame_type, payload,
    )
}

// The request's payload of a command at a place of the pool. It stays there until the place is used again. Empty where no such place or length is.
#[tactic(auto, unfolding(crate::specs::Lent::request_payload))]
pub fn request_payload(cpayloads: &[u8; POOL], place: usize, length: u16) -> &[u8]
    ensures { result.now ≡ request_payload cpayloads.now place length }
{
    let pool = &cpayloads[..];
    let size = length as usize;
    if 64 <= place {
        return &pool[0..0];
    }
    if KEPT_LIMIT < length {
        return &pool[0..0];
    }
    let start = place * STRIDE;
    let end = start + size;
    &pool[start..end]
}

// The counters of a state that is lent, set to 0: they are lent, and what 12 looks at. Refused by 12, with nothing changed.
pub fn reset_in(
    ckeys: &[u32; 64],
    clengths: &[u16; 64],
    counters: &mut [u64; 33],
) -> Result<(), OverLimit>
    ensures answer { result ≡ reset_answer (over_of ckeys.now clengths.now kept_limit) }
    ensures zeros { counters.new ≡ counters_after (over_of ckeys.now clengths.now kept_limit) counters.old }
{
    if tables::over(ckeys, clengths, KEPT_LIMIT) {
        return Err(OverLimit);
    }
    *counters = [0; 33];
    Ok(())
}

impl Receiver {
    // A fresh receiver: every place free, every counter 0.
    pub fn new() -> Self
        ensures { result ≡ fresh }
    {
        let numbers = Table {
            keys: [0; 32],
            values: [0; 32],
        };
        let sequences = Table {
            keys: [0; 32],
            values: [0; 32],
        };
        let commands = Commands {
            keys: [0; 64],
            types: [0; 64],
            lengths: [0; 64],
            payloads: [0; POOL],
        };
        Self {
            numbers,
            sequences,
            commands,
            counters: [0; 33],
        }
    }

    // One frame: `step_in` over the receiver's own arrays.
    pub fn step(&mut self, address: Address, frame_type: Type, payload: &[u8]) -> Answer
        ensures exactly { stepped result self.new ≡ step_in self.old (frame_of address frame_type payload.now) }
        ensures means { told (frame_of address frame_type payload.now) (stepped result self.new) ≡ step_of (state_of self.old) (frame_of address frame_type payload.now) }
    {
        step_in(
            &mut self.numbers.keys,
            &mut self.numbers.values,
            &mut self.sequences.keys,
            &mut self.sequences.values,
            &mut self.commands.keys,
            &mut self.commands.types,
            &mut self.commands.lengths,
            &mut self.commands.payloads,
            &mut self.counters,
            address,
            frame_type,
            payload,
        )
    }

    // The counters set to 0, and nothing else. Refused by 12, with nothing changed.
    #[tactic(auto, unfolding(crate::specs::Lent::reset_in))]
    pub fn reset_counters(&mut self) -> Result<(), OverLimit>
        ensures exactly { was_reset result self.new ≡ reset_in self.old }
        ensures means { told_reset (was_reset result self.new) ≡ reset_of (state_of self.old) }
    {
        reset_in(
            &self.commands.keys,
            &self.commands.lengths,
            &mut self.counters,
        )
    }
}
