// Command requests and responses: the tables of last sequences and of waiting commands.
// The tables are lent array by array, as C lends them to the door: a struct of them would be a copy.
#![tactic(auto)]

ghost use Rattle.std.specs.Prelude.{◌≡◌, ◌*◌, ◌≤◌, ◌<◌, length, drop};
ghost use Rattle.std.proofs.Math.Seq.{paste};
ghost use Rattle.address.specs.Address.{is_from, gateway_of};
ghost use Rattle.link.specs.Wire.{payload_limit};
ghost use Rattle.answers.specs.Stored.{stride};
ghost use Rattle.command_frames.specs.Command.{Seated, keep_in, Noted, is_last_in, note_in, Requested, asked_in, command_request_in, Answered, finished_in, command_response_in};

use address::Address;
use answers::counters::Counter;
use answers::entries::{POOL, STRIDE, command_key, gateway_key, raise};
use answers::{Accepted, Answer, Refusal, barred};
use network::PacketType;
use transport::CommandSequenceNumber;
use words::copy_in;

// A request's payload into place i of the pool; its length.
fn keep_payload(cpayloads: &mut [u8; POOL], i: usize, payload: &[u8]) -> u16
    requires { (i < 64) × (5 ≤ length payload.now) × (length payload.now ≤ payload_limit) }
    ensures { (result ≡ length (drop 5 payload.now)) × (cpayloads.new ≡ paste cpayloads.old (i * stride) (drop 5 payload.now) (length (drop 5 payload.now))) }
{
    let t = &payload[5..];
    copy_in(cpayloads, i * STRIDE, t);
    t.len() as u16
}

// A command request into place i of its table.
#[tactic(auto, unfolding(crate::specs::Command::keep_in))]
fn keep(
    ckeys: &mut [u32; 64],
    ctypes: &mut [u8; 64],
    clengths: &mut [u16; 64],
    cpayloads: &mut [u8; POOL],
    i: usize,
    key: u32,
    payload: &[u8],
)
    requires { (i < 64) × (5 ≤ length payload.now) × (length payload.now ≤ payload_limit) }
    ensures { ◌≡◌ {A = Seated} (record { ckeys = ckeys.exit.now; ctypes = ctypes.new; clengths = clengths.new; cpayloads = cpayloads.new }) (keep_in (record { ckeys = ckeys.entry.now; ctypes = ctypes.old; clengths = clengths.old; cpayloads = cpayloads.old }) i key payload.now) }
{
    ckeys[i] = key;
    ctypes[i] = payload[3];
    clengths[i] = keep_payload(cpayloads, i, payload);
}

// Whether place q holds the gateway's key and this sequence.
#[tactic(auto, unfolding(crate::specs::Command::is_last_in))]
fn is_last(
    skeys: &[u32; 32],
    sequences: &[u8; 32],
    q: usize,
    key: u32,
    sequence: CommandSequenceNumber,
) -> bool
    requires { q < 32 }
    ensures { result ≡ is_last_in skeys.now sequences.now q key sequence.0 }
{
    skeys[q] == key && sequences[q] == sequence.0
}

// The gateway's last sequence noted at place q, and the request counted: as retransmitted if it was the last before.
#[tactic(auto, unfolding(crate::specs::Command::note_in))]
fn note(
    skeys: &mut [u32; 32],
    sequences: &mut [u8; 32],
    counters: &mut [u64; 33],
    q: usize,
    key: u32,
    sequence: CommandSequenceNumber,
)
    requires { q < 32 }
    ensures { ◌≡◌ {A = Noted} (record { skeys = skeys.exit.now; sequences = sequences.new; counters = counters.new }) (note_in (record { skeys = skeys.entry.now; sequences = sequences.old; counters = counters.old }) q key sequence.0) }
{
    if is_last(skeys, sequences, q, key, sequence) {
        raise(counters, Counter::RetransmittedCommandRequests);
        return;
    }
    skeys[q] = key;
    sequences[q] = sequence.0;
    raise(counters, Counter::CommandRequests);
}

// A command request that 13 and 32 do not refuse. Refused by 20, 21, 26, 27, in this order.
#[tactic(auto, unfolding(crate::specs::Command::asked_in))]
fn ask(
    skeys: &mut [u32; 32],
    sequences: &mut [u8; 32],
    ckeys: &mut [u32; 64],
    ctypes: &mut [u8; 64],
    clengths: &mut [u16; 64],
    cpayloads: &mut [u8; POOL],
    counters: &mut [u64; 33],
    address: Address,
    payload: &[u8],
) -> Answer
    requires { length payload.now ≤ payload_limit }
    ensures { ◌≡◌ {A = Requested} (record { answer = result; noted = record { skeys = skeys.exit.now; sequences = sequences.new; counters = counters.new }; seated = record { ckeys = ckeys.exit.now; ctypes = ctypes.new; clengths = clengths.new; cpayloads = cpayloads.new } }) (asked_in (record { skeys = skeys.entry.now; sequences = sequences.old; counters = counters.old }) (record { ckeys = ckeys.entry.now; ctypes = ctypes.old; clengths = clengths.old; cpayloads = cpayloads.old }) (is_from address) (gateway_of address) payload.now) }
{
    if address.is_from() {
        raise(counters, Counter::InvalidCommandRequests);
        return Err(Refusal::WrongDirection);
    }
    if payload.len() < 5 {
        raise(counters, Counter::InvalidCommandRequests);
        return Err(Refusal::WrongLength);
    }
    let sequence = CommandSequenceNumber(payload[4]);
    let gkey = gateway_key(address.gateway());
    let Some(q) = tables::seat(skeys, gkey) else {
        return Err(Refusal::SequencesFull);
    };
    let ckey = command_key(address.gateway(), sequence);
    let Some(i) = tables::seat(ckeys, ckey) else {
        return Err(Refusal::CommandsFull);
    };
    keep(ckeys, ctypes, clengths, cpayloads, i, ckey, payload);
    note(skeys, sequences, counters, q, gkey, sequence);
    Ok(Accepted::CommandKept)
}

// A command request: kept under gateway and sequence, and its sequence noted as the gateway's last. Refused by 13, 32, 20, 21, 26, 27, in this order.
#[tactic(auto, unfolding(crate::specs::Command::command_request_in))]
pub fn command_request(
    skeys: &mut [u32; 32],
    sequences: &mut [u8; 32],
    ckeys: &mut [u32; 64],
    ctypes: &mut [u8; 64],
    clengths: &mut [u16; 64],
    cpayloads: &mut [u8; POOL],
    counters: &mut [u64; 33],
    address: Address,
    payload: &[u8],
) -> Answer
    ensures { ◌≡◌ {A = Requested} (record { answer = result; noted = record { skeys = skeys.exit.now; sequences = sequences.new; counters = counters.new }; seated = record { ckeys = ckeys.exit.now; ctypes = ctypes.new; clengths = clengths.new; cpayloads = cpayloads.new } }) (command_request_in (record { skeys = skeys.entry.now; sequences = sequences.old; counters = counters.old }) (record { ckeys = ckeys.entry.now; ctypes = ctypes.old; clengths = clengths.old; cpayloads = cpayloads.old }) (is_from address) (gateway_of address) payload.now) }
{
    barred(address, payload)?;
    ask(
        skeys, sequences, ckeys, ctypes, clengths, cpayloads, counters, address, payload,
    )
}

// A command response that 13 and 32 do not refuse. Refused by 20, 21, 30, in this order.
#[tactic(auto, unfolding(crate::specs::Command::finished_in))]
fn finish(
    ckeys: &mut [u32; 64],
    ctypes: &[u8; 64],
    clengths: &[u16; 64],
    counters: &mut [u64; 33],
    address: Address,
    payload: &[u8],
) -> Answer
    ensures { ◌≡◌ {A = Answered} (record { answer = result; ckeys = ckeys.new; counters = counters.new }) (finished_in ckeys.old ctypes.now clengths.now counters.old (is_from address) (gateway_of address) payload.now) }
{
    if !address.is_from() {
        raise(counters, Counter::InvalidCommandResponses);
        return Err(Refusal::WrongDirection);
    }
    if payload.len() < 5 {
        raise(counters, Counter::InvalidCommandResponses);
        return Err(Refusal::WrongLength);
    }
    let sequence = CommandSequenceNumber(payload[4]);
    let key = command_key(address.gateway(), sequence);
    let Some(i) = tables::find(ckeys, key) else {
        raise(counters, Counter::RetransmittedCommandResponses);
        return Err(Refusal::NoRequest);
    };
    ckeys[i] = tables::FREE;
    raise(counters, Counter::CommandResponses);
    Ok(Accepted::CommandExecuted {
        place: i,
        request: PacketType(ctypes[i]),
        length: clengths[i],
        response: PacketType(payload[3]),
    })
}

// A command response: takes its request out. Refused by 13, 32, 20, 21, 30, in this order.
#[tactic(auto, unfolding(crate::specs::Command::command_response_in))]
pub fn command_response(
    ckeys: &mut [u32; 64],
    ctypes: &[u8; 64],
    clengths: &[u16; 64],
    counters: &mut [u64; 33],
    address: Address,
    payload: &[u8],
) -> Answer
    ensures { ◌≡◌ {A = Answered} (record { answer = result; ckeys = ckeys.new; counters = counters.new }) (command_response_in ckeys.old ctypes.now clengths.now counters.old (is_from address) (gateway_of address) payload.now) }
{
    barred(address, payload)?;
    finish(ckeys, ctypes, clengths, counters, address, payload)
}
