// The records of an answer of the transport step, all or none of them, in order.
#![tactic(auto)]

ghost use Rattle.std.specs.Prelude.{◌≡◌, ◌≤◌, length};
ghost use Rattle.laws.specs.Bytes.{laid_over};
ghost use Rattle.address.specs.Address.{id_limit, gateway_of};
ghost use Rattle.network.specs.Split.{packets_of};
ghost use Rattle.sound_record.specs.Record.{written};
ghost use Rattle.event_record.specs.Handed.{handed};
ghost use Rattle.transport_receiver.specs.Step.{slot_counter};
ghost use Rattle.event_log.specs.Records.{packets_at, records_of, records_in, bytes_of, records_handed, records_bytes, answer_handed, answer_bytes, space_of};
ghost use Rattle.event_log.specs.Answers.{event_in, room_after};

use address::{Address, GatewayID, ID_LIMIT};
use event_record::RecordError;
use sound_record::BODY_AT;
use transport_receiver::{Accepted, Answer, POOL};

// How many bytes the record of kind 6 has.
const SLOT_SIZE: usize = 9;

// How many bytes a long address has.
const ADDRESS_SIZE: usize = 8;

// Where a command response's own payload starts.
const RESPONSE_AT: usize = 5;

// The room that is left behind the records of an area's packets, if there is room for them.
fn room_after(area: &[u8], room: usize) -> Option<usize>
    ensures { result ≡ room_after (space_of (packets_of area.now).packets) room }
{
    // a packet's record holds its header too, so the place where it starts is kept
    let mut left = room;
    let mut at = 0usize;
    while let Some(found) = network::packet_at(area, at) {
        let Ok(packet) = found else {
            return Some(left);
        };
        left = left.checked_sub(BODY_AT + (packet.end - at))?;
        at = packet.end;
    }
    Some(left)
}

// Writes the record of each packet of an area, one behind the other.
fn put_packets(out: &mut [u8], gateway: GatewayID, area: &[u8])
    requires { (gateway.0 ≤ id_limit) × (space_of (packets_of area.now).packets ≤ length out.old) }
    ensures { out.new ≡ laid_over (bytes_of written (packets_at gateway.0 (packets_of area.now).packets)) out.old }
{
    // as in `room_after`, a record starts where its packet's header does
    let mut at = 0usize;
    let mut to = 0usize;
    while let Some(found) = network::packet_at(area, at) {
        let Ok(packet) = found else {
            return;
        };
        let _ = event_record::packet(&mut out[to..], gateway, &area[at..packet.end]);
        to = to + BODY_AT + (packet.end - at);
        at = packet.end;
    }
}

// Kind 6, and kind 7 for each packet of the area. Its parts come from one call, and go on to two encoders one by one: a struct of them would be
// made there to be taken apart here.
fn slots(
    out: &mut [u8],
    gateway: GatewayID,
    counter: u16,
    repeat: bool,
    area: &[u8],
) -> Result<usize, RecordError>
    ensures answer { handed result ≡ records_handed (records_of (slot_counter gateway.0 counter repeat area.now)) (length out.old) }
    ensures bytes { out.new ≡ records_bytes (records_of (slot_counter gateway.0 counter repeat area.now)) out.old }
{
    if ID_LIMIT < gateway.0 {
        return Err(RecordError::InvalidGatewayID);
    }
    let n = out.len();
    let room = n.checked_sub(SLOT_SIZE).ok_or(RecordError::NoRoom)?;
    let left = room_after(area, room).ok_or(RecordError::NoRoom)?;
    let _ = event_record::slot_counter(out, gateway, counter, repeat);
    put_packets(&mut out[SLOT_SIZE..], gateway, area);
    Ok(n - left)
}

// Writes the records of an answer to a frame of a gateway, as `write` does, which asks for 13 of that gateway before. Gateway, payload and answer
// are met together here and in `write` alone, and each of them by itself in the encoders.
#[tactic(auto, using(crate::proofs::Writes::records_none, crate::proofs::Writes::records_one, crate::proofs::Writes::bytes_one))]
fn write_event(
    out: &mut [u8],
    cpayloads: &[u8; POOL],
    id: GatewayID,
    payload: &[u8],
    answer: Answer,
) -> Result<usize, RecordError>
    ensures answer { handed result ≡ records_handed (records_in (event_in cpayloads.now id.0 payload.now answer)) (length out.old) }
    ensures bytes { out.new ≡ records_bytes (records_in (event_in cpayloads.now id.0 payload.now answer)) out.old }
{
    let Ok(accepted) = answer else {
        return Ok(0);
    };
    match accepted {
        Accepted::Counted => Ok(0),
        Accepted::CommandKept => Ok(0),
        Accepted::EnumerationStarted { gateway } => {
            event_record::enumeration_started(out, gateway)
        }
        Accepted::IdentityObserved => {
            let address = &payload[..ADDRESS_SIZE.min(payload.len())];
            event_record::identity(out, id, address)
        }
        Accepted::VersionObserved => event_record::version(out, id, payload),
        Accepted::EnumerationEnded => event_record::enumeration_ended(out, id),
        Accepted::SlotCounterCaptured => event_record::slot_captured(out, id),
        Accepted::SlotCounterObserved {
            number: _,
            slot,
            repeat,
            area,
        } => {
            let packets = &payload[area.min(payload.len())..];
            slots(out, id, slot.0, repeat, packets)
        }
        Accepted::CommandExecuted {
            place,
            request,
            length,
            response,
        } => {
            let asked = transport_receiver::request_payload(cpayloads, place, length);
            let answered = &payload[RESPONSE_AT.min(payload.len())..];
            event_record::command(out, id, request.0, asked, response.0, answered)
        }
    }
}

// Writes the records of an answer to a frame's address and payload, in order, to the start of `out`; `cpayloads` is the pool of the state after the
// step. Refused by 13, of the frame's gateway before all else, by 41, then 40 if `out` is shorter than all of them; a refusal leaves `out` as it was.
// An answer with no event writes 0 bytes.
pub fn write(
    out: &mut [u8],
    cpayloads: &[u8; POOL],
    address: Address,
    payload: &[u8],
    answer: Answer,
) -> Result<usize, RecordError>
    ensures answer { handed result ≡ answer_handed (gateway_of address) (records_in (event_in cpayloads.now (gateway_of address) payload.now answer)) (length out.old) }
    ensures bytes { out.new ≡ answer_bytes (gateway_of address) (records_in (event_in cpayloads.now (gateway_of address) payload.now answer)) out.old }
{
    let id = address.gateway();
    if ID_LIMIT < id.0 {
        return Err(RecordError::InvalidGatewayID);
    }
    write_event(out, cpayloads, id, payload, answer)
}
