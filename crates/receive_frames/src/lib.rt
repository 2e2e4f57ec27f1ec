// Receive requests and receive responses: the table of packet numbers.
#![tactic(auto)]

ghost use Rattle.std.specs.Prelude.{◌≡◌, ◌≤◌, ◌<◌, length, get_or};
ghost use Rattle.address.specs.Address.{is_from, gateway_of};
ghost use Rattle.transport.specs.Response.{receive_read_of};
ghost use Rattle.answers.specs.Counters.{count_packets};
ghost use Rattle.answers.specs.Stored.{repeats};
ghost use Rattle.receive_frames.specs.Receive.{Asked, captured_in, receive_request_in, received, good_in, read_in, answered_in, receive_response_in};

use address::Address;
use answers::counters::Counter;
use answers::entries::{add, gateway_key, raise};
use answers::{Accepted, Answer, Refusal, barred};
use transport::{PacketNumber, ReceiveResponse, ReceiveResponseError};
use words::be16;

// A receive request that 13 and 32 do not refuse. Refused by 20, 21, 25, in this order.
#[tactic(auto, unfolding(crate::specs::Receive::captured_in))]
fn capture(
    nkeys: &mut [u32; 32],
    numbers: &mut [u16; 32],
    counters: &mut [u64; 33],
    address: Address,
    payload: &[u8],
) -> Answer
    ensures { ◌≡◌ {A = Asked} (record { answer = result; nkeys = nkeys.new; numbers = numbers.new; counters = counters.new }) (captured_in nkeys.old numbers.old counters.old (is_from address) (gateway_of address) payload.now) }
{
    if address.is_from() {
        raise(counters, Counter::InvalidReceiveRequest);
        return Err(Refusal::WrongDirection);
    }
    if payload.len() != 5 {
        raise(counters, Counter::InvalidReceiveRequest);
        return Err(Refusal::WrongLength);
    }
    let key = gateway_key(address.gateway());
    let Some(i) = tables::seat(nkeys, key) else {
        return Err(Refusal::NumbersFull);
    };
    raise(counters, Counter::ReceiveRequests);
    nkeys[i] = key;
    numbers[i] = be16(payload[2], payload[3]);
    Ok(Accepted::SlotCounterCaptured)
}

// A receive request: its number is stored for the gateway. Refused by 13, 32, 20, 21, 25, in this order.
#[tactic(auto, unfolding(crate::specs::Receive::receive_request_in))]
pub fn receive_request(
    nkeys: &mut [u32; 32],
    numbers: &mut [u16; 32],
    counters: &mut [u64; 33],
    address: Address,
    payload: &[u8],
) -> Answer
    ensures { ◌≡◌ {A = Asked} (record { answer = result; nkeys = nkeys.new; numbers = numbers.new; counters = counters.new }) (receive_request_in nkeys.old numbers.old counters.old (is_from address) (gateway_of address) payload.now) }
{
    barred(address, payload)?;
    capture(nkeys, numbers, counters, address, payload)
}

// Whether a response's number repeats the one stored before it.
fn repeats(number: PacketNumber, before: PacketNumber, area: &[u8]) -> bool
    ensures { result ≡ repeats number.0 before.0 area.now }
{
    number.0 == before.0
}

// The packets of an area, counted.
fn count_packets(counters: &mut [u64; 33], area: &[u8])
    ensures { counters.new ≡ count_packets area.now counters.old }
{
    let tally = network::counts(area);
    add(counters, Counter::ReceivePackets, tally.packets);
    add(
        counters,
        Counter::ReceivePacketTooShort,
        u64::from(tally.short),
    );
}

// A good receive response of the gateway whose number stands at place i.
#[tactic(auto, unfolding(crate::specs::Receive::good_in))]
fn good_response(
    numbers: &mut [u16; 32],
    counters: &mut [u64; 33],
    i: usize,
    response: ReceiveResponse,
    area: usize,
    payload: &[u8],
) -> Answer
    requires { (i < 32) × (area ≤ length payload.now) }
    ensures { received result numbers.new counters.new ≡ good_in response area i numbers.old counters.old payload.now }
{
    let packets = &payload[area..];
    let number = response.packet_number;
    let slot = response.slot_counter;
    let before = PacketNumber(numbers[i]);
    let repeat = repeats(number, before, packets);
    let stored = number.0;
    numbers[i] = stored;
    raise(counters, Counter::ReceiveResponses);
    count_packets(counters, packets);
    Ok(Accepted::SlotCounterObserved {
        number,
        slot,
        repeat,
        area,
    })
}

// A receive response of the gateway whose number stands at place i.
fn known_response(
    numbers: &mut [u16; 32],
    counters: &mut [u64; 33],
    i: usize,
    payload: &[u8],
) -> Answer
    requires { i < 32 }
    ensures { received result numbers.new counters.new ≡ read_in (receive_read_of payload.now (get_or numbers.old i 0)) i numbers.old counters.old payload.now }
{
    let before = PacketNumber(numbers[i]);
    let read = ReceiveResponse::read(payload, before);
    match read {
        Err(ReceiveResponseError::TooShort(needed)) => {
            raise(counters, Counter::InvalidReceiveResponses);
            Err(Refusal::TooShort { needed })
        }
        Err(ReceiveResponseError::UnknownStatusType(_)) => {
            raise(counters, Counter::InvalidReceiveResponses);
            Err(Refusal::UnknownStatusType)
        }
        Ok((response, area)) => { good_response(numbers, counters, i, response, area, payload) }
    }
}

// A receive response that 13 and 32 do not refuse. Refused by 20, 24, then 23 if under 2 bytes, 22, 23.
#[tactic(auto, unfolding(crate::specs::Receive::answered_in))]
fn answer(
    nkeys: &[u32; 32],
    numbers: &mut [u16; 32],
    counters: &mut [u64; 33],
    address: Address,
    payload: &[u8],
) -> Answer
    ensures { received result numbers.new counters.new ≡ answered_in nkeys.now numbers.old counters.old (is_from address) (gateway_of address) payload.now }
{
    if !address.is_from() {
        raise(counters, Counter::InvalidReceiveResponses);
        return Err(Refusal::WrongDirection);
    }
    let key = gateway_key(address.gateway());
    let Some(i) = tables::find(nkeys, key) else {
        raise(counters, Counter::ReceiveResponseFromUnknownGateway);
        return Err(Refusal::UnknownGateway);
    };
    known_response(numbers, counters, i, payload)
}

// A receive response: its number replaces the one stored for the gateway. Refused by 13, 32, 20, 24, then 23 if under 2 bytes, 22, 23.
#[tactic(auto, unfolding(crate::specs::Receive::receive_response_in))]
pub fn receive_response(
    nkeys: &[u32; 32],
    numbers: &mut [u16; 32],
    counters: &mut [u64; 33],
    address: Address,
    payload: &[u8],
) -> Answer
    ensures { received result numbers.new counters.new ≡ receive_response_in nkeys.now numbers.old counters.old (is_from address) (gateway_of address) payload.now }
{
    barred(address, payload)?;
    answer(nkeys, numbers, counters, address, payload)
}
