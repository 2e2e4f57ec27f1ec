// The frame types that touch no table.
#![tactic(auto)]

ghost use Rattle.std.specs.Prelude.{◌≡◌, MatchOption};
ghost use Rattle.address.specs.Address.{is_from, gateway_of};
ghost use Rattle.answers.specs.Places.{place_of};
ghost use Rattle.plain_frames.specs.Plain.{counted, IsUnhandled, IsCountedBy, enumeration_start_in, identity_in, version_in, enumeration_end_in, count_in, by_type_in, untabled_in};

use address::Address;
use answers::counters::Counter;
use answers::entries::raise;
use answers::{Accepted, Answer, Refusal, barred};
use link::Type;
use words::be16;

#[tactic(auto, unfolding(crate::specs::Plain::enumeration_start_in, address::specs::Address::address_of))]
fn enumeration_start_request(counters: &mut [u64; 33], address: Address, payload: &[u8]) -> Answer
    ensures { counted result counters.new ≡ enumeration_start_in counters.old (is_from address) (gateway_of address) payload.now }
{
    if address.is_from() {
        raise(counters, Counter::InvalidEnumerationStartRequest);
        return Err(Refusal::WrongDirection);
    }
    if address.gateway().0 != 0 {
        raise(counters, Counter::InvalidEnumerationStartRequest);
        return Err(Refusal::WrongDirection);
    }
    if payload.len() != 6 {
        raise(counters, Counter::InvalidEnumerationStartRequest);
        return Err(Refusal::WrongLength);
    }
    let Address::To(gateway) = Address::from(be16(payload[4], payload[5])) else {
        raise(counters, Counter::InvalidEnumerationStartRequest);
        return Err(Refusal::NamesFrom);
    };
    raise(counters, Counter::EnumerationStartRequests);
    Ok(Accepted::EnumerationStarted { gateway })
}

// An identify or enumeration response, with its counters.
#[tactic(auto, unfolding(crate::specs::Plain::identity_in))]
fn identity(
    counters: &mut [u64; 33],
    good: Counter,
    bad: Counter,
    address: Address,
    payload: &[u8],
) -> Answer
    ensures { counted result counters.new ≡ identity_in counters.old (place_of good) (place_of bad) (is_from address) payload.now }
{
    if !address.is_from() {
        raise(counters, bad);
        return Err(Refusal::WrongDirection);
    }
    if payload.len() != 10 {
        raise(counters, bad);
        return Err(Refusal::WrongLength);
    }
    raise(counters, good);
    Ok(Accepted::IdentityObserved)
}

#[tactic(auto, unfolding(crate::specs::Plain::version_in))]
fn version_response(counters: &mut [u64; 33], address: Address, payload: &[u8]) -> Answer
    ensures { counted result counters.new ≡ version_in counters.old (is_from address) payload.now }
{
    if !address.is_from() {
        raise(counters, Counter::InvalidVersionResponses);
        return Err(Refusal::WrongDirection);
    }
    if utf8::is_text(payload) {
        raise(counters, Counter::VersionResponses);
        return Ok(Accepted::VersionObserved);
    }
    raise(counters, Counter::InvalidVersionResponses);
    Err(Refusal::InvalidVersion)
}

#[tactic(auto, unfolding(crate::specs::Plain::enumeration_end_in))]
fn enumeration_end_response(counters: &mut [u64; 33], address: Address) -> Answer
    ensures { counted result counters.new ≡ enumeration_end_in counters.old (is_from address) }
{
    if address.is_from() {
        raise(counters, Counter::EnumerationEndResponses);
        return Ok(Accepted::EnumerationEnded);
    }
    raise(counters, Counter::InvalidEnumerationEndResponses);
    Err(Refusal::WrongDirection)
}

// The counter of a type that is counted and no more, if it is one of those.
#[tactic(auto, unfolding(answers::specs::Types::counter_of))]
fn counter_of(frame_type: Type) -> Option<Counter>
    ensures { MatchOption result (IsUnhandled frame_type.0) (λ c. IsCountedBy (place_of c) frame_type.0) }
{
    match frame_type {
        Type::PING_REQUEST => Some(Counter::PingRequests),
        Type::PING_RESPONSE => Some(Counter::PingResponses),
        Type::ENUMERATION_START_RESPONSE => Some(Counter::EnumerationStartResponses),
        Type::ENUMERATION_REQUEST => Some(Counter::EnumerationRequests),
        Type::ASSIGN_GATEWAY_ID_REQUEST => Some(Counter::AssignGatewayIdRequests),
        Type::ASSIGN_GATEWAY_ID_RESPONSE => Some(Counter::AssignGatewayIdResponses),
        Type::IDENTIFY_REQUEST => Some(Counter::IdentifyRequests),
        Type::VERSION_REQUEST => Some(Counter::VersionRequests),
        Type::ENUMERATION_END_REQUEST => Some(Counter::EnumerationEndRequests),
        _ => None,
    }
}

#[tactic(auto, unfolding(crate::specs::Plain::count_in))]
fn count(counters: &mut [u64; 33], frame_type: Type) -> Answer
    ensures { counted result counters.new ≡ count_in counters.old frame_type.0 }
{
    let Some(counter) = counter_of(frame_type) else {
        raise(counters, Counter::UnhandledFrameType);
        return Err(Refusal::UnhandledType);
    };
    raise(counters, counter);
    Ok(Accepted::Counted)
}

// A frame of a type that touches no table, which 13 and 32 do not refuse; any other number is 31. Refused by 31, 20, 21, 28, 29, in this order.
#[tactic(auto, unfolding(crate::specs::Plain::by_type_in))]
fn by_type(counters: &mut [u64; 33], address: Address, frame_type: Type, payload: &[u8]) -> Answer
    ensures { counted result counters.new ≡ by_type_in counters.old (is_from address) (gateway_of address) frame_type.0 payload.now }
{
    match frame_type {
        Type::ENUMERATION_START_REQUEST => enumeration_start_request(counters, address, payload),
        Type::ENUMERATION_RESPONSE => identity(
            counters,
            Counter::EnumerationResponses,
            Counter::InvalidEnumerationResponses,
            address,
            payload,
        ),
        Type::IDENTIFY_RESPONSE => identity(
            counters,
            Counter::IdentifyResponses,
            Counter::InvalidIdentifyResponses,
            address,
            payload,
        ),
        Type::VERSION_RESPONSE => version_response(counters, address, payload),
        Type::ENUMERATION_END_RESPONSE => enumeration_end_response(counters, address),
        _ => count(counters, frame_type),
    }
}

// The types that touch no table; any other number is 31. Refused by 13, 32, 31, 20, 21, 28, 29, in this order.
#[tactic(auto, unfolding(crate::specs::Plain::untabled_in))]
pub fn untabled(
    counters: &mut [u64; 33],
    address: Address,
    frame_type: Type,
    payload: &[u8],
) -> Answer
    ensures { counted result counters.new ≡ untabled_in counters.old (is_from address) (gateway_of address) frame_type.0 payload.now }
{
    barred(address, payload)?;
    by_type(counters, address, frame_type, payload)
}
