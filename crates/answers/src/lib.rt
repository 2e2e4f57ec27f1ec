// What a step of the transport receiver answers, the counters that it raises (`counters`, `entries`) and the keys of its tables (`entries`).
// What each frame type does is in the crates above: receive_frames, command_frames, plain_frames.
#![tactic(auto)]

ghost use Rattle.std.specs.Prelude.{◌≡◌, ◌≤◌, OnOk, length};
ghost use Rattle.address.specs.Address.{gateway_of};
ghost use Rattle.link.specs.Wire.{payload_limit};
ghost use Rattle.answers.specs.Barred.{barred_of};
ghost use Rattle.answers.specs.Refusals.{refusal_number, length_needed};

use address::{Address, GatewayID, ID_LIMIT};
use link::PAYLOAD_LIMIT;
use network::PacketType;
use slot_counter::SlotCounter;
use transport::PacketNumber;

pub mod counters;
pub mod entries;

// The refusals of a step, in the order of 01's table.
#[derive(Clone, Copy, PartialEq, Eq)]
pub enum Refusal {
    // 12: a held command's length is over its limit
    OverLimit,
    // 13
    InvalidGatewayID,
    // 20
    WrongDirection,
    // 21
    WrongLength,
    // 22
    UnknownStatusType,
    // 23, with the length needed
    TooShort { needed: usize },
    // 24
    UnknownGateway,
    // 25
    NumbersFull,
    // 26
    SequencesFull,
    // 27
    CommandsFull,
    // 28
    NamesFrom,
    // 29
    InvalidVersion,
    // 30
    NoRequest,
    // 31
    UnhandledType,
    // 32
    PayloadTooLong,
}

// What an accepted frame says.
#[derive(Clone, Copy)]
pub enum Accepted {
    // No event: a type that is counted and no more, and a command request that is kept.
    Counted,
    CommandKept,
    // Enumeration started, using the gateway ID named.
    EnumerationStarted {
        gateway: GatewayID,
    },
    // A gateway's address: the first 8 bytes of the payload.
    IdentityObserved,
    // A gateway's version: the payload.
    VersionObserved,
    EnumerationEnded,
    SlotCounterCaptured,
    // The packet number, the slot counter, whether the number repeats the one stored before; packets stand in the payload from `area` on.
    SlotCounterObserved {
        number: PacketNumber,
        slot: SlotCounter,
        repeat: bool,
        area: usize,
    },
    // The request's place in the table (`transport_receiver::request_payload` gives its bytes), its packet type and payload length; the response's packet type.
    // The response's payload stands in the payload from 5 on.
    CommandExecuted {
        place: usize,
        request: PacketType,
        length: u16,
        response: PacketType,
    },
}

// What a step answers.
pub type Answer = Result<Accepted, Refusal>;

impl Refusal {
    // Its number in 01's table.
    pub fn number(self) -> u16
        ensures { result ≡ refusal_number self }
    {
        match self {
            Refusal::OverLimit => 12,
            Refusal::InvalidGatewayID => 13,
            Refusal::WrongDirection => 20,
            Refusal::WrongLength => 21,
            Refusal::UnknownStatusType => 22,
            Refusal::TooShort { needed: _ } => 23,
            Refusal::UnknownGateway => 24,
            Refusal::NumbersFull => 25,
            Refusal::SequencesFull => 26,
            Refusal::CommandsFull => 27,
            Refusal::NamesFrom => 28,
            Refusal::InvalidVersion => 29,
            Refusal::NoRequest => 30,
            Refusal::UnhandledType => 31,
            Refusal::PayloadTooLong => 32,
        }
    }

    // The length needed, which comes with 23 alone.
    pub fn needed(self) -> Option<usize>
        ensures { result ≡ length_needed self }
    {
        match self {
            Refusal::TooShort { needed } => Some(needed),
            _ => None,
        }
    }
}

// What is asked of every frame before its type is looked at. Refused by 13, 32, in this order.
pub fn barred(address: Address, payload: &[u8]) -> Result<(), Refusal>
    ensures exactly { result ≡ barred_of (gateway_of address) payload.now }
    ensures within { OnOk result (length payload.now ≤ payload_limit) }
{
    if ID_LIMIT < address.gateway().0 {
        return Err(Refusal::InvalidGatewayID);
    }
    if PAYLOAD_LIMIT < payload.len() {
        return Err(Refusal::PayloadTooLong);
    }
    Ok(())
}
