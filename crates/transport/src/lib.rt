// The gateway transport layer's packet numbers and receive responses (transport.rs). The other payloads are those of crates/layouts.
#![tactic(auto)]

ghost use Rattle.std.specs.Prelude.{◌≡◌};
ghost use Rattle.transport.specs.Status.{accepted_of, needed_of};
ghost use Rattle.transport.specs.Number.{interpret_of};
ghost use Rattle.transport.specs.Response.{receive_read_of};

use slot_counter::SlotCounter;

mod receive_response;

// The number of a packet, as a gateway counts them.
#[derive(Clone, Copy)]
pub struct PacketNumber(pub u16);

// The number that ties a command's response to its request.
#[derive(Clone, Copy)]
pub struct CommandSequenceNumber(pub u8);

// Whether a receive response may start with this status word: all of 0x00e0 is set.
pub fn accepted(status: u16) -> bool
    ensures { result ≡ accepted_of status }
{
    status & 0x00e0 == 0x00e0
}

// How long a receive response with this status word has to be: where its packet area starts.
pub fn needed(status: u16) -> usize
    ensures { result ≡ needed_of status }
{
    12 - (status & 0x13).count_ones() as usize - 2 * (status & 0x0c).count_ones() as usize
}

// The packet number that its low byte stands for, after `old`.
#[tactic(auto, unfolding(crate::specs::Number::interpret_of))]
pub fn interpret_packet_number_lo(lo: u8, old: PacketNumber) -> PacketNumber
    ensures { result.0 ≡ interpret_of lo old.0 }
{
    let [old_hi, old_lo] = old.0.to_be_bytes();
    if lo >= old_lo {
        return PacketNumber(u16::from_be_bytes([old_hi, lo]));
    }
    let new_hi = old_hi.wrapping_add(1);
    PacketNumber(u16::from_be_bytes([new_hi, lo]))
}

// A receive response frame payload, decoded into its most general form.
#[derive(Clone, Copy)]
pub struct ReceiveResponse {
    pub rx_buffers_used: Option<u8>,
    pub tx_buffers_free: Option<u8>,
    pub unknown_a: Option<[u8; 2]>,
    pub unknown_b: Option<[u8; 2]>,
    pub packet_number: PacketNumber,
    pub slot_counter: SlotCounter,
}

// Why a payload is no receive response: the refusal 23 with the length that is needed, or the refusal 22 with the status word.
#[derive(Clone, Copy, PartialEq, Eq)]
pub enum ReceiveResponseError {
    TooShort(usize),
    UnknownStatusType(u16),
}

impl ReceiveResponse {
    // The response that a payload is, after the packet number `old`, and where its packet area starts. Refused by 23 if under 2 bytes, then by 22,
    // then by 23.
    #[tactic(auto, unfolding(crate::specs::Response::receive_read_of))]
    pub fn read(
        payload: &[u8],
        old: PacketNumber,
    ) -> Result<(ReceiveResponse, usize), ReceiveResponseError>
        ensures { result ≡ receive_read_of payload.now old.0 }
    {
        if payload.len() < 2 {
            return Err(ReceiveResponseError::TooShort(5));
        }
        let status = u16::from_be_bytes([payload[0], payload[1]]);
        if !accepted(status) {
            return Err(ReceiveResponseError::UnknownStatusType(status));
        }
        let area = needed(status);
        if payload.len() < area {
            return Err(ReceiveResponseError::TooShort(area));
        }
        Ok((receive_response::fields(payload, status, old), area))
    }
}
