// The fields of a receive response, each where those before it leave off.
ghost use Rattle.std.specs.Prelude.{◌≡◌, ◌≤◌};
ghost use Rattle.transport.specs.Status.{field_size, number_at};
ghost use Rattle.transport.specs.Number.{number_of};
ghost use Rattle.transport.specs.Response.{byte_in, pair_in, response_in};

use crate::{PacketNumber, ReceiveResponse, interpret_packet_number_lo};
use slot_counter::SlotCounter;
use words::byte_at;

// The size of a field that is there while its bit is clear.
pub fn field_size(status: u16, bit: u16, size: usize) -> usize
    ensures taken { result ≡ field_size status bit size }
    ensures most { result ≤ size }
{
    if status & bit == 0 { size } else { 0 }
}

// A byte field: there or not.
pub fn optional_byte(payload: &[u8], there: bool, at: usize) -> Option<u8>
    ensures { result ≡ byte_in there payload.now at }
{
    there.then_some(byte_at(payload, at))
}

// A field of two bytes: there or not.
pub fn optional_pair(payload: &[u8], there: bool, at: usize) -> Option<[u8; 2]>
    requires { at ≤ 8 }
    ensures { result ≡ pair_in there payload.now at }
{
    there.then_some([byte_at(payload, at), byte_at(payload, at + 1)])
}

// The packet number: two bytes, or one to be interpreted after `old`.
#[tactic(auto, unfolding(crate::specs::Number::number_of))]
pub fn packet_number(payload: &[u8], status: u16, at: usize, old: PacketNumber) -> PacketNumber
    requires { at ≡ number_at status }
    ensures { result.0 ≡ number_of status payload.now old.0 }
{
    let first = byte_at(payload, at);
    if status & 0x0010 == 0 {
        PacketNumber(u16::from_be_bytes([first, byte_at(payload, at + 1)]))
    } else {
        interpret_packet_number_lo(first, old)
    }
}

// The fields of a response with this status word, each where those before it leave off.
#[tactic(auto, unfolding(crate::specs::Response::response_in))]
pub fn fields(payload: &[u8], status: u16, old: PacketNumber) -> ReceiveResponse
    ensures { result ≡ response_in status payload.now old.0 }
{
    let tx_at = 2 + field_size(status, 0x0001, 1);
    let a_at = tx_at + field_size(status, 0x0002, 1);
    let b_at = a_at + field_size(status, 0x0004, 2);
    let number_at = b_at + field_size(status, 0x0008, 2);
    let slot_at = number_at + 1 + field_size(status, 0x0010, 1);
    let rx_buffers_used = optional_byte(payload, status & 0x0001 == 0, 2);
    let tx_buffers_free = optional_byte(payload, status & 0x0002 == 0, tx_at);
    let unknown_a = optional_pair(payload, status & 0x0004 == 0, a_at);
    let unknown_b = optional_pair(payload, status & 0x0008 == 0, b_at);
    let packet_number = packet_number(payload, status, number_at, old);
    let slot_counter = SlotCounter::from_be_bytes([
        byte_at(payload, slot_at),
        byte_at(payload, slot_at + 1),
    ]);
    ReceiveResponse {
        rx_buffers_used,
        tx_buffers_free,
        unknown_a,
        unknown_b,
        packet_number,
        slot_counter,
    }
}
