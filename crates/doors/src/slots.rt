// The doors of slot counters and of receive responses' fields.
ghost use Rattle.std.specs.Prelude.{◌≡◌};
ghost use Rattle.slot_counter.specs.Slots.{slots_since_of, slot_number_of, number_in, epoch_of, epoch_at, index_of, added_of};
ghost use Rattle.transport.specs.Response.{receive_read_of};
ghost use Rattle.doors.specs.Slots.{numbered_slot, counted_slot, since_number, byte_or, pair_or, read_fields, read_answer, read_news};

use slot_counter::{SlotCounter, SlotEpoch, SlotNumber};
use transport::{PacketNumber, ReceiveResponse, ReceiveResponseError};

// The slot number in a counter; a value that is none comes with 2^16 more.
#[unsafe(no_mangle)]
pub extern "C" fn johkkesir_slot_number(counter: u16) -> u32
    ensures { result ≡ numbered_slot (slot_number_of (number_in counter)) }
{
    match SlotCounter(counter).slot_number() {
        Ok(n) => n.get() as u32,
        Err(n) => 0x1_0000 + (n.0 as u32),
    }
}

// The index of a counter's epoch among the four.
#[unsafe(no_mangle)]
pub extern "C" fn johkkesir_slot_epoch(counter: u16) -> u8
    ensures { result ≡ index_of (epoch_of counter) }
{
    SlotCounter(counter).epoch().index()
}

// How many slots one counter is after another; the first value that is no slot number comes with 2^16 more.
#[unsafe(no_mangle)]
pub extern "C" fn johkkesir_slots_since(counter: u16, past: u16) -> u32
    ensures { result ≡ since_number (slots_since_of counter past) }
{
    match SlotCounter(counter).slots_since(SlotCounter(past)) {
        Ok(n) => n as u32,
        Err(n) => 0x1_0000 + (n.0 as u32),
    }
}

// A field's byte; 2^16 where it is missing.
fn byte_or(b: Option<u8>) -> u64
    ensures { result ≡ byte_or b }
{
    match b {
        Some(x) => x as u64,
        None => 0x1_0000,
    }
}

// A field's two bytes, the first higher; 2^16 where they are missing.
fn pair_or(p: Option<[u8; 2]>) -> u64
    ensures { result ≡ pair_or p }
{
    match p {
        Some(bytes) => u16::from_be_bytes(bytes) as u64,
        None => 0x1_0000,
    }
}

// The fields of a receive response in the order of its bytes, and where its packet area starts.
fn fields_of(r: ReceiveResponse, area: u64) -> [u64; 7]
    ensures { result ≡ read_fields r area }
{
    let rx = r.rx_buffers_used;
    let tx = r.tx_buffers_free;
    let a = r.unknown_a;
    let b = r.unknown_b;
    let number = r.packet_number;
    let slot = r.slot_counter;
    [
        byte_or(rx),
        byte_or(tx),
        pair_or(a),
        pair_or(b),
        number.0 as u64,
        slot.0 as u64,
        area,
    ]
}

// Reads a receive response after the packet number `old`: 0 and its fields; or 22 with the status word, or 23 with the length needed, for the
// first of `fields`, the others 0.
#[unsafe(no_mangle)]
pub extern "C" fn johkkesir_receive_response(payload: &[u8], old: u16, fields: &mut [u64; 7]) -> u64
    ensures value { result ≡ read_answer (receive_read_of payload.now old) }
    ensures fields_after { fields.new ≡ read_news (receive_read_of payload.now old) }
{
    match ReceiveResponse::read(payload, PacketNumber(old)) {
        Ok((r, area)) => {
            let f = fields_of(r, area as u64);
            *fields = f;
            0
        }
        Err(ReceiveResponseError::TooShort(n)) => {
            let f = [n as u64, 0, 0, 0, 0, 0, 0];
            *fields = f;
            23 << 32
        }
        Err(ReceiveResponseError::UnknownStatusType(status)) => {
            let f = [status as u64, 0, 0, 0, 0, 0, 0];
            *fields = f;
            22 << 32
        }
    }
}

// The index of the epoch so many epochs on.
#[unsafe(no_mangle)]
pub extern "C" fn johkkesir_epoch_add(index: u8, n: u8) -> u8
    ensures { result ≡ index_of (added_of (epoch_at index) n) }
{
    (SlotEpoch::at(index) + n).index()
}

// The counter of an epoch and a slot number; a value that is none comes with 2^16 more.
#[unsafe(no_mangle)]
pub extern "C" fn johkkesir_slot_counter(index: u8, number: u16) -> u32
    ensures { result ≡ counted_slot (epoch_at index) (slot_number_of number) }
{
    match SlotNumber::try_from(number) {
        Ok(n) => SlotCounter::new(SlotEpoch::at(index), n).0 as u32,
        Err(n) => 0x1_0000 + (n.0 as u32),
    }
}
