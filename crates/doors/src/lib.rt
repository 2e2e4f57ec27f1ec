// The doors of the proved functions to programs in other languages: numbers and byte slices alone, by the C calling convention.
// A door has no `requires`, so a caller owes nothing but what the parameters' types say.
// An answer is one number: a value, or 2^32 times the number of 01's table by which it is refused.
#![tactic(auto)]

ghost use Rattle.std.specs.Prelude.{◌≡◌, ◌↔◌, true, length};
ghost use Rattle.crc.specs.Crc.{crc_of};
ghost use Rattle.escaping.specs.Handed.{unescape_handed, length_handed, escape_handed, escape_bytes};
ghost use Rattle.address.specs.Address.{address_of};
ghost use Rattle.address.specs.Handed.{id_handed, number_handed};
ghost use Rattle.link.specs.Handed.{encode_handed, encode_bytes};
ghost use Rattle.utf8.specs.Utf8.{Text};
ghost use Rattle.doors.specs.Numbered.{numbered};
ghost use Rattle.doors.specs.Addresses.{directed, toward};

use address::{Address, GatewayID, InvalidGatewayID};
use escaping::{EscapeError, TooLong};
use link::{EncodeError, Type};

pub mod dispatch;
pub mod nodes;
pub mod payloads;
pub mod receiver;
pub mod slots;

// The check of a slice.
#[unsafe(no_mangle)]
pub extern "C" fn johkkesir_crc(buffer: &[u8]) -> u16
    ensures { result ≡ crc_of buffer.now }
{
    crc::crc(buffer)
}

// The byte that stands behind 7e and `code`, or 14.
#[unsafe(no_mangle)]
pub extern "C" fn johkkesir_unescaped_byte(code: u8) -> u64
    ensures { result ≡ numbered (unescape_handed code) }
{
    match escaping::unescaped_byte(code) {
        Ok(b) => b as u64,
        Err(_) => 14 << 32,
    }
}

// The length of the escaped form, or 10.
#[unsafe(no_mangle)]
pub extern "C" fn johkkesir_escaped_length(input: &[u8]) -> u64
    ensures { result ≡ numbered (length_handed input.now) }
{
    match escaping::escaped_length(input) {
        Ok(n) => n as u64,
        Err(TooLong) => 10 << 32,
    }
}

// Escapes `input` to the start of `out`, and gives how many bytes it wrote, or 10 or 11.
#[unsafe(no_mangle)]
pub extern "C" fn johkkesir_escape(input: &[u8], out: &mut [u8]) -> u64
    ensures value { result ≡ numbered (escape_handed input.now (length out.old)) }
    ensures out_after { out.new ≡ escape_bytes input.now out.old }
{
    match escaping::escape(input, out) {
        Ok(n) => n as u64,
        Err(EscapeError::TooLong) => 10 << 32,
        Err(EscapeError::NoRoom) => 11 << 32,
    }
}

// The gateway ID of a number, or 13.
#[unsafe(no_mangle)]
pub extern "C" fn johkkesir_gateway_id(number: u16) -> u64
    ensures { result ≡ numbered (id_handed number) }
{
    match GatewayID::try_from(number) {
        Ok(id) => id.0 as u64,
        Err(InvalidGatewayID) => 13 << 32,
    }
}

// The gateway ID in the address that 16 bits say, and 2^16 more if it is From that gateway.
#[unsafe(no_mangle)]
pub extern "C" fn johkkesir_address(number: u16) -> u32
    ensures { result ≡ directed (address_of number) }
{
    match Address::from(number) {
        Address::From(id) => 0x1_0000 + (id.0 as u32),
        Address::To(id) => id.0 as u32,
    }
}

// The 16 bits of an address, or 13.
fn number_of(a: Address) -> u64
    ensures { result ≡ numbered (number_handed a) }
{
    match u16::try_from(a) {
        Ok(n) => n as u64,
        Err(_) => 13 << 32,
    }
}

// The address From or To a gateway.
fn address_toward(from: bool, id: u16) -> Address
    ensures { result ≡ toward from id }
{
    if from {
        return Address::From(GatewayID(id));
    }
    Address::To(GatewayID(id))
}

// The 16 bits of the address From or To a gateway, or 13.
#[unsafe(no_mangle)]
pub extern "C" fn johkkesir_address_number(from: bool, id: u16) -> u64
    ensures { result ≡ numbered (number_handed (toward from id)) }
{
    number_of(address_toward(from, id))
}

// Encodes the frame From or To a gateway to the start of `out`, and gives how many bytes it wrote, or 13, 10 or 11.
#[unsafe(no_mangle)]
pub extern "C" fn johkkesir_encode(
    from: bool,
    id: u16,
    frame_type: u16,
    payload: &[u8],
    out: &mut [u8],
) -> u64
    ensures value { result ≡ numbered (encode_handed crc_of (toward from id) frame_type payload.now (length out.old)) }
    ensures out_after { out.new ≡ encode_bytes crc_of (toward from id) frame_type payload.now out.old }
{
    match link::encode(address_toward(from, id), Type(frame_type), payload, out) {
        Ok(n) => n as u64,
        Err(EncodeError::InvalidGatewayID) => 13 << 32,
        Err(EncodeError::TooLong) => 10 << 32,
        Err(EncodeError::NoRoom) => 11 << 32,
    }
}

// Whether the bytes are a text: UTF-8, and not empty.
#[unsafe(no_mangle)]
pub extern "C" fn johkkesir_is_text(s: &[u8]) -> bool
    ensures { (result ≡ true) ↔ Text s.now }
{
    utf8::is_text(s)
}
