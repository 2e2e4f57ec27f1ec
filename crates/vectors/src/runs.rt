// What a row of each file asks: a function on the row's input, whose answer, and a lent buffer behind it, are put at the end of `got`. Of an
// input that is too short for what is asked, or asks for more room than there is, nothing is put.
ghost use Rattle.std.specs.Prelude.{◌+◌, ◌≤◌, vec_len, IfOk, IfSome};

use crate::rows::ROOM;
use address::{Address, GatewayID};
use escaping::EscapeError;
use link::{EncodeError, Type};
use std::alloc::{AllocError, Global};
use std::io::Result as IoResult;

// An answer as a row has it: 00 and a value, or a refusal's number of 01 and zeros.
fn put<const N: usize>(got: &mut Vec<u8>, answer: Result<[u8; N], u8>) -> IoResult<()> {
    let (number, value) = match answer {
        Ok(value) => (0, value),
        Err(number) => (number, [0; N]),
    };
    got.push(number)?;
    got.extend_from_slice(&value)?;
    Ok(())
}

// A length in four bytes.
fn four(length: usize) -> [u8; 4] {
    u32::try_from(length).unwrap_or(u32::MAX).to_be_bytes()
}

// The address of a direction, 00 for To, and an ID.
fn address_of(direction: u8, id: [u8; 2]) -> Address {
    let id = GatewayID(u16::from_be_bytes(id));
    if direction == 0 {
        Address::To(id)
    } else {
        Address::From(id)
    }
}

// A buffer of so many bytes, if it finds room behind an answer of five.
fn buffer(alloc: Global, room: [u8; 3]) -> Result<Option<Vec<u8>>, AllocError>
    ensures { IfOk result (λ r. IfSome r (λ v. vec_len v + 5 ≤ 70000)) }
{
    let [a, b, c] = room;
    let room = u32::from_be_bytes([0, a, b, c]) as usize;
    if ROOM - 5 < room {
        return Ok(None);
    }
    Ok(Some(vec![in alloc; 0xee; room]?))
}

pub fn crc(input: &[u8], got: &mut Vec<u8>) -> IoResult<()> {
    got.extend_from_slice(&crc::crc(input).to_be_bytes())?;
    Ok(())
}

pub fn escaped_length(input: &[u8], got: &mut Vec<u8>) -> IoResult<()> {
    let answer = escaping::escaped_length(input);
    put(got, answer.map(four).map_err(|_| 10))
}

pub fn escape(input: &[u8], got: &mut Vec<u8>) -> IoResult<()> {
    let Some(([_, r0, r1, r2], bytes)) = input.split_first_chunk::<4>() else {
        return Ok(());
    };
    let Some(mut out) = buffer(*got.allocator(), [*r0, *r1, *r2])? else {
        return Ok(());
    };
    let answer = escaping::escape(bytes, &mut out);
    let refusal = |e| match e {
        EscapeError::TooLong => 10,
        EscapeError::NoRoom => 11,
    };
    put(got, answer.map(four).map_err(refusal))?;
    got.extend_from_slice(&out)?;
    Ok(())
}

pub fn unescaped_byte(input: &[u8], got: &mut Vec<u8>) -> IoResult<()> {
    let Some(code) = input.first() else {
        return Ok(());
    };
    let answer = escaping::unescaped_byte(*code);
    put(got, answer.map(|b| [0, b]).map_err(|_| 14))
}

pub fn gateway_id(input: &[u8], got: &mut Vec<u8>) -> IoResult<()> {
    let Some(number) = input.first_chunk() else {
        return Ok(());
    };
    let answer = GatewayID::try_from(u16::from_be_bytes(*number));
    put(got, answer.map(|id| id.0.to_be_bytes()).map_err(|_| 13))
}

// The direction, 01 for From, stands in the place of a refusal's number.
pub fn address(input: &[u8], got: &mut Vec<u8>) -> IoResult<()> {
    let Some(bytes) = input.first_chunk() else {
        return Ok(());
    };
    let address = Address::from_be_bytes(*bytes);
    got.push(u8::from(address.is_from()))?;
    got.extend_from_slice(&address.gateway().0.to_be_bytes())?;
    Ok(())
}

pub fn number(input: &[u8], got: &mut Vec<u8>) -> IoResult<()> {
    let Some([direction, high, low]) = input.first_chunk::<3>() else {
        return Ok(());
    };
    let address = address_of(*direction, [*high, *low]);
    let answer = u16::try_from(address);
    put(got, answer.map(|n| n.to_be_bytes()).map_err(|_| 13))?;
    put(got, address.to_be_bytes().map_err(|_| 13))
}

pub fn encode(input: &[u8], got: &mut Vec<u8>) -> IoResult<()> {
    let Some((head, payload)) = input.split_first_chunk::<9>() else {
        return Ok(());
    };
    let [direction, id0, id1, type0, type1, _, room0, room1, room2] = *head;
    let address = address_of(direction, [id0, id1]);
    let frame_type = Type(u16::from_be_bytes([type0, type1]));
    let Some(mut out) = buffer(*got.allocator(), [room0, room1, room2])? else {
        return Ok(());
    };
    let answer = link::encode(address, frame_type, payload, &mut out);
    let refusal = |e| match e {
        EncodeError::InvalidGatewayID => 13,
        EncodeError::TooLong => 10,
        EncodeError::NoRoom => 11,
    };
    put(got, answer.map(four).map_err(refusal))?;
    got.extend_from_slice(&out)?;
    Ok(())
}
